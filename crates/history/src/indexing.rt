//! The command `index`: rows of all stored commits, over which later logs walk, and their number as a reply.

ghost use Rattle.std.specs.Prelude.{◌≡◌, IfOk, OnErr, OnOk, Some};
ghost use Rattle.history_model.specs.Replies.{reply_text, Indexed};
ghost use Rattle.history_repository.specs.Reads.{OnlyAnswers};
ghost use Rattle.history_repository.specs.Face.{KeepsAllButRows, rows_in};
ghost use Rattle.history.specs.Indexed.{KeepsRows};
ghost use Rattle.history_repository.specs.Stands.{Stands};
ghost use Rattle.history_model.specs.Answers as model;
ghost use Rattle.history_model.specs.Commands as commands;
ghost use Rattle.history_model.specs.Repository as plain;

use gix_ref_file::Files;
use gix_traverse_graph::Graph;
use history_queries::all_rows;
use history_repository::{Repository, Stopped};
use history_word::line;
use std::alloc::{AllocError, Global};

/// Returns the text that says how many rows were made.
fn index_text(alloc: Global, rows: usize) -> Result<Vec<u8>, AllocError>
    ensures { IfOk result (λ text. text.items ≡ reply_text (Indexed rows)) }
{
    let mut text = Vec::new(alloc);
    let mut count = itoa::Buffer::new();
    line(
        &mut text,
        &[
            b"ok".as_slice(),
            b"index".as_slice(),
            count.format(rows).as_bytes(),
        ],
    )?;
    Ok(text)
}

/// Makes rows of all stored commits, and returns the text with their number. After a fault nothing
/// has changed, and the rows stay those that the last `ok index` counted.
pub(crate) fn index<F: Files>(
    repository: &mut Repository<F>,
    alloc: Global,
) -> Result<Vec<u8>, Stopped>
    ensures kept { KeepsAllButRows repository.old repository.new }
    ensures refused { OnErr result (repository.new ≡ repository.old) }
    ensures answers { (r : plain.Repository) → Stands F.is_honest F.history repository.old r
        → OnlyAnswers F.reading_may_fail r commands.Index result }
    ensures serves { (r : plain.Repository) → Stands F.is_honest F.history repository.old r
        → Stands F.is_honest F.history repository.new r }
    ensures rows { (r : plain.Repository) → Stands F.is_honest F.history repository.old r
        → OnOk result (KeepsRows (Some (model.rows_of r)) (rows_in repository.new)) }
{
    let rows = all_rows(repository, alloc)?;
    let text = index_text(alloc, rows.len())?;
    repository.rows = Some(Graph::from_rows(rows)?);
    Ok(text)
}
