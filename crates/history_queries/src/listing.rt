//! The command `files`.

ghost use Rattle.std.specs.Prelude.{◌≡◌, map, IfOk};
ghost use Rattle.history_files.specs.Reading.{line_of};
ghost use Rattle.history_model.specs.Replies.{reply_text, FilesAre};
ghost use Rattle.history_repository.specs.Stands.{Stands};
ghost use Rattle.history_repository.specs.Reads.{OnlyAnswers};
ghost use Rattle.history_model.specs.Repository as plain;
ghost use Rattle.history_model.specs.Commands as model;

use crate::reading::files_below;
use gix_hash::Kind;
use gix_ref_file::Files;
use history_files::File;
use history_repository::{Repository, Stopped, read_commit_of, root_meant};
use history_store::hex_digits;
use history_word::{field, kind_word, line};
use std::alloc::{AllocError, Global};

/// Returns the text that lists files.
fn files_text(alloc: Global, files: &[File]) -> Result<Vec<u8>, AllocError>
    ensures { IfOk result (λ text. text.items ≡ reply_text (FilesAre (map line_of files.now))) }
{
    let mut text = Vec::new(alloc);
    let mut count = itoa::Buffer::new();
    line(
        &mut text,
        &[
            b"ok".as_slice(),
            b"files".as_slice(),
            count.format(files.len()).as_bytes(),
        ],
    )?;
    for file in files {
        let mut size = itoa::Buffer::new();
        let mut digits = Kind::hex_buf();
        line(
            &mut text,
            &[
                kind_word(file.kind),
                hex_digits(&file.id, &mut digits),
                size.format(file.path.len()).as_bytes(),
            ],
        )?;
        field(&mut text, &file.path)?;
    }
    Ok(text)
}

/// Returns the reply to `files`: the files of the commit that the word means, their paths
/// ascending.
///
/// It is refused with `UnknownWord`, `AmbiguousWord`, `UnbornHead` or `NotACommit` if the word
/// means no commit. It is a fault if a call of the files failed, or if no memory is left.
pub fn list_files<F: Files>(
    repository: &Repository<F>,
    alloc: Global,
    word: &[u8],
) -> Result<Vec<u8>, Stopped>
    ensures { (r : plain.Repository) → Stands F.is_honest F.history repository.now r
        → OnlyAnswers F.reading_may_fail r (model.Files word.now) result }
{
    let commit = read_commit_of(repository, alloc, word)?;
    let root = root_meant(repository, alloc, &commit)?;
    let files = files_below(repository, alloc, &root)?;
    Ok(files_text(alloc, &files)?)
}
