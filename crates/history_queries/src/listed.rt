//! The command `names`.

ghost use Rattle.std.specs.Prelude.{◌≡◌, None, Some, MatchResult, map, IfOk, option_copied};
ghost use Rattle.history_model.specs.Replies.{reply_text, NamesAre};
ghost use Rattle.history_repository.specs.NamesShown.{folder_cause, shown_name};
ghost use Rattle.history_repository.specs.Stands.{Stands};
ghost use Rattle.history_repository.specs.Reads.{OnlyAnswers};
ghost use Rattle.history_model.specs.Repository as plain;
ghost use Rattle.history_model.specs.Commands as model;

use gix_hash::Kind;
use gix_ref_file::Files;
use history_model::Cause;
use history_repository::{ALL_NAMES, Repository, Shown, Stopped, read_shown, test_name};
use history_store::hex_digits;
use history_word::line;
use std::alloc::{AllocError, Global};

/// Tests that the folder is that of all names, or a name that a repository may hold. Otherwise
/// returns `BadName` or `PrivateName`.
fn test_folder(folder: &[u8]) -> Result<(), Cause>
    ensures { MatchResult result (λ _. folder_cause folder.now ≡ None)
        (λ cause. folder_cause folder.now ≡ Some cause) }
{
    if folder == ALL_NAMES {
        return Ok(());
    }
    test_name(folder)
}

/// Returns the text that lists names.
fn names_text(alloc: Global, branch: &[u8], names: &[Shown]) -> Result<Vec<u8>, AllocError>
    ensures { IfOk result
        (λ text. text.items ≡ reply_text (NamesAre branch.now (map shown_name names.now))) }
{
    let mut text = Vec::new(alloc);
    let mut count = itoa::Buffer::new();
    line(
        &mut text,
        &[
            b"ok".as_slice(),
            b"names".as_slice(),
            count.format(names.len()).as_bytes(),
            branch,
        ],
    )?;
    for shown in names {
        let mut id_digits = Kind::hex_buf();
        let mut commit_digits = Kind::hex_buf();
        let id = hex_digits(&shown.held.id, &mut id_digits);
        let commit = hex_digits(&shown.held.commit.id, &mut commit_digits);
        line(&mut text, &[id, commit, &shown.name])?;
    }
    Ok(text)
}

/// Returns the reply to `names`: the existing names, or those below a folder, ascending by their
/// bytes, and HEAD's branch.
///
/// It is refused with `BadName` or `PrivateName` if the folder is no name that a repository may
/// hold. It is a fault if a call of the files failed, or if no memory is left.
pub fn list_names<F: Files>(
    repository: &Repository<F>,
    alloc: Global,
    folder: Option<&[u8]>,
) -> Result<Vec<u8>, Stopped>
    ensures { (r : plain.Repository) → Stands F.is_honest F.history repository.now r
        → OnlyAnswers F.reading_may_fail r (model.Names (option_copied folder.entry)) result }
{
    let folder = folder.unwrap_or(ALL_NAMES);
    test_folder(folder)?;
    let names = repository.names.list_all(alloc, folder)?;
    let shown = read_shown(repository, alloc, names)?;
    Ok(names_text(alloc, &repository.branch, &shown)?)
}
