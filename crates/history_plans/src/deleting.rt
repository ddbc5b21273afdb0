//! The tests of a `delete`: its name may be a repository's, exists, and holds what is expected.

ghost use Rattle.std.specs.Prelude.{◌≡◌, None, Option, Some, MatchResult, option_map};
ghost use Rattle.gix_hash.specs.Id.{id_of};
ghost use Rattle.history_model.specs.Bytes.{Bytes};
ghost use Rattle.history_word.specs.Commands.{IsDelete};
ghost use Rattle.history_plans.specs.Deleting.{TestsAll, gone_cause};
ghost use Rattle.history_repository.specs.Stands.{Stands};
ghost use Rattle.history_model.specs.Commands as commands;
ghost use Rattle.history_model.specs.Repository as plain;

use crate::base::{Expected, read_expected, test_words};
use gix_hash::ObjectId;
use gix_ref_file::Files;
use history_model::Cause;
use history_repository::{ReadObjects, Repository, Stopped, commit_held, read_held, test_name};
use history_word::Delete;
use std::alloc::Global;

/// Tests the commit of a name that is to be deleted: the name exists, and is where it is expected.
/// Otherwise returns `NoSuchName` or `NotExpected`, or `Taken` if the name is expected to be new.
fn test_gone(expected: Expected, held: Option<ObjectId>) -> Result<(), Cause>
    ensures { MatchResult result (λ _. gone_cause expected (option_map id_of held) ≡ None)
        (λ cause. gone_cause expected (option_map id_of held) ≡ Some cause) }
{
    if held.is_none() {
        return Err(Cause::NoSuchName);
    }
    expected.test(held)
}

/// Tests every cause. It changes nothing.
///
/// It is refused for the first cause that holds: `BadName`, `PrivateName`, one of a word that means
/// no commit, `NoSuchName`, `Taken` or `NotExpected`. It is a fault if a call of the files failed,
/// or if no memory is left.
pub fn test_delete<F: Files>(
    repository: &Repository<F>,
    alloc: Global,
    command: &Delete,
) -> Result<(), Stopped>
    ensures { (r : plain.Repository) (name : Bytes) (at : Option Bytes)
        → Stands F.is_honest F.history repository.now r → IsDelete command.now name at
        → TestsAll F.reading_may_fail r (commands.Delete name at) result }
{
    let mut read = ReadObjects::new(alloc);
    test_name(&command.name)?;
    let expected = read_expected(repository, alloc, &mut read, &command.expect)?;
    test_words(expected, &[])?;
    let held = read_held(repository, alloc, &mut read, &command.name)?;
    test_gone(expected, commit_held(held))?;
    Ok(())
}
