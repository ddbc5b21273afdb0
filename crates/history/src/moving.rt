//! The command `move`: names that move together, each to its word's commit, once their locks are looked up.

ghost use Rattle.std.specs.Prelude.{IsErrOf};
ghost use Rattle.gix_ref_file.specs.declared.files.FileError.TheVariants.{Failed};
ghost use Rattle.history_word.specs.Commands.{IsMove};
ghost use Rattle.history.specs.Storing.{GivesMoves};
ghost use Rattle.history_repository.specs.Stands.{Stands};
ghost use Rattle.history_model.specs.Commands as commands;
ghost use Rattle.history_model.specs.Repository as plain;

use crate::moves::{Done, Moves};
use gix_ref_file::{FileError, Files};
use history_plans::plan_moves;
use history_repository::{Repository, Stopped};
use history_store::MovedName;
use history_word::MoveCommand;
use std::alloc::Global;

/// Returns the moves of a `move`, or the first cause that holds. Changes nothing.
pub(crate) fn plan_together<F: Files>(
    repository: &Repository<F>,
    alloc: Global,
    command: MoveCommand,
) -> Result<Moves, Stopped>
    ensures { (r : plain.Repository) (sent : commands.MoveCommand)
        → Stands F.is_honest F.history repository.now r → IsMove command sent
        → GivesMoves F.reading_may_fail r (commands.Move sent) result }
{
    let moved = plan_moves(repository, alloc, command)?;
    test_locks(repository, alloc, &moved)?;
    Ok(Moves::Change {
        done: Done::Move,
        moved,
        taken: None,
    })
}

/// Looks the lock of each name up. The errors are those of `Names::test_lock`.
fn test_locks<F: Files>(
    repository: &Repository<F>,
    alloc: Global,
    moved: &[MovedName],
) -> Result<(), FileError>
    ensures { IsErrOf result Failed → F.reading_may_fail }
{
    for one in moved {
        repository.names.test_lock(alloc, &one.name)?;
    }
    Ok(())
}
