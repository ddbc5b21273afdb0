//! The command `delete`: a name is to go, with its log and its record.

ghost use Rattle.std.specs.Prelude.{Option};
ghost use Rattle.history_model.specs.Bytes.{Bytes};
ghost use Rattle.history_word.specs.Commands.{IsDelete};
ghost use Rattle.history.specs.Storing.{GivesMoves};
ghost use Rattle.history_repository.specs.Stands.{Stands};
ghost use Rattle.history_model.specs.Commands as commands;
ghost use Rattle.history_model.specs.Repository as plain;

use crate::moves::{Done, Moves};
use gix_ref_file::Files;
use history_plans::test_delete;
use history_repository::{Repository, Stopped};
use history_word::Delete;
use std::alloc::Global;

/// Returns the name that a `delete` removes, or the first cause that holds. Changes nothing.
pub(crate) fn plan_deletion<F: Files>(
    repository: &Repository<F>,
    alloc: Global,
    command: Delete,
) -> Result<Moves, Stopped>
    ensures { (r : plain.Repository) (name : Bytes) (at : Option Bytes)
        → Stands F.is_honest F.history repository.now r → IsDelete command name at
        → GivesMoves F.reading_may_fail r (commands.Delete name at) result }
{
    test_delete(repository, alloc, &command)?;
    repository.names.test_lock(alloc, &command.name)?;
    Ok(Moves::Change {
        done: Done::Delete,
        moved: Vec::new(alloc),
        taken: Some(command.name),
    })
}
