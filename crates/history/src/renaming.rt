//! The command `rename`: a new name is made at what the old one holds, and the old one goes.

ghost use Rattle.history_model.specs.Bytes.{Bytes};
ghost use Rattle.history_word.specs.Commands.{IsRename};
ghost use Rattle.history.specs.Storing.{GivesMoves};
ghost use Rattle.history_repository.specs.Stands.{Stands};
ghost use Rattle.history_model.specs.Commands as commands;
ghost use Rattle.history_model.specs.Repository as plain;

use crate::moves::{Done, Moves, moves_of_one};
use gix_ref_file::Files;
use history_plans::plan_rename;
use history_repository::{Repository, Stopped};
use history_word::Rename;
use std::alloc::Global;

/// Returns how the names of a `rename` move, or the first cause that holds. Changes nothing.
pub(crate) fn plan_renaming<F: Files>(
    repository: &Repository<F>,
    alloc: Global,
    command: Rename,
) -> Result<Moves, Stopped>
    ensures { (r : plain.Repository) (from to : Bytes)
        → Stands F.is_honest F.history repository.now r → IsRename command from to
        → GivesMoves F.reading_may_fail r (commands.Rename from to) result }
{
    let to = plan_rename(repository, alloc, &command)?;
    repository.names.test_lock(alloc, &command.from)?;
    Ok(Moves::Change {
        done: Done::Rename,
        moved: moves_of_one(repository, alloc, to)?,
        taken: Some(command.from),
    })
}
