//! The command `tag`: a tag of a commit is stored, and then a name moves to it.

ghost use Rattle.std.specs.Prelude.{◌≡◌, IfErr, IsErrOf};
ghost use Rattle.history_model.specs.declared.Fault.TheVariants.{File};
ghost use Rattle.history_word.specs.Commands.{IsTag};
ghost use Rattle.history_repository.specs.Faults.{IsRefusal};
ghost use Rattle.history_repository.specs.Stands.{Stands};
ghost use Rattle.history.specs.Calls.{StoresAlone, StoresAsAsked};
ghost use Rattle.history_model.specs.Commands as commands;
ghost use Rattle.history_model.specs.Repository as plain;
ghost use Rattle.history_repository.specs.declared.stopped.Stopped.TheVariants as stopped;

use crate::commit::put;
use crate::moves::{Done, Moves, moves_of_one};
use gix_ref_file::Files;
use history_plans::plan_tag;
use history_repository::{Repository, Stopped};
use history_word::TagCommand;
use std::alloc::Global;

/// Puts the tag of a `tag`, and returns how its name moves. Otherwise returns the first cause that
/// holds, and nothing has changed, or a fault.
pub(crate) fn store_tag<F: Files>(
    repository: &mut Repository<F>,
    alloc: Global,
    command: TagCommand,
) -> Result<Moves, Stopped>
    ensures refused { IfErr result (λ stopped. IsRefusal stopped → repository.new ≡ repository.old) }
    ensures alone { StoresAlone F.Files (IsErrOf result (stopped.Fault File))
        repository.old repository.new }
    ensures stores { (r : plain.Repository) (sent : commands.TagCommand)
        → Stands F.is_honest F.history repository.old r → IsTag command sent
        → StoresAsAsked F.Files r (commands.Tag sent) repository.old repository.new result }
{
    let tagged = plan_tag(repository, alloc, command)?;
    let made = tagged.moves.entry.after;
    let moved = moves_of_one(repository, alloc, tagged.moves)?;
    put(repository, alloc, &tagged.object)?;
    Ok(Moves::Change {
        done: Done::Tag(made),
        moved,
        taken: None,
    })
}
