//! The command `switch`: HEAD names another branch.

ghost use Rattle.std.specs.Prelude.{◌≡◌, None, IsErrOf};
ghost use Rattle.history_model.specs.Causes.{first_cause};
ghost use Rattle.history_model.specs.declared.Fault.TheVariants.{File};
ghost use Rattle.history.specs.Calls.{MovesAlone, MovesAsAsked};
ghost use Rattle.history.specs.Storing.{GivesMoves};
ghost use Rattle.history_repository.specs.Stands.{Stands};
ghost use Rattle.history_model.specs.Commands as commands;
ghost use Rattle.history_model.specs.Repository as plain;

use crate::moves::{Moves, fault_of};
use gix_ref_file::Files;
use history_model::Fault;
use history_plans::test_switch;
use history_repository::{Repository, Stopped};
use std::alloc::Global;

/// Returns the branch that HEAD is to name after a `switch`, or the first cause that holds. Changes
/// nothing.
pub(crate) fn plan_switch<F: Files>(
    repository: &Repository<F>,
    name: Vec<u8>,
) -> Result<Moves, Stopped>
    ensures { (r : plain.Repository) → Stands F.is_honest F.history repository.now r
        → GivesMoves F.reading_may_fail r (commands.Switch name.items) result }
{
    test_switch(repository, &name)?;
    Ok(Moves::Switch(name))
}

/// Sets HEAD to the branch; the branch in memory changes once that took effect. The objects stay as
/// they are.
pub(crate) fn switch_head<F: Files>(
    repository: &mut Repository<F>,
    alloc: Global,
    name: Vec<u8>,
) -> Result<(), Fault>
    ensures alone { MovesAlone F.Files (IsErrOf result File) repository.old repository.new }
    ensures moves { (r : plain.Repository) → Stands F.is_honest F.history repository.old r
        → first_cause r (commands.Switch name.items) ≡ None
        → MovesAsAsked F.Files r (commands.Switch name.items) repository.old repository.new result }
{
    match repository.names.switch(alloc, &repository.branch, &name) {
        Ok(()) => {
            repository.branch = name;
            Ok(())
        }
        Err(error) => Err(fault_of(error)),
    }
}
