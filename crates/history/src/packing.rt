//! The command `pack`: each name gets a record in `packed-refs`, and its own file goes.

ghost use Rattle.std.specs.Prelude.{◌≡◌, OnOk, IsErrOf};
ghost use Rattle.history_model.specs.declared.Fault.TheVariants.{File};
ghost use Rattle.history_store.specs.Packing.{KeepsRecords};
ghost use Rattle.history.specs.Calls.{MovesAlone, PacksAll};
ghost use Rattle.history.specs.Storing.{GivesMoves};
ghost use Rattle.history_plans.specs.Halves.{names_tree};
ghost use Rattle.history_plans.specs.Packing.{IsPacking};
ghost use Rattle.history_repository.specs.Stands.{Stands};
ghost use Rattle.history_model.specs.Commands as commands;
ghost use Rattle.history_model.specs.Repository as plain;

use crate::moves::{Moves, fault_of};
use gix_ref_file::Files;
use history_model::Fault;
use history_plans::{Packing, names_to_pack};
use history_repository::{HeldStore, Repository, Stopped};
use std::alloc::Global;

/// Returns all names, which a `pack` packs; no cause refuses it. Changes nothing.
pub(crate) fn plan_pack<F: Files>(
    repository: &Repository<F>,
    alloc: Global,
) -> Result<Moves, Stopped>
    ensures { (r : plain.Repository) → Stands F.is_honest F.history repository.now r
        → GivesMoves F.reading_may_fail r commands.Pack result }
{
    Ok(Moves::Pack(names_to_pack(repository, alloc)?))
}

/// Writes a record for each of the names that has none yet, and removes their own files, in one
/// transaction. The objects say what tags lead to, and stay as they are; those that were read for
/// the names aren't read again.
pub(crate) fn pack_names<F: Files>(
    repository: &mut Repository<F>,
    alloc: Global,
    packing: &Packing,
) -> Result<(), Fault>
    ensures alone { MovesAlone F.Files (IsErrOf result File) repository.old repository.new }
    ensures branch { repository.new.branch ≡ repository.old.branch }
    ensures packs { (r : plain.Repository) → Stands F.is_honest F.history repository.old r
        → IsPacking r packing.now
        → PacksAll F.Files r repository.old repository.new result }
    ensures records { (r : plain.Repository) → Stands F.is_honest F.history repository.old r
        → IsPacking r packing.now
        → OnOk result (KeepsRecords repository.new.names (names_tree F.history repository.new)) }
{
    let objects = HeldStore {
        store: &repository.objects,
        held: &packing.held,
    };
    match repository.names.pack_names(alloc, &objects, &packing.names) {
        Ok(()) => Ok(()),
        Err(error) => Err(fault_of(error)),
    }
}
