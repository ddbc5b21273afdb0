//! Both halves of a changing command: `store_objects`, `move_names`; one name's moves; files' faults.
//!
//! A run changes files only by these two calls, in this order. The methods of `Repository` with
//! their names make one of them each.

ghost use Rattle.std.specs.Prelude.{◌≡◌, [], ◌∷◌, Ok, IsOk, IfErr, IfOk, false, IsErrOf};
ghost use Rattle.gix_ref_file.specs.declared.files.FileError.TheVariants.{Failed};
ghost use Rattle.history_model.specs.declared.Fault.TheVariants.{File};
ghost use Rattle.history_repository.specs.Faults.{IsRefusal, file_fault};
ghost use Rattle.history.specs.Calls.{EditsAsAsked, MovesAlone, MovesAsAsked, StoresAlone, StoresAsAsked};
ghost use Rattle.history.specs.Moving.{AskedEdits, edits_of, gone_of};
ghost use Rattle.history.specs.Storing.{AreMovesOf, AskedChange, HasStored};
ghost use Rattle.history_word.specs.Commands.{is_changing};
ghost use Rattle.history_model.specs.Commands as commands;
ghost use Rattle.history_model.specs.Repository as plain;
ghost use Rattle.history_repository.specs.declared.stopped.Stopped.TheVariants as stopped;

use crate::commit::store_commit;
use crate::deleting::plan_deletion;
use crate::moving::plan_together;
use crate::packing::{pack_names, plan_pack};
use crate::renaming::plan_renaming;
use crate::switching::{plan_switch, switch_head};
use crate::tagging::store_tag;
use gix_hash::ObjectId;
use gix_ref_file::{FileError, Files};
use history_model::Fault;
use history_plans::Packing;
use history_repository::{Repository, Stopped};
use history_store::MovedName;
use history_word::Command;
use std::alloc::Global;

/// The command that changes names, and the id of the commit or tag that it made.
#[derive(Drop)]
pub enum Done {
    Commit(ObjectId),
    Tag(ObjectId),
    Move,
    Rename,
    Delete,
}

/// What is to be done to names, once the objects of a command are stored: one command's edits of
/// them.
#[derive(Drop)]
pub enum Moves {
    /// Each of these names moves, and then that one is removed with its log and its record, all in
    /// one transaction.
    Change {
        done: Done,
        moved: Vec<MovedName>,
        taken: Option<Vec<u8>>,
    },
    /// HEAD is to name this branch.
    Switch(Vec<u8>),
    /// All names get records, and their own files go.
    Pack(Packing),
    /// Nothing: the command changes no file.
    Nothing,
}

/// Returns the fault for a failed change of files.
pub(crate) fn fault_of(error: FileError) -> Fault
    ensures { result ≡ file_fault error }
{
    match error {
        FileError::Failed => Fault::File,
        FileError::Memory => Fault::Memory,
    }
}

/// Returns the moves of one name, once its lock is looked up. The errors are those of `Names::test_lock`.
pub(crate) fn moves_of_one<F: Files>(
    repository: &Repository<F>,
    alloc: Global,
    one: MovedName,
) -> Result<Vec<MovedName>, FileError>
    ensures moved { IfOk result (λ moved. moved.items ≡ one ∷ []) }
    ensures failed { IsErrOf result Failed → F.reading_may_fail }
{
    repository.names.test_lock(alloc, &one.name)?;
    let mut moved = Vec::new(alloc);
    moved.push(one)?;
    Ok(moved)
}

/// Puts the objects of a command that changes files, and returns how its names are to move.
/// Otherwise returns the first cause that holds, and nothing has changed, or a fault. The callers,
/// which know what else they do, set whether the repository has failed.
pub(crate) fn store_objects<F: Files>(
    repository: &mut Repository<F>,
    alloc: Global,
    command: Command,
) -> Result<Moves, Stopped>
    ensures refused { IfErr result (λ stopped. IsRefusal stopped → repository.new ≡ repository.old) }
    ensures alone { StoresAlone F.Files (IsErrOf result (stopped.Fault File))
        repository.old repository.new }
    ensures reads { is_changing command ≡ false
        → (result ≡ Ok Moves.Nothing) × (repository.new ≡ repository.old) }
    ensures stores { (r : plain.Repository) (sent : commands.Command)
        → AskedChange F.is_honest F.history repository.old command r sent
        → StoresAsAsked F.Files r sent repository.old repository.new result }
{
    match command {
        Command::Commit(command) => store_commit(repository, alloc, command),
        Command::Tag(command) => store_tag(repository, alloc, command),
        Command::Move(command) => plan_together(repository, alloc, command),
        Command::Rename(command) => plan_renaming(repository, alloc, command),
        Command::Delete(command) => plan_deletion(repository, alloc, command),
        Command::Switch(name) => plan_switch(repository, name),
        Command::Pack => plan_pack(repository, alloc),
        _ => Ok(Moves::Nothing),
    }
}

/// Moves each of these names, once its log says so, and then removes that one, all in one
/// transaction. The objects stay as they are.
fn change_names<F: Files>(
    repository: &mut Repository<F>,
    alloc: Global,
    moved: &[MovedName],
    taken: Option<&[u8]>,
) -> Result<(), Fault>
    ensures alone { MovesAlone F.Files (IsErrOf result File) repository.old repository.new }
    ensures branch { repository.new.branch ≡ repository.old.branch }
    ensures edits { (r : plain.Repository) (sent : commands.Command)
        → AskedEdits F.is_honest F.history repository.old r sent moved.now taken.entry
        → EditsAsAsked F.Files r sent (edits_of moved.now) (gone_of taken.entry)
        repository.old repository.new result }
{
    match repository.names.change(alloc, moved, taken) {
        Ok(()) => Ok(()),
        Err(error) => Err(fault_of(error)),
    }
}

/// Moves names, once the objects of their command are stored. The callers set whether the
/// repository has failed.
pub(crate) fn move_names<F: Files>(
    repository: &mut Repository<F>,
    alloc: Global,
    moves: Moves,
) -> Result<(), Fault>
    ensures alone { MovesAlone F.Files (IsErrOf result File) repository.old repository.new }
    ensures nothing { moves ≡ Moves.Nothing → IsOk result × (repository.new ≡ repository.old) }
    ensures moves { (r : plain.Repository) (sent : commands.Command)
        → HasStored F.is_honest F.history repository.old r sent → AreMovesOf r sent moves
        → MovesAsAsked F.Files r sent repository.old repository.new result }
{
    match moves {
        Moves::Change { moved, taken, .. } => {
            change_names(repository, alloc, &moved, taken.as_deref())
        }
        Moves::Switch(branch) => switch_head(repository, alloc, branch),
        Moves::Pack(packing) => pack_names(repository, alloc, &packing),
        Moves::Nothing => Ok(()),
    }
}
