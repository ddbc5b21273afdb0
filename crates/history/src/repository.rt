//! The public `Repository`, whose fields no caller writes: opening, its parts, both halves of a change, failure.

ghost use Rattle.std.specs.Prelude.{◌≡◌, ◌||◌, false, None, Ok, IsOk, IfOk, IfErr, is_err, option_map, IsErrOf};
ghost use Rattle.history_model.specs.Repository.{fresh};
ghost use Rattle.history_model.specs.StandsFor.{StandsWhole};
ghost use Rattle.history_model.specs.declared.Fault.TheVariants.{File};
ghost use Rattle.history_store.specs.ObjectsFace.{kind_of_objects};
ghost use Rattle.history_store.specs.NamesFace.{kind_of_names};
ghost use Rattle.history_store.specs.Creation.{IsNew};
ghost use Rattle.history_repository.specs.Causes.{IsOpenCause, IsOpenFault};
ghost use Rattle.history_repository.specs.Opened.{trees_of};
ghost use Rattle.history_repository.specs.Face.{has_failed, names_part, objects_part, rows_in};
ghost use Rattle.history_repository.specs.Faults.{IsRefusal};
ghost use Rattle.history_repository.specs.Stands.{Stands};
ghost use Rattle.history.specs.Calls.{KeepsHonesty, MovesAsAsked, StoresAsAsked};
ghost use Rattle.history.specs.Storing.{AreMovesOf, AskedChange, HasStored, is_fault_of};
ghost use Rattle.history_word.specs.Commands.{is_changing};
ghost use Rattle.history_model.specs.Commands as commands;
ghost use Rattle.history_model.specs.Repository as plain;
ghost use Rattle.history_repository.specs.declared.stopped.Stopped.TheVariants as stopped;

use crate::moves::{Moves, move_names, store_objects};
use gix_hash::Kind;
use gix_ref_file::Files;
use gix_traverse_graph::Graph;
use history_model::Fault;
use history_repository::{OpenRefusal, Repository as State, Stopped};
use history_word::Command;
use std::alloc::Global;
use std::marker::Model;

/// A repository over two file trees: one holds the objects, the other HEAD, the names and their
/// logs.
///
/// Its fields are private, so that what it keeps in memory stays that of its files, and one that
/// has failed stays so: a later `run` reads and writes nothing, and its parts are to be recovered
/// and opened again.
#[derive(Drop)]
pub struct Repository<F: Files> {
    pub(crate) state: State<F>,
}

impl<F: Files> Model for Repository<F> {
    ghost use Rattle.history_repository.specs.declared.repository.Repository.{Repository as State};

    ghost Value = { State F };

    ghost view = { λ repository. repository.state };
}

impl<F: Files> Repository<F> {
    /// Opens a folder whose two parts are those of one repository with ids of this kind: whole, in
    /// written form and within the limits, with no other file or folder. `create` and `run` leave
    /// such parts, and, if a call stopped or failed, `recover` after it. No file is changed.
    ///
    /// Otherwise the refusal names a cause that holds of the parts, and returns both of them. The
    /// objects are surveyed before the names. The cause is `File` if a call of the files failed,
    /// and `Memory` if memory ran out.
    pub fn open(
        alloc: Global,
        objects: F,
        names: F,
        kind: Kind,
    ) -> Result<Repository<F>, OpenRefusal<F>>
        ensures ok { IfOk result (λ opened. (objects_part opened ≡ objects)
            × (names_part opened ≡ names) × (has_failed opened ≡ false)
            × (rows_in opened ≡ None)) }
        // What is opened represents a repository of this kind, whole and in its written form.
        ensures stands { F.is_honest objects → F.is_honest names
            → IfOk result (λ opened. (r : plain.Repository) × (r.kind ≡ kind)
            × Stands F.is_honest F.history opened r) }
        // If the two parts represent a repository, it is that one.
        ensures same { (r : plain.Repository) → F.is_honest objects → F.is_honest names
            → StandsWhole kind (trees_of F.history objects names) r
            → IfOk result (λ opened. Stands F.is_honest F.history opened r) }
        // For a new folder it is the one without names and objects, on `refs/heads/main`.
        ensures fresh { F.is_honest objects → F.is_honest names
            → IsNew (F.history objects).tree (F.history names).tree
            → IfOk result (λ opened. Stands F.is_honest F.history opened (fresh kind)) }
        ensures refused { F.is_honest objects → F.is_honest names → IfErr result (λ refusal.
            IsOpenCause F.reading_may_fail kind (trees_of F.history objects names)
            refusal.error) }
        // A repository's parts are refused only for a fault.
        ensures accepted { (r : plain.Repository) → F.is_honest objects → F.is_honest names
            → StandsWhole kind (trees_of F.history objects names) r
            → IfErr result (λ refusal. IsOpenFault refusal.error) }
        ensures handed_back { IfErr result (λ refusal. (refusal.objects ≡ objects)
            × (refusal.names ≡ names)) }
    {
        match State::open(alloc, objects, names, kind) {
            Ok(state) => Ok(Repository { state }),
            Err(refusal) => Err(refusal),
        }
    }

    /// Returns the objects part and the names part, as they are.
    pub fn into_parts(self) -> (F, F)
        ensures objects { result.0 ≡ objects_part self }
        ensures names { result.1 ≡ names_part self }
    {
        self.state.into_parts()
    }

    /// Returns the rows of the commits that the last `ok index` counted; none before the first. It
    /// takes no memory.
    pub fn rows(&self) -> Option<&Graph>
        ensures { option_map (λ rows. rows.now) result ≡ rows_in self.now }
    {
        self.state.rows()
    }

    /// Returns whether a command that changes files had a fault. The files are then as a stop may
    /// leave them, and `run` acts on no further command: the parts are to be recovered and opened
    /// again.
    pub fn has_failed(&self) -> bool
        ensures { result ≡ has_failed self.now }
    {
        self.state.has_failed()
    }

    /// Puts the objects of a command that changes files, and returns how its names are to move.
    /// Otherwise returns the first cause that holds, and nothing has changed, or a fault. The names
    /// stay as they are. For a command that changes no file it stores nothing.
    ///
    /// Call this for a repository that hasn't failed. After a fault it has failed, and some of the
    /// objects may be stored: the folder is to be opened again. A failed change of the files that
    /// was counted is reported as the fault `File`, never as `Memory`.
    pub fn store_objects(&mut self, alloc: Global, command: Command) -> Result<Moves, Stopped>
        ensures refused { IfErr result (λ stopped. IsRefusal stopped → self.new ≡ self.old) }
        ensures failed { has_failed self.new ≡ (has_failed self.old || is_fault_of result) }
        ensures kept { (self.new.names ≡ self.old.names) × (self.new.branch ≡ self.old.branch)
            × (rows_in self.new ≡ rows_in self.old) }
        ensures keeps { (kind_of_objects self.new.objects ≡ kind_of_objects self.old.objects)
            × KeepsHonesty F.Files (IsErrOf result (stopped.Fault File))
            (objects_part self.old) (objects_part self.new) }
        ensures reads { is_changing command ≡ false
            → (result ≡ Ok Moves.Nothing) × (self.new ≡ self.old) }
        ensures stores { (r : plain.Repository) (sent : commands.Command)
            → AskedChange F.is_honest F.history self.old command r sent
            → StoresAsAsked F.Files r sent self.old self.new result }
    {
        match store_objects(&mut self.state, alloc, command) {
            Ok(moves) => Ok(moves),
            Err(Stopped::Refused(cause)) => Err(Stopped::Refused(cause)),
            Err(Stopped::Fault(fault)) => {
                self.state.has_failed = true;
                Err(Stopped::Fault(fault))
            }
        }
    }

    /// Moves names, once the objects of their command are stored. The objects stay as they are.
    ///
    /// Call this for a repository that hasn't failed, with moves that `store_objects` returned for
    /// it: then each id that a name moves to is stored, no name occurs twice or collides, and each
    /// holds what is expected of it. After a fault the repository has failed, and some of the names
    /// may have moved: the folder is to be recovered and opened again. A failed change of the files
    /// that was counted is reported as the fault `File`, never as `Memory`.
    pub fn move_names(&mut self, alloc: Global, moves: Moves) -> Result<(), Fault>
        ensures failed { has_failed self.new ≡ (has_failed self.old || is_err result) }
        ensures kept { (self.new.objects ≡ self.old.objects)
            × (rows_in self.new ≡ rows_in self.old) }
        ensures keeps { (kind_of_names self.new.names ≡ kind_of_names self.old.names)
            × KeepsHonesty F.Files (IsErrOf result File)
            (names_part self.old) (names_part self.new) }
        ensures nothing { moves ≡ Moves.Nothing → IsOk result × (self.new ≡ self.old) }
        ensures moves { (r : plain.Repository) (sent : commands.Command)
            → HasStored F.is_honest F.history self.old r sent → AreMovesOf r sent moves
            → MovesAsAsked F.Files r sent self.old self.new result }
    {
        match move_names(&mut self.state, alloc, moves) {
            Ok(()) => Ok(()),
            Err(fault) => {
                self.state.has_failed = true;
                Err(fault)
            }
        }
    }
}
