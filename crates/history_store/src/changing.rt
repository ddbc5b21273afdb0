//! A command's moves of names and deletion of one (`change`): one transaction, which is prepared and committed.
ghost use Rattle.std.specs.Prelude.{◌≡◌, List, Option, IsErrOf, map, option_map};
ghost use Rattle.gix_ref_file.specs.Calls.{Achieves, HasFault, Passes};
ghost use Rattle.gix_ref_file.specs.declared.files.FileError.TheVariants.{Failed};
ghost use Rattle.gix_ref_lock.specs.Committing.{IsCommitted, OnTheWay};
ghost use Rattle.gix_ref_lock.specs.Needs.{CanCommit, log_paths};
ghost use Rattle.gix_ref_way.specs.Ways.{FoldersOnlyOf};
ghost use Rattle.history_model.specs.Bytes.{Bytes};
ghost use Rattle.history_model.specs.Repository.{Repository};
ghost use Rattle.history_layout.specs.EditSteps as steps;
ghost use Rattle.history_store.specs.Calls.{ChangesNames, KeepsNames, Transacts};
ghost use Rattle.history_store.specs.Changing.{AsksChange, MayChange, moved_in};

use crate::edits::{committer_of, time_of};
use crate::faults::{of_committing, of_preparing};
use crate::names::Names;
use gix_object_lines::lines::ActorRef;
use gix_object_lookup::find::Never;
use gix_ref_edit::RefEdit;
use gix_ref_file::{FileError, Files};
use gix_ref_transaction::PackedRefs;
use gix_ref_transaction::transaction::{Transaction, prepare_with};
use history_texts::LogEntry;
use std::alloc::Global;

/// A name that moves, and the entry that its log gets, unless the entry's two ids are equal.
#[derive(Drop)]
pub struct MovedName {
    pub name: Vec<u8>,
    pub entry: LogEntry,
}

impl<F: Files> Names<F> {
    /// Moves each of these names to its entry's id after, and then removes that one with its log and its record, all in one
    /// transaction: each name's lock is made exclusively before anything changes. The log's line comes before the move.
    ///
    /// Returns `Failed` if a file call failed, or if a name isn't as its entry says or is locked, and `Memory` if memory ran out.
    /// After an error each name is as before or has moved, and nothing is removed before all have moved.
    pub fn change(
        &mut self,
        alloc: Global,
        moved: &[MovedName],
        taken: Option<&[u8]>,
    ) -> Result<(), FileError>
        ensures keeps { KeepsNames F.Files (IsErrOf result Failed) self.old self.new }
        ensures changes { (r : Repository) → let names = map moved_in moved.now in
            let gone = option_map (λ name. name.now) taken.entry in
            MayChange F.is_honest F.history self.old r names gone
            → ChangesNames F.Files r.kind names gone self.old self.new result }
    {
        self.make(alloc, moved, taken)?;
        match taken {
            Some(name) => self.reread(alloc, name),
            None => Ok(()),
        }
    }

    // Makes the moves and the deletion. The records that are kept stay as they were read.
    fn make(
        &mut self,
        alloc: Global,
        moved: &[MovedName],
        taken: Option<&[u8]>,
    ) -> Result<(), FileError>
        ensures keeps { KeepsNames F.Files (IsErrOf result Failed) self.old self.new }
        ensures packed { self.new.packed ≡ self.old.packed }
        ensures transacts { (r : Repository) → let names = map moved_in moved.now in
            let gone = option_map (λ name. name.now) taken.entry in
            MayChange F.is_honest F.history self.old r names gone
            → Transacts F.Files r.kind names gone self.old self.new result }
    {
        let edits = self.edits_of(alloc, moved, taken)?;
        let time = time_of(alloc, moved)?;
        self.transact(alloc, edits, committer_of(moved, &time))
    }

    // Prepares these edits, and commits them.
    fn transact(
        &mut self,
        alloc: Global,
        edits: Vec<RefEdit>,
        committer: Option<ActorRef<'_>>,
    ) -> Result<(), FileError>
        ensures keeps { KeepsNames F.Files (IsErrOf result Failed) self.old self.new }
        ensures packed { self.new.packed ≡ self.old.packed }
        ensures transacts { (r : Repository) (moved : List steps.MovedName) (gone : Option Bytes)
            → AsksChange F.is_honest F.history self.old r moved gone committer.entry edits.items
            → Transacts F.Files r.kind moved gone self.old self.new result }
    {
        let records = self.packed.as_ref();
        let mode = PackedRefs::<Never>::DeletionsOnly;
        match prepare_with(alloc, &mut self.store, records, edits, committer, mode) {
            Ok(made) => self.commit_made(alloc, made),
            Err(error) => Err(of_preparing(error)),
        }
    }

    // Commits what is prepared.
    pub(crate) fn commit_made(&mut self, alloc: Global, made: Transaction) -> Result<(), FileError>
        ensures keeps { KeepsNames F.Files (IsErrOf result Failed) self.old self.new }
        ensures packed { self.new.packed ≡ self.old.packed }
        ensures moments { Passes F.is_honest F.history self.old.store.files self.new.store.files
            (OnTheWay made.packed made.moves.items) }
        ensures folders { Passes F.is_honest F.history self.old.store.files self.new.store.files
            (FoldersOnlyOf (log_paths made.moves.items)) }
        ensures done { Achieves F.is_honest F.history self.old.store.files self.new.store.files
            result (IsCommitted made.packed made.moves.items) }
        ensures failed { F.is_honest self.old.store.files
            → CanCommit made.packed made.moves.items (F.history self.old.store.files).tree
            → IsErrOf result Failed
            → HasFault F.failures F.reading_may_fail self.old.store.files self.new.store.files }
    {
        match made.commit(alloc, &mut self.store.files) {
            Ok(_edits) => Ok(()),
            Err(error) => Err(of_committing(error)),
        }
    }
}
