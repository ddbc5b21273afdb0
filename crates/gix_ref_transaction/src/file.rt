//! Transactions that a store begins: it is lent to them until they are committed or rolled back.

ghost use Rattle.std.specs.Prelude.{◌≡◌, IfErr, IfOk};
ghost use Rattle.std.specs.Borrow.{sem};
ghost use Rattle.gix_ref_transaction.specs.Modes.{objects_in};
ghost use Rattle.gix_ref_transaction.specs.Parts.{parts};
ghost use Rattle.gix_ref_transaction.specs.Preparing.{KeepsReferences, LeavesUnprepared, PrepareCause, Prepares, asked_of};

use crate::error::PrepareError;
use crate::repacking::PackedRefs;
use crate::transaction::{Transaction as Prepared, prepare};
use gix_object_lines::lines::ActorRef;
use gix_object_lookup::FindInto;
use gix_ref_edit::RefEdit;
use gix_ref_file::Files;
use gix_ref_lock::CommitError;
use gix_ref_store::store::file::Store;
use std::alloc::Global;

/// A transaction of a store. `S` is [`Begun`] until it is prepared, and then what is prepared, which
/// must be committed or rolled back.
pub struct Transaction<'s, F, S> {
    pub(crate) store: &'s mut Store<F>,
    pub(crate) state: S,
}

/// Nothing is prepared yet.
#[derive(Drop)]
pub struct Begun;

/// A store that begins transactions.
pub trait Transact<F> {
    /// Begins a transaction.
    fn transaction(&mut self) -> Transaction<'_, F, Begun>;
}

impl<F: Files> Transact<F> for Store<F> {
    fn transaction(&mut self) -> Transaction<'_, F, Begun>
        ensures same_reference { result.store.ghost_name ≡ self.entry.ghost_name }
        ensures store { result.store.now ≡ self.old }
    {
        let state = Begun;
        Transaction { store: self, state }
    }
}

impl<'s, F: Files> Transaction<'s, F, Begun> {
    ghost use Rattle.gix_ref_transaction.specs.Begun.{LendsOrLeaves};

    /// Prepares edits as [`prepare`] does, with its errors. After one the store is no longer lent.
    pub fn prepare<O: FindInto>(
        self,
        alloc: Global,
        edits: Vec<RefEdit>,
        committer: Option<ActorRef<'_>>,
        packed_refs: PackedRefs<'_, O>,
    ) -> Result<Transaction<'s, F, Prepared>, PrepareError>
        ensures* left { sem 𝓛 (LendsOrLeaves F.row self.entry.store result (λ left.
            let a = asked_of F.history self.entry.store.now committer.entry edits.items in
            KeepsReferences F.Files a self.entry.store.now left
            × IfErr result (LeavesUnprepared F.Files O.Lookup (objects_in packed_refs.entry)
            PrepareCause a self.entry.store.now left))) }
        ensures same_reference { IfOk result (λ t.
            t.store.ghost_name ≡ self.entry.store.ghost_name) }
        ensures keeps { let a = asked_of F.history self.entry.store.now committer.entry edits.items in
            IfOk result (λ t. KeepsReferences F.Files a self.entry.store.now t.store.now) }
        ensures prepared { IfOk result (λ t. Prepares F.Files O.Lookup packed_refs.entry
            (asked_of F.history self.entry.store.now committer.entry edits.items)
            self.entry.store.now t.store.now (parts t.state)) }
    {
        let Transaction { store, state: _ } = self;
        match prepare(alloc, store, edits, committer, packed_refs) {
            Ok(prepared) => Ok(Transaction {
                store,
                state: prepared,
            }),
            Err(error) => Err(error),
        }
    }
}

impl<'s, F: Files> Transaction<'s, F, Prepared> {
    ghost use Rattle.gix_ref_transaction.specs.Begun.{Commits, RollsBack};

    /// Makes the edits, and returns them, as the prepared transaction's `commit` does. Fails as
    /// that does.
    pub fn commit(self, alloc: Global) -> Result<Vec<RefEdit>, CommitError>
        ensures commits { Commits F.Files
            self.entry.state self.entry.store.now.files self.exit.0.now.files result }
        ensures store { self.exit.0.now ≡ record self.entry.store.now {
          files = self.exit.0.now.files;
        } }
    {
        let Transaction { store, state } = self;
        state.commit(alloc, &mut store.files)
    }

    /// Gives all locks back, and returns the edits, as the prepared transaction's `rollback` does.
    /// Fails as that does.
    pub fn rollback(self, alloc: Global) -> Result<Vec<RefEdit>, CommitError>
        ensures rolls_back { RollsBack F.Files
            self.entry.state self.entry.store.now.files self.exit.0.now.files result }
        ensures store { self.exit.0.now ≡ record self.entry.store.now {
          files = self.exit.0.now.files;
        } }
    {
        let Transaction { store, state } = self;
        state.rollback(alloc, &mut store.files)
    }
}
