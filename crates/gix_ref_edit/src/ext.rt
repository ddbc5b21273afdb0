//! Lists of edits, made ready for a transaction: `RefEditsExt`, which calls the split and the test for names.

ghost use Rattle.std.specs.Prelude.{◌≡◌, List, IfOk, OnOk, OnErr, IfErr};
ghost use Rattle.gix_ref_edit.specs.Names as names;
ghost use Rattle.gix_ref_edit.specs.Splits as splits;
ghost use Rattle.gix_ref_edit.specs.Ready as ready;
ghost use Rattle.gix_ref_edit.specs.declared.change.RefEdit.{RefEdit};
ghost use Rattle.gix_ref_edit.specs.declared.ext.PreProcessError.TheVariants as fault;

use crate::change::RefEdit;
use crate::names::{TwiceError, assure_once};
use crate::splits::{FindTarget, MAX_ROUNDS, SplitError, further, marked_places, settle_all};
use std::alloc::Global;
use thiserror::Error;

/// Why edits aren't made ready for a transaction.
#[derive(Debug, Drop, PartialEq, Eq, Error)]
pub enum PreProcessError {
    /// Those of symbolic references aren't split.
    #[error(transparent)]
    Split(SplitError),
    /// A name has several.
    #[error(transparent)]
    Twice(TwiceError),
}

impl From<SplitError> for PreProcessError {
    ghost from_gives = { λ error e. e ≡ fault.Split error };

    fn from(error: SplitError) -> Self {
        PreProcessError::Split(error)
    }
}

impl From<TwiceError> for PreProcessError {
    ghost from_gives = { λ error e. e ≡ fault.Twice error };

    fn from(error: TwiceError) -> Self {
        PreProcessError::Twice(error)
    }
}

/// A list of edits.
pub trait RefEditsExt {
    /// The edits.
    ghost edits: { Self → List RefEdit };

    /// Tests that each name has one edit. The error has the least name, by its bytes, that has
    /// several, or says that no memory is left. It compares about as often as a sort does.
    fn assure_one_name_has_one_edit(&self, alloc: Global) -> Result<(), TwiceError>
        ensures once { OnOk result (names.AllOnce (names.names_of (edits self.now))) }
        ensures twice { IfErr result (names.TwiceFault (names.names_of (edits self.now))) };

    /// Splits the edits that say `deref` and whose names are symbolic: what is left of each
    /// concerns the log alone, and after all edits comes the same edit of the reference that it
    /// leads to, which is split in turn. The log's part of an update expects nothing any more. In
    /// the end no edit says `deref`. The result has the places of those that were split: the first
    /// that was added is of the first of them, and so on.
    ///
    /// Returns `Cycle` if the fourth reference after a name is symbolic too, `Find` if what a name
    /// points to can't be read, and `Memory` if no memory is left. After an error all edits are as
    /// before.
    fn extend_with_splits_of_symbolic_refs<F: FindTarget>(
        &mut self,
        alloc: Global,
        finder: &F,
    ) -> Result<Vec<usize>, SplitError>
        ensures splits { F.is_honest finder.now → IfOk result (λ places. splits.Splits
            (F.targets finder.now) (edits self.old) (edits self.new) places.items) }
        ensures unchanged { OnErr result (edits self.new ≡ edits self.old) }
        ensures failed { IfErr result (splits.SplitFault (F.is_honest finder.now)
            (F.may_fail finder.now) (F.targets finder.now) 4 (edits self.old)) };

    /// Splits the edits of symbolic references, and then tests that each name has one edit. If one
    /// has several, the edits stay split. The result and the errors of the splits are those of
    /// `extend_with_splits_of_symbolic_refs`.
    fn pre_process<F: FindTarget>(
        &mut self,
        alloc: Global,
        finder: &F,
    ) -> Result<Vec<usize>, PreProcessError>
        ensures splits { F.is_honest finder.now → IfOk result (λ places. splits.Splits
            (F.targets finder.now) (edits self.old) (edits self.new) places.items) }
        ensures once { OnOk result (names.AllOnce (names.names_of (edits self.new))) }
        ensures failed { IfErr result (ready.PreFault (F.is_honest finder.now)
            (F.may_fail finder.now) (F.targets finder.now) (edits self.old) (edits self.new)) };
}

impl RefEditsExt for Vec<RefEdit> {
    ghost edits = { λ list. list.items };

    fn assure_one_name_has_one_edit(&self, alloc: Global) -> Result<(), TwiceError> {
        assure_once(alloc, self.as_slice())
    }

    fn extend_with_splits_of_symbolic_refs<F: FindTarget>(
        &mut self,
        alloc: Global,
        finder: &F,
    ) -> Result<Vec<usize>, SplitError> {
        let mut marks = Vec::new(alloc);
        let mut added = further(alloc, finder, self.as_slice(), MAX_ROUNDS, &mut marks)?;
        let places = marked_places(alloc, marks.as_slice())?;
        self.append(&mut added)?;
        settle_all(self, marks.as_slice());
        Ok(places)
    }

    fn pre_process<F: FindTarget>(
        &mut self,
        alloc: Global,
        finder: &F,
    ) -> Result<Vec<usize>, PreProcessError> {
        let places = self.extend_with_splits_of_symbolic_refs(alloc, finder)?;
        self.assure_one_name_has_one_edit(alloc)?;
        Ok(places)
    }
}
