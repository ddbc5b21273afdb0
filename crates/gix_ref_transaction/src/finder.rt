//! The lookup of a name's target in the store (`FindTarget`), for the splitting of edits.

ghost use Rattle.gix_ref_transaction.specs.Found.{points_at};
ghost use Rattle.gix_ref_store.specs.Lookups.{reads_with};

use gix_ref_edit::{FindTarget, FindTargetError};
use gix_ref_file::Files;
use gix_ref_format::packed::Buffer;
use gix_ref_name::{FullNameRef, Target};
use gix_ref_store::store::file::{Store, find};
use std::alloc::Global;

// A store, and the packed references with which its names are looked up.
#[derive(Drop)]
pub(crate) struct Names<'s, 'p, F: Files> {
    pub(crate) store: &'s Store<F>,
    pub(crate) packed: Option<&'p Buffer>,
}

impl<F: Files> FindTarget for Names<'_, '_, F> {
    ghost targets = { λ names name. points_at (reads_with names.store.now
        (F.history names.store.now.files).tree names.packed name) };

    ghost is_honest = { λ names. F.is_honest names.store.now.files };

    ghost may_fail = { λ _. F.reading_may_fail };

    fn find_target(
        &self,
        alloc: Global,
        name: FullNameRef<'_>,
    ) -> Result<Option<Target>, FindTargetError> {
        let name = name.to_owned(alloc)?;
        match self.store.try_read(alloc, name, self.packed) {
            Ok(Some(found)) => Ok(Some(found.target)),
            Ok(None) => Ok(None),
            Err(find::Error::ReferenceCreation(_)) => Ok(None),
            Err(find::Error::PackedOpen(_)) => Ok(None),
            Err(find::Error::ReadFileContents) => Err(FindTargetError::Failed),
            Err(find::Error::Memory) => Err(FindTargetError::Memory),
        }
    }
}
