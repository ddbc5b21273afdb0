//! Whether a store is as a new one: HEAD points to a given name, nothing is packed, no other file has a target.

ghost use Rattle.std.specs.Prelude.{◌≡◌, ◌⊎◌, ◌↔◌, None, is_some, IsTrue, IfErr, IfOk, IfNone, IfSome, IsSome, MatchOption};
ghost use Rattle.gix_ref_name.specs.Names.{name_of};
ghost use Rattle.gix_ref_name.specs.Targets.{ToName, target_view};
ghost use Rattle.gix_ref_store.specs.Listings.{all_names};
ghost use Rattle.gix_ref_store.specs.Lookups.{reads_with};
ghost use Rattle.gix_ref_store.specs.Pristine.{IsPristine, MayStopAt, PointsNowhere, SomeStands, head_in};
ghost use Rattle.gix_ref_store.specs.RefStates.{Stands, packed_text_in};
ghost use Rattle.gix_ref_store.specs.Stores.{base_of};

use crate::store::file::iter::Error;
use crate::store::file::{Store, find};
use gix_ref_file::{Files, Place};
use gix_ref_name::{FullNameRef, Target};
use std::alloc::Global;

impl<F: Files> Store<F> {
    /// Returns whether the store is as a new one: `HEAD` points to this name, there are no packed
    /// references, and no name below `refs/` has a file with a target. Returns `None` only if
    /// `HEAD` has no such file, or it couldn't be read. The errors are those of `loose_iter` and of
    /// its items. Nothing changes.
    pub fn is_pristine(
        &self,
        alloc: Global,
        default_ref: FullNameRef<'_>,
    ) -> Result<Option<bool>, Error>
        ensures told { F.is_honest self.now.files → let tree = (F.history self.now.files).tree in
            IfOk result (λ told. IfSome told (λ pristine.
            IsTrue pristine ↔ IsPristine self.now tree (name_of default_ref.entry))) }
        ensures headless { F.is_honest self.now.files
            → let tree = (F.history self.now.files).tree in IfOk result (λ told. IfNone told
            (PointsNowhere (head_in (base_of self.now) tree) ⊎ F.reading_may_fail)) }
        ensures headed { F.is_honest self.now.files
            → let tree = (F.history self.now.files).tree in IfOk result (λ told. IsSome told
            → ¬ PointsNowhere (head_in (base_of self.now) tree)) }
        ensures failed { IfErr result (MayStopAt F.reading_may_fail) }
    {
        let Some(head) = self.head_target(alloc)? else {
            return Ok(None);
        };
        if !points_to(&head, default_ref) {
            return Ok(Some(false));
        }
        if self.has_packed(alloc)? {
            return Ok(Some(false));
        }
        let used = self.has_loose(alloc)?;
        Ok(Some(!used))
    }

    // The target in the file of `HEAD`; `None` if it has none, or couldn't be read.
    fn head_target(&self, alloc: Global) -> Result<Option<Target>, Error>
        ensures told { F.is_honest self.now.files
            → let head = head_in (base_of self.now) (F.history self.now.files).tree in
            IfOk result (λ found. MatchOption found (PointsNowhere head ⊎ F.reading_may_fail)
            (λ target. head ≡ Stands (target_view target) None)) }
        ensures failed { IfErr result (MayStopAt F.reading_may_fail) }
    {
        match self.target_in_file(alloc, b"HEAD") {
            Ok(found) => Ok(found),
            Err(find::Error::Memory) => Err(Error::Memory),
            Err(find::Error::ReferenceCreation(_)) => Ok(None),
            Err(find::Error::ReadFileContents) => Ok(None),
            Err(find::Error::PackedOpen(_)) => Ok(None),
        }
    }

    // Returns whether there is a file of packed references.
    fn has_packed(&self, alloc: Global) -> Result<bool, Error>
        ensures told { F.is_honest self.now.files → let tree = (F.history self.now.files).tree in
            IfOk result (λ found. found ≡ is_some (packed_text_in (base_of self.now) tree)) }
        ensures failed { IfErr result (MayStopAt F.reading_may_fail) }
    {
        let path = self.packed_refs_path(alloc)?;
        match self.files.kind_of(&path)? {
            Place::File(_) => Ok(true),
            Place::Absent | Place::Folder => Ok(false),
        }
    }

    // Returns whether a name below `refs/` has a file with a target.
    fn has_loose(&self, alloc: Global) -> Result<bool, Error>
        ensures told { F.is_honest self.now.files → let tree = (F.history self.now.files).tree in
            IfOk result (λ found. IsTrue found
            ↔ SomeStands (reads_with self.now tree None) (all_names self.now)) }
        ensures failed { IfErr result (MayStopAt F.reading_may_fail) }
    {
        let mut references = self.loose_iter(alloc)?;
        while let Some(item) = references.next() {
            match item {
                Ok(_) => return Ok(true),
                Err(Error::ReferenceCreation { .. }) => {}
                Err(error) => return Err(error),
            }
        }
        Ok(false)
    }
}

// Returns whether the target is this name.
fn points_to(target: &Target, name: FullNameRef<'_>) -> bool
    ensures { IsTrue result ↔ (target_view target.now ≡ ToName (name_of name.entry)) }
{
    match target {
        Target::Object(_) => false,
        Target::Symbolic(found) => found.to_path() == name.to_path(),
    }
}
