//! Lookups of a reference by name (`find`, `try_find`); packed ones are opened, unless a name is never packed.

ghost use Rattle.std.specs.Prelude.{◌≡◌, ◌&&◌, not, is_some, IfErr};
ghost use Rattle.gix_ref_name.specs.Names.{part_of};
ghost use Rattle.gix_ref_format.specs.Lookup.{lookup_names, is_complete, packed_key};
ghost use Rattle.gix_ref_store.specs.Finds.{FindsOpened, MayTell, OnExisting, TellsState};
ghost use Rattle.gix_ref_store.specs.Lookups.{reads_with, FindsNames, FindsWord, FindsWith, FindsLoose, FindsOne, FindsOneWith, FindsOneLoose};
ghost use Rattle.gix_ref_store.specs.Searches.{Finds};
ghost use Rattle.gix_ref_store.specs.Stores.{base_of};
ghost use Rattle.gix_ref_store.specs.declared.store.file.find.Error.TheVariants.{Memory};

use crate::reference::Reference;
use crate::store::file::Store;
use crate::store::file::search::Search;
use gix_ref_file::Files;
use gix_ref_format::lookup::{is_complete, key_of};
use gix_ref_format::loose;
use gix_ref_format::packed::{Buffer, buffer};
use gix_ref_name::{FullName, PartialNameRef};
use std::alloc::{AllocError, Global};
use thiserror::Error;

/// Why a lookup fails.
#[derive(Debug, Clone, Copy, PartialEq, Eq, Error)]
pub enum Error {
    /// The file of a reference couldn't be read.
    #[error("the file of a reference couldn't be read")]
    ReadFileContents,
    /// The text of a reference's file names no target.
    #[error(transparent)]
    ReferenceCreation(loose::Error),
    /// The packed references couldn't be opened.
    #[error(transparent)]
    PackedOpen(buffer::Error),
    /// No memory is left.
    #[error("no memory is left")]
    Memory,
}

impl From<AllocError> for Error {
    ghost from_gives = { λ _ e. e ≡ Memory };

    fn from(_: AllocError) -> Self {
        Error::Memory
    }
}

/// Why no reference is found.
#[derive(Debug, Clone, Copy, PartialEq, Eq, Error)]
pub enum ExistingError {
    /// The lookup failed.
    #[error(transparent)]
    Find(Error),
    /// There is none.
    #[error("there is no reference of this name")]
    NotFound,
}

impl<F: Files> Store<F> {
    /// The reference that a name means; `None` if there is none. A name that begins `refs/`, one of
    /// another worktree and one of capital letters mean their own reference. Any other means the
    /// first that exists of those below `refs/`, `refs/tags/`, `refs/heads/` and `refs/remotes/`,
    /// and of its `HEAD` below the last. A file of a reference's own wins over its packed record.
    /// If the store knows names with their characters composed, this one is composed first.
    ///
    /// Returns `ReferenceCreation` if the file of the first of these names that doesn't read as
    /// absent names no target. Packed references are opened unless a file is at the first name;
    /// `PackedOpen` is returned if they can't be. Returns `ReadFileContents` if a reading of a
    /// name's file failed. Nothing changes.
    pub fn try_find(
        &self,
        alloc: Global,
        name: PartialNameRef<'_>,
    ) -> Result<Option<Reference>, Error>
        ensures found { F.is_honest self.now.files
            → FindsWord self.now (F.history self.now.files).tree (part_of name.entry) result }
        ensures failed { IfErr result (MayTell F.reading_may_fail) }
    {
        let word = self.known(alloc, name.to_partial_path())?;
        self.find_word(alloc, word.as_bytes())
    }

    // The reference that a word means, as the store knows words.
    fn find_word(&self, alloc: Global, word: &[u8]) -> Result<Option<Reference>, Error>
        ensures found { F.is_honest self.now.files
            → FindsNames (base_of self.now) (F.history self.now.files).tree
            (lookup_names word.now) result }
        ensures failed { IfErr result (MayTell F.reading_may_fail) }
    {
        let loose = Search {
            alloc,
            store: self,
            packed: None,
        };
        match loose.first(word)? {
            Some(found) => Ok(Some(found)),
            None if is_unpacked(word) => Ok(None),
            None => self.find_opened(alloc, word),
        }
    }

    // The reference that a word means, by the packed references as they are now.
    fn find_opened(&self, alloc: Global, word: &[u8]) -> Result<Option<Reference>, Error>
        ensures found { F.is_honest self.now.files
            → FindsOpened (base_of self.now) (F.history self.now.files).tree
            (lookup_names word.now) result }
        ensures failed { IfErr result (MayTell F.reading_may_fail) }
    {
        match self.open_packed_buffer(alloc) {
            Ok(Some(packed)) => self.find_among(alloc, word, Some(&packed)),
            Ok(None) => self.find_among(alloc, word, None),
            Err(error) => Err(Error::PackedOpen(error)),
        }
    }

    // The reference that a word means, with these packed references.
    fn find_among(
        &self,
        alloc: Global,
        word: &[u8],
        packed: Option<&Buffer>,
    ) -> Result<Option<Reference>, Error>
        ensures found { F.is_honest self.now.files
            → Finds (reads_with self.now (F.history self.now.files).tree packed.entry)
            (lookup_names word.now) result }
        ensures failed { IfErr result (MayTell F.reading_may_fail) }
    {
        let search = Search {
            alloc,
            store: self,
            packed,
        };
        search.named(word)
    }

    /// The reference that a name means, as `try_find` returns it, with these packed references;
    /// with `None`, only those with files of their own are found. Fails as that does.
    pub fn try_find_packed(
        &self,
        alloc: Global,
        name: PartialNameRef<'_>,
        packed: Option<&Buffer>,
    ) -> Result<Option<Reference>, Error>
        ensures found { F.is_honest self.now.files
            → FindsWith self.now (F.history self.now.files).tree packed.entry
            (part_of name.entry) result }
        ensures failed { IfErr result (MayTell F.reading_may_fail) }
    {
        let word = self.known(alloc, name.to_partial_path())?;
        self.find_among(alloc, word.as_bytes(), packed)
    }

    /// The reference of just this full name, with these packed references: no rule completes the
    /// name. Returns `ReferenceCreation` if its file names no target, and `ReadFileContents` if a
    /// reading failed.
    pub fn try_read(
        &self,
        alloc: Global,
        name: FullName,
        packed: Option<&Buffer>,
    ) -> Result<Option<Reference>, Error>
        ensures told { F.is_honest self.now.files
            → TellsState name (reads_with self.now (F.history self.now.files).tree packed.entry name)
            result }
        ensures failed { IfErr result (MayTell F.reading_may_fail) }
    {
        let search = Search {
            alloc,
            store: self,
            packed,
        };
        search.of_full_name(name)
    }

    /// The reference with a file of its own that a name means, as `try_find_packed` returns it
    /// without packed references. Fails as that does.
    pub fn try_find_loose(
        &self,
        alloc: Global,
        name: PartialNameRef<'_>,
    ) -> Result<Option<loose::Reference>, Error>
        ensures found { F.is_honest self.now.files
            → FindsLoose self.now (F.history self.now.files).tree (part_of name.entry) result }
        ensures failed { IfErr result (MayTell F.reading_may_fail) }
    {
        match self.try_find_packed(alloc, name, None)? {
            Some(Reference { name, target, .. }) => Ok(Some(loose::Reference { name, target })),
            None => Ok(None),
        }
    }

    /// The reference that a name means, as `try_find` returns it; `NotFound` if there is none.
    pub fn find(&self, alloc: Global, name: PartialNameRef<'_>) -> Result<Reference, ExistingError>
        ensures found { F.is_honest self.now.files
            → FindsOne self.now (F.history self.now.files).tree (part_of name.entry) result }
        ensures failed { IfErr result (OnExisting (Unit {0}) (MayTell F.reading_may_fail)) }
    {
        match self.try_find(alloc, name) {
            Ok(found) => found.ok_or(ExistingError::NotFound),
            Err(error) => Err(ExistingError::Find(error)),
        }
    }

    /// The reference that a name means, as `try_find_packed` returns it; `NotFound` if there is
    /// none.
    pub fn find_packed(
        &self,
        alloc: Global,
        name: PartialNameRef<'_>,
        packed: Option<&Buffer>,
    ) -> Result<Reference, ExistingError>
        ensures found { F.is_honest self.now.files
            → FindsOneWith self.now (F.history self.now.files).tree packed.entry
            (part_of name.entry) result }
        ensures failed { IfErr result (OnExisting (Unit {0}) (MayTell F.reading_may_fail)) }
    {
        match self.try_find_packed(alloc, name, packed) {
            Ok(found) => found.ok_or(ExistingError::NotFound),
            Err(error) => Err(ExistingError::Find(error)),
        }
    }

    /// The reference with a file of its own that a name means, as `try_find_loose` returns it;
    /// `NotFound` if there is none.
    pub fn find_loose(
        &self,
        alloc: Global,
        name: PartialNameRef<'_>,
    ) -> Result<loose::Reference, ExistingError>
        ensures found { F.is_honest self.now.files
            → FindsOneLoose self.now (F.history self.now.files).tree (part_of name.entry) result }
        ensures failed { IfErr result (OnExisting (Unit {0}) (MayTell F.reading_may_fail)) }
    {
        match self.try_find_loose(alloc, name) {
            Ok(found) => found.ok_or(ExistingError::NotFound),
            Err(error) => Err(ExistingError::Find(error)),
        }
    }
}

// Returns whether the name is a full one of which each worktree has its own, so that it has no
// record.
fn is_unpacked(word: &[u8]) -> bool
    ensures { result ≡ (is_complete word.now && not (is_some (packed_key word.now))) }
{
    is_complete(word) && key_of(word).is_none()
}
