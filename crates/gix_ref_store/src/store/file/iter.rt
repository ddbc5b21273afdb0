//! The iterator of a listing (`LooseThenPacked`): each name's reference, or why it has none.

ghost use Rattle.std.specs.Prelude.{◌≡◌, length};
ghost use Rattle.std.specs.Iterator.{at_most};
ghost use Rattle.gix_ref_store.specs.declared.store.file.iter.Error.TheVariants.{Memory};

use crate::reference::Reference;
use crate::store::file::find;
use crate::store::file::own::OwnFile;
use crate::store::file::search::Search;
use gix_ref_file::{FileError, Files};
use gix_ref_format::loose;
use gix_ref_name::FullName;
use std::alloc::{AllocError, AllocFailed, Global};
use std::collections::btree_map;
use thiserror::Error;

/// Why a listing gives no reference.
#[derive(Debug, Drop, PartialEq, Eq, Error)]
pub enum Error {
    /// A folder of references couldn't be listed.
    #[error("a folder of references couldn't be listed")]
    Traversal,
    /// The file of a reference couldn't be read.
    #[error("the file of the reference {name} couldn't be read")]
    ReadFileContents {
        /// The reference's name.
        name: FullName,
    },
    /// The text of a reference's file names no target.
    #[error("the file of the reference {name} names no target")]
    ReferenceCreation {
        /// The reference's name.
        name: FullName,
        /// Why it names none.
        reason: loose::Error,
    },
    /// No memory is left.
    #[error("no memory is left")]
    Memory,
}

impl From<AllocError> for Error {
    ghost from_gives = { λ _ e. e ≡ Memory };

    fn from(_: AllocError) -> Self {
        Error::Memory
    }
}

impl<T: Drop> From<AllocFailed<T>> for Error {
    ghost from_gives = { λ _ e. e ≡ Memory };

    fn from(_: AllocFailed<T>) -> Self {
        Error::Memory
    }
}

impl From<FileError> for Error {
    ghost use Rattle.gix_ref_store.specs.Walks.{stop_of};

    ghost from_gives = { λ e told. told ≡ stop_of e };

    fn from(error: FileError) -> Self {
        match error {
            FileError::Failed => Error::Traversal,
            FileError::Memory => Error::Memory,
        }
    }
}

/// References ascending by name, each once, whether it has a file of its own or a packed record. The
/// files were read when the listing was made.
#[derive(Drop)]
pub struct LooseThenPacked<'s, 'p, F: Files> {
    pub(crate) search: Search<'s, 'p, F>,
    pub(crate) names: btree_map::IntoIter<FullName, OwnFile>,
}

impl<F: Files> LooseThenPacked<'_, '_, F> {
    ghost use Rattle.gix_ref_format.specs.Lookup.{packed_hit};
    ghost use Rattle.gix_ref_store.specs.Finds.{records_in};
    ghost use Rattle.gix_ref_store.specs.Items.{TellsName, ItemMayTell};
    ghost use Rattle.gix_ref_store.specs.OwnFiles.{state_by};
    ghost use Rattle.gix_ref_store.specs.RefStates.{RefState, packed_state};
    ghost use Rattle.gix_ref_store.specs.Searches.{reads_in};

    // The result for a name, by what is known of its own file; `None` if there is no reference of
    // this name.
    fn item(&self, name: FullName, own: OwnFile) -> Option<Result<Reference, Error>>
        ensures told { F.is_honest self.now.search.store.now.files
            → let tree = (F.history self.now.search.store.now.files).tree in
            let read = reads_in tree self.now.search name in
            let packed = packed_state (packed_hit (records_in self.now.search.packed) name) in
            TellsName name read (state_by own read packed) result }
        ensures failed { ItemMayTell F.reading_may_fail result }
    {
        match own {
            OwnFile::Holds(target) => Some(Ok(Reference {
                name,
                target,
                peeled: None,
            })),
            OwnFile::Faulty(reason) => Some(Err(Error::ReferenceCreation { name, reason })),
            OwnFile::Missing => self.recorded(name),
            OwnFile::Unread => self.read(name),
        }
    }

    // The reference that a record holds for this name.
    fn recorded(&self, name: FullName) -> Option<Result<Reference, Error>>
        ensures told { (read : RefState) → TellsName name read
            (packed_state (packed_hit (records_in self.now.search.packed) name)) result }
        ensures failed { ItemMayTell F.reading_may_fail result }
    {
        match self.search.packed_reference(name) {
            Some(found) => Some(Ok(found)),
            None => None,
        }
    }

    // The result for a name, whose own file is read.
    fn read(&self, name: FullName) -> Option<Result<Reference, Error>>
        ensures told { F.is_honest self.now.search.store.now.files
            → let tree = (F.history self.now.search.store.now.files).tree in
            let read = reads_in tree self.now.search name in TellsName name read read result }
        ensures failed { ItemMayTell F.reading_may_fail result }
    {
        match self
            .search
            .store
            .target_in_file(self.search.alloc, name.as_bstr().as_bytes())
        {
            Ok(Some(target)) => Some(Ok(Reference {
                name,
                target,
                peeled: None,
            })),
            Ok(None) => self.recorded(name),
            Err(find::Error::ReferenceCreation(reason)) => Some(Err(Error::ReferenceCreation {
                name,
                reason,
            })),
            Err(find::Error::ReadFileContents) => Some(Err(Error::ReadFileContents { name })),
            Err(_) => Some(Err(Error::Memory)),
        }
    }
}

impl<F: Files> Iterator for LooseThenPacked<'_, '_, F> {
    ghost use Rattle.gix_ref_store.specs.Items.{GivesNext, ItemMayTell, left_in};
    ghost use Rattle.gix_ref_store.specs.Searches.{reads_in};

    type Item = Result<Reference, Error>;

    ghost next_gives = { λ before item after. (after.search ≡ before.search)
        × (F.is_honest before.search.store.now.files
        → let tree = (F.history before.search.store.now.files).tree in
        GivesNext (reads_in tree before.search) (left_in tree before) item (left_in tree after))
        × ItemMayTell F.reading_may_fail item };

    ghost remaining = { λ items. at_most (length items.names) };

    fn next(&mut self) -> Option<Result<Reference, Error>> {
        while let Some((name, own)) = self.names.next() {
            if let Some(item) = self.item(name, own) {
                return Some(item);
            }
        }
        None
    }
}
