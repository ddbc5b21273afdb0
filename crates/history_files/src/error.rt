//! Why the trees of files aren't read (`ReadError`), from the errors of lookups and the want of memory.

ghost use Rattle.std.specs.Prelude.{◌≡◌};
ghost use Rattle.history_files.specs.Reading.{as_read};
ghost use Rattle.history_files.specs.declared.error.ReadError.TheVariants.{Memory};

use gix_hash::ObjectId;
use gix_object_lookup::find;
use gix_object_lookup::find::existing_iter;
use std::alloc::{AllocError, AllocFailed};

/// Why the trees of files aren't read.
#[derive(Debug, Clone, Copy, thiserror::Error)]
pub enum ReadError {
    /// The store failed to look a tree up.
    #[error("a tree couldn't be looked up")]
    Failed,
    /// There is no readable tree under this id.
    #[error("the tree {oid} is missing, or can't be read")]
    Broken {
        /// The id.
        oid: ObjectId,
    },
    /// No memory is left.
    #[error("out of memory")]
    Memory,
}

impl From<find::Error> for ReadError {
    ghost use Rattle.history_files.specs.Reading.{as_looked_up};

    ghost from_gives = { λ error given. given ≡ as_looked_up error };

    fn from(error: find::Error) -> ReadError {
        match error {
            find::Error::Failed => ReadError::Failed,
            find::Error::Memory => ReadError::Memory,
        }
    }
}

impl From<existing_iter::Error> for ReadError {
    ghost from_gives = { λ error given. given ≡ as_read error };

    fn from(error: existing_iter::Error) -> ReadError {
        match error {
            existing_iter::Error::Find(error) => ReadError::from(error),
            existing_iter::Error::NotFound { oid } => ReadError::Broken { oid },
            existing_iter::Error::ObjectKind { oid, .. } => ReadError::Broken { oid },
        }
    }
}

impl From<AllocError> for ReadError {
    ghost from_gives = { λ _ given. given ≡ Memory };

    fn from(_: AllocError) -> ReadError {
        ReadError::Memory
    }
}

impl<T: Drop> From<AllocFailed<T>> for ReadError {
    ghost from_gives = { λ _ given. given ≡ Memory };

    fn from(_: AllocFailed<T>) -> ReadError {
        ReadError::Memory
    }
}
