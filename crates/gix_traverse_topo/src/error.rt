//! `Error`: why `Builder` builds no walk or `Topo` ends early, and conversions into it.

ghost use Rattle.std.specs.Prelude.{◌≡◌};
ghost use Rattle.gix_traverse_topo.specs.Faults.{error_of};
ghost use Rattle.gix_traverse_topo.specs.declared.error.Error.TheVariants.{Find, ObjectDecode, Memory};

use gix_object_lines::decode;
use gix_object_lookup::find::existing_iter;
use gix_traverse_commit_known::fetch::FetchError;
use std::alloc::{AllocError, AllocFailed};

/// Why a walk isn't built, or ends early.
#[derive(Debug, Clone, Copy, PartialEq, Eq, thiserror::Error)]
pub enum Error {
    /// How often a commit is named as a parent isn't known, which no walk comes to.
    #[error("Indegree information is missing")]
    MissingIndegreeUnexpected,
    /// A commit that waits isn't known, which no walk comes to.
    #[error("Internal state (bitflags) not found")]
    MissingStateUnexpected,
    /// The lines of a commit's object aren't those of a commit.
    #[error(transparent)]
    ObjectDecode(decode::Error),
    /// A commit that the walk comes to isn't found.
    #[error(transparent)]
    Find(existing_iter::Error),
    /// There is no memory for the walk.
    #[error("there is no memory for the walk")]
    Memory,
}

impl From<FetchError> for Error {
    ghost from_gives = { λ error given. given ≡ error_of error };

    fn from(error: FetchError) -> Error {
        match error {
            FetchError::Find(error) => Error::Find(error),
            FetchError::ObjectDecode(error) => Error::ObjectDecode(error),
            FetchError::Memory => Error::Memory,
        }
    }
}

impl From<existing_iter::Error> for Error {
    ghost from_gives = { λ error given. given ≡ Find error };

    fn from(error: existing_iter::Error) -> Error {
        Error::Find(error)
    }
}

impl From<decode::Error> for Error {
    ghost from_gives = { λ error given. given ≡ ObjectDecode error };

    fn from(error: decode::Error) -> Error {
        Error::ObjectDecode(error)
    }
}

impl From<AllocError> for Error {
    ghost from_gives = { λ _ given. given ≡ Memory };

    fn from(_error: AllocError) -> Error {
        Error::Memory
    }
}

impl<T: Drop> From<AllocFailed<T>> for Error {
    ghost from_gives = { λ _ given. given ≡ Memory };

    fn from(_refused: AllocFailed<T>) -> Error {
        Error::Memory
    }
}
