//! `Error`: why a walk over trees ends early, and conversions into it.

ghost use Rattle.std.specs.Prelude.{◌≡◌};
ghost use Rattle.gix_traverse_tree.specs.declared.error.Error.TheVariants.{Find, ObjectDecode, Memory};

use crate::visit;
use gix_object_lines::decode;
use gix_object_lookup::find::existing_iter;
use std::alloc::{AllocError, AllocFailed};

/// Why a walk over trees ends early.
#[derive(Debug, Clone, Copy, PartialEq, Eq, thiserror::Error)]
pub enum Error {
    /// A tree isn't found.
    #[error(transparent)]
    Find(existing_iter::Error),
    /// The delegate ended the walk.
    #[error("the walk was ended")]
    Cancelled,
    /// An entry isn't read.
    #[error(transparent)]
    ObjectDecode(decode::Error),
    /// A tree lies under itself.
    #[error("a tree lies under itself")]
    Cycle,
    /// No memory is left.
    #[error("out of memory")]
    Memory,
}

impl From<existing_iter::Error> for Error {
    ghost from_gives = { λ error given. given ≡ Find error };

    fn from(error: existing_iter::Error) -> Error {
        Error::Find(error)
    }
}

impl From<decode::Error> for Error {
    ghost from_gives = { λ error given. given ≡ ObjectDecode error };

    fn from(error: decode::Error) -> Error {
        Error::ObjectDecode(error)
    }
}

impl From<visit::Error> for Error {
    ghost from_gives = { λ _ given. given ≡ Memory };

    fn from(_: visit::Error) -> Error {
        Error::Memory
    }
}

impl From<AllocError> for Error {
    ghost from_gives = { λ _ given. given ≡ Memory };

    fn from(_: AllocError) -> Error {
        Error::Memory
    }
}

impl<T: Drop> From<AllocFailed<T>> for Error {
    ghost from_gives = { λ _ given. given ≡ Memory };

    fn from(_: AllocFailed<T>) -> Error {
        Error::Memory
    }
}
