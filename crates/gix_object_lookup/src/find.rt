//! Why an object isn't found, and a store of none.

ghost use Rattle.std.specs.Prelude.{◌≡◌, ⊤, [], None};
ghost use Rattle.gix_object_lookup.specs.declared.find.Error.TheVariants.{Memory};

pub mod existing;
pub mod existing_iter;
pub mod existing_object;

use crate::{Exists, FindHeader, FindInto, Lookup};
use gix_hash::oid;
use gix_object_lines::{Header, Kind};
use std::alloc::{AllocError, AllocFailed};

/// Why a lookup failed.
#[derive(Debug, Clone, Copy, PartialEq, Eq, thiserror::Error)]
pub enum Error {
    /// What keeps the objects failed.
    #[error("the object couldn't be looked up")]
    Failed,
    /// No memory is left.
    #[error("out of memory")]
    Memory,
}

impl From<AllocError> for Error {
    ghost from_gives = { λ _ given. given ≡ Memory };

    fn from(_: AllocError) -> Error {
        Error::Memory
    }
}

impl<T: Drop> From<AllocFailed<T>> for Error {
    ghost from_gives = { λ _ given. given ≡ Memory };

    fn from(_: AllocFailed<T>) -> Error {
        Error::Memory
    }
}

/// A store that holds no object and never fails.
#[derive(Debug, Clone, Copy, PartialEq, Eq)]
pub struct Never;

impl Lookup for Never {
    ghost table = { λ _ _. None };

    ghost ids = { λ _. [] };

    ghost is_honest = { λ _. ⊤ };

    ghost may_fail = { λ _. ⊥ };
}

impl Exists for Never {
    fn exists(&self, _id: oid<'_>) -> bool {
        false
    }
}

impl FindInto for Never {
    fn find_into(&self, _id: oid<'_>, buffer: &mut Vec<u8>) -> Result<Option<Kind>, Error> {
        buffer.clear();
        Ok(None)
    }
}

impl FindHeader for Never {
    fn try_header(&self, _id: oid<'_>) -> Result<Option<Header>, Error> {
        Ok(None)
    }
}
