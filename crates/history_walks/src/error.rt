//! Why commits aren't listed (`WalkError`), from the errors of lookups and walks.

ghost use Rattle.std.specs.Prelude.{◌≡◌};
ghost use Rattle.history_walks.specs.Faults.{as_found, as_looked_up, as_sorted, as_walked};
ghost use Rattle.history_walks.specs.declared.error.WalkError.TheVariants.{Memory};

use gix_object_lookup::find;
use gix_object_lookup::find::existing_iter;
use gix_traverse_commit::simple::{self, HiddenGraphError};
use std::alloc::{AllocError, AllocFailed};

/// Why commits aren't listed.
#[derive(Debug, Clone, Copy, thiserror::Error)]
pub enum WalkError {
    /// The store failed to look a commit up.
    #[error("a commit couldn't be looked up")]
    Failed,
    /// A commit that the walk comes to isn't stored, or can't be read.
    #[error("a commit is missing, or can't be read")]
    Broken,
    /// No memory is left.
    #[error("out of memory")]
    Memory,
}

impl From<find::Error> for WalkError {
    ghost from_gives = { λ error given. given ≡ as_looked_up error };

    fn from(error: find::Error) -> WalkError {
        match error {
            find::Error::Failed => WalkError::Failed,
            find::Error::Memory => WalkError::Memory,
        }
    }
}

impl From<existing_iter::Error> for WalkError {
    ghost from_gives = { λ error given. given ≡ as_found error };

    fn from(error: existing_iter::Error) -> WalkError {
        match error {
            existing_iter::Error::Find(error) => WalkError::from(error),
            existing_iter::Error::NotFound { .. } => WalkError::Broken,
            existing_iter::Error::ObjectKind { .. } => WalkError::Broken,
        }
    }
}

impl From<simple::Error> for WalkError {
    ghost from_gives = { λ error given. given ≡ as_walked error };

    fn from(error: simple::Error) -> WalkError {
        match error {
            simple::Error::Find(error) => WalkError::from(error),
            simple::Error::ObjectDecode(_) => WalkError::Broken,
            simple::Error::HiddenGraph(HiddenGraphError::Find(error)) => WalkError::from(error),
            simple::Error::HiddenGraph(HiddenGraphError::ObjectDecode(_)) => WalkError::Broken,
            simple::Error::Memory => WalkError::Memory,
        }
    }
}

impl From<gix_traverse_topo::Error> for WalkError {
    ghost from_gives = { λ error given. given ≡ as_sorted error };

    fn from(error: gix_traverse_topo::Error) -> WalkError {
        match error {
            gix_traverse_topo::Error::Find(error) => WalkError::from(error),
            gix_traverse_topo::Error::Memory => WalkError::Memory,
            gix_traverse_topo::Error::ObjectDecode(_)
            | gix_traverse_topo::Error::MissingIndegreeUnexpected
            | gix_traverse_topo::Error::MissingStateUnexpected => WalkError::Broken,
        }
    }
}

impl From<AllocError> for WalkError {
    ghost from_gives = { λ _ given. given ≡ Memory };

    fn from(_: AllocError) -> WalkError {
        WalkError::Memory
    }
}

impl<T: Drop> From<AllocFailed<T>> for WalkError {
    ghost from_gives = { λ _ given. given ≡ Memory };

    fn from(_: AllocFailed<T>) -> WalkError {
        WalkError::Memory
    }
}
