//! `Error`, `HiddenGraphError`: why `Simple` ends early, and conversions into these errors.

ghost use Rattle.std.specs.Prelude.{◌≡◌};
ghost use Rattle.gix_traverse_commit_known.specs.Faults.{hidden_error, error_of};
ghost use Rattle.gix_traverse_commit_known.specs.declared.faults.Error.TheVariants.{Find as FindFault, ObjectDecode as DecodeFault, HiddenGraph as HiddenFault, Memory};
ghost use Rattle.gix_traverse_commit_known.specs.declared.faults.HiddenGraphError.TheVariants.{Find as HiddenFind, ObjectDecode as HiddenDecode};

use crate::fetch::FetchError;
use gix_object_lines::decode;
use gix_object_lookup::find::existing_iter;
use std::alloc::AllocError;

/// Why hidden commits aren't painted.
#[derive(Debug, Clone, Copy, PartialEq, Eq, thiserror::Error)]
pub enum HiddenGraphError {
    /// A commit that they reach isn't found.
    #[error(transparent)]
    Find(existing_iter::Error),
    /// The lines of its object aren't those of a commit.
    #[error(transparent)]
    ObjectDecode(decode::Error),
}

/// Why a walk ends early.
#[derive(Debug, Clone, Copy, PartialEq, Eq, thiserror::Error)]
pub enum Error {
    /// A commit that the walk comes to isn't found.
    #[error(transparent)]
    Find(existing_iter::Error),
    /// The lines of its object aren't those of a commit.
    #[error(transparent)]
    ObjectDecode(decode::Error),
    /// The hidden commits aren't painted.
    #[error(transparent)]
    HiddenGraph(HiddenGraphError),
    /// There is no memory for the walk.
    #[error("there is no memory for the walk")]
    Memory,
}

impl From<existing_iter::Error> for HiddenGraphError {
    ghost from_gives = { λ error given. given ≡ HiddenFind error };

    fn from(error: existing_iter::Error) -> HiddenGraphError {
        HiddenGraphError::Find(error)
    }
}

impl From<decode::Error> for HiddenGraphError {
    ghost from_gives = { λ error given. given ≡ HiddenDecode error };

    fn from(error: decode::Error) -> HiddenGraphError {
        HiddenGraphError::ObjectDecode(error)
    }
}

impl From<existing_iter::Error> for Error {
    ghost from_gives = { λ error given. given ≡ FindFault error };

    fn from(error: existing_iter::Error) -> Error {
        Error::Find(error)
    }
}

impl From<decode::Error> for Error {
    ghost from_gives = { λ error given. given ≡ DecodeFault error };

    fn from(error: decode::Error) -> Error {
        Error::ObjectDecode(error)
    }
}

impl From<HiddenGraphError> for Error {
    ghost from_gives = { λ error given. given ≡ HiddenFault error };

    fn from(error: HiddenGraphError) -> Error {
        Error::HiddenGraph(error)
    }
}

impl From<FetchError> for Error {
    ghost from_gives = { λ error given. given ≡ error_of error };

    fn from(error: FetchError) -> Error {
        match error {
            FetchError::Find(error) => Error::Find(error),
            FetchError::ObjectDecode(error) => Error::ObjectDecode(error),
            FetchError::Memory => Error::Memory,
        }
    }
}

impl From<AllocError> for Error {
    ghost from_gives = { λ _ error. error ≡ Memory };

    fn from(_error: AllocError) -> Error {
        Error::Memory
    }
}

/// The error if hidden commits aren't painted.
pub fn of_painting(error: FetchError) -> Error
    ensures { result ≡ hidden_error error }
{
    match error {
        FetchError::Find(error) => Error::HiddenGraph(HiddenGraphError::Find(error)),
        FetchError::ObjectDecode(error) => {
            Error::HiddenGraph(HiddenGraphError::ObjectDecode(error))
        }
        FetchError::Memory => Error::Memory,
    }
}
