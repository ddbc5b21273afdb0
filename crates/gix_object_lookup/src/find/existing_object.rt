//! Why an object that must exist can't be read.

ghost use Rattle.std.specs.Prelude.{◌≡◌};
ghost use Rattle.gix_object_lookup.specs.declared.find.existing_object.Error.TheVariants.{Find};
ghost use Rattle.gix_object_lookup.specs.Cases.{of_iter};

use crate::find::{self, existing_iter};
use gix_hash::ObjectId;
use gix_object_lines::{Kind, decode};

/// Why an object that must exist can't be read.
#[derive(Debug, Clone, Copy, PartialEq, Eq, thiserror::Error)]
pub enum Error {
    /// The lookup failed.
    #[error(transparent)]
    Find(find::Error),
    /// The content isn't one of the object's kind, or no memory is left to read it.
    #[error("the object {oid} can't be read")]
    Decode {
        /// The id.
        oid: ObjectId,
        /// Why the content isn't read.
        source: decode::Error,
    },
    /// No object of this id exists.
    #[error("the object {oid} is missing")]
    NotFound {
        /// The id.
        oid: ObjectId,
    },
    /// The object is of another kind.
    #[error("the object {oid} is a {actual}, not a {expected}")]
    ObjectKind {
        /// The id.
        oid: ObjectId,
        /// The object's kind.
        actual: Kind,
        /// The kind that was wanted.
        expected: Kind,
    },
}

impl From<find::Error> for Error {
    ghost from_gives = { λ error given. given ≡ Find error };

    fn from(error: find::Error) -> Error {
        Error::Find(error)
    }
}

impl From<existing_iter::Error> for Error {
    ghost from_gives = { λ error given. given ≡ of_iter error };

    fn from(error: existing_iter::Error) -> Error {
        match error {
            existing_iter::Error::Find(error) => Error::Find(error),
            existing_iter::Error::NotFound { oid } => Error::NotFound { oid },
            existing_iter::Error::ObjectKind {
                oid,
                actual,
                expected,
            } => Error::ObjectKind {
                oid,
                actual,
                expected,
            },
        }
    }
}
