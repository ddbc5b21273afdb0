//! Why an object that must exist can't be read part by part.

ghost use Rattle.std.specs.Prelude.{◌≡◌};
ghost use Rattle.gix_object_lookup.specs.declared.find.existing_iter.Error.TheVariants.{Find};

use crate::find;
use gix_hash::ObjectId;
use gix_object_lines::Kind;

/// Why an object that must exist can't be read part by part.
#[derive(Debug, Clone, Copy, PartialEq, Eq, thiserror::Error)]
pub enum Error {
    /// The lookup failed.
    #[error(transparent)]
    Find(find::Error),
    /// No object of this id exists.
    #[error("the object {oid} is missing")]
    NotFound {
        /// The id.
        oid: ObjectId,
    },
    /// The object is of another kind.
    #[error("the object {oid} is a {actual}, not a {expected}")]
    ObjectKind {
        /// The id.
        oid: ObjectId,
        /// The object's kind.
        actual: Kind,
        /// The kind that was wanted.
        expected: Kind,
    },
}

impl From<find::Error> for Error {
    ghost from_gives = { λ error given. given ≡ Find error };

    fn from(error: find::Error) -> Error {
        Error::Find(error)
    }
}
