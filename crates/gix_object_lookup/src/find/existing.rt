//! Why an object that must exist isn't found.

ghost use Rattle.std.specs.Prelude.{◌≡◌};
ghost use Rattle.gix_object_lookup.specs.declared.find.existing.Error.TheVariants.{Find};

use crate::find;
use gix_hash::ObjectId;

/// Why an object that must exist isn't found.
#[derive(Debug, Clone, Copy, PartialEq, Eq, thiserror::Error)]
pub enum Error {
    /// The lookup failed.
    #[error(transparent)]
    Find(find::Error),
    /// No object of this id exists.
    #[error("the object {oid} is missing")]
    NotFound {
        /// The id.
        oid: ObjectId,
    },
}

impl From<find::Error> for Error {
    ghost from_gives = { λ error given. given ≡ Find error };

    fn from(error: find::Error) -> Error {
        Error::Find(error)
    }
}
