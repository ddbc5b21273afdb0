//! Why an object isn't kept.

ghost use Rattle.std.specs.Prelude.{◌≡◌};
ghost use Rattle.gix_object_write.specs.declared.write.Error.TheVariants.{Memory};

use std::alloc::{AllocError, AllocFailed};

/// Why an object isn't kept.
#[derive(Debug, Clone, Copy, PartialEq, Eq, thiserror::Error)]
pub enum Error {
    /// What keeps the objects failed.
    #[error("the object couldn't be kept")]
    Failed,
    /// The object's bytes can't be had: the stream failed or ended early, or the value has no
    /// written form.
    #[error("the object's bytes couldn't be read")]
    Read,
    /// No memory is left.
    #[error("out of memory")]
    Memory,
}

impl From<AllocError> for Error {
    ghost from_gives = { λ _ given. given ≡ Memory };

    fn from(_: AllocError) -> Error {
        Error::Memory
    }
}

impl<T: Drop> From<AllocFailed<T>> for Error {
    ghost from_gives = { λ _ given. given ≡ Memory };

    fn from(_: AllocFailed<T>) -> Error {
        Error::Memory
    }
}
