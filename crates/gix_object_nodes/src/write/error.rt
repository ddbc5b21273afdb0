//! Why the trees of an editor aren't written.

ghost use Rattle.std.specs.Prelude.{◌≡◌};
ghost use Rattle.gix_object_nodes.specs.declared.write.error.Error.TheVariants.{Memory};

use std::alloc::AllocError;
use std::fmt::Display;

/// Why the trees of an editor aren't written.
#[derive(Debug, Drop, thiserror::Error)]
#[error_bound(E: Display)]
pub enum Error<E> {
    /// The error that was returned for a tree that was handed out.
    #[error(transparent)]
    Out(E),
    /// No memory is left.
    #[error("out of memory")]
    Memory,
}

impl<E> From<AllocError> for Error<E> {
    ghost from_gives = { λ _ given. given ≡ Memory };

    fn from(_: AllocError) -> Error<E> {
        Error::Memory
    }
}
