//! What a delegate returns: the `Action`, to go below, past or end; its `Error`, conversions into it.

ghost use Rattle.std.specs.Prelude.{◌≡◌};
ghost use Rattle.gix_traverse_tree.specs.declared.visit.Error.TheVariants.{Memory};

use std::alloc::{AllocError, AllocFailed};
use std::ops::ControlFlow;

/// What a walk does after an entry: `Break` ends it; of a tree, `Continue(true)` also walks what
/// lies in it, and `Continue(false)` passes by.
pub type Action = ControlFlow<(), bool>;

/// Why a delegate fails.
#[derive(Debug, Clone, Copy, PartialEq, Eq, thiserror::Error)]
pub enum Error {
    /// No memory is left.
    #[error("out of memory")]
    Memory,
}

impl From<AllocError> for Error {
    ghost from_gives = { λ _ given. given ≡ Memory };

    fn from(_: AllocError) -> Error {
        Error::Memory
    }
}

impl<T: Drop> From<AllocFailed<T>> for Error {
    ghost from_gives = { λ _ given. given ≡ Memory };

    fn from(_: AllocFailed<T>) -> Error {
        Error::Memory
    }
}
