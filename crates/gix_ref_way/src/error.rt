//! What a file's way is, and why it isn't made.
ghost use Rattle.std.specs.Prelude.{◌≡◌};
ghost use Rattle.gix_ref_way.specs.declared.error.Halt.TheVariants as halt;
ghost use Rattle.gix_ref_way.specs.Halts.{halt_of};

use gix_ref_file::FileError;
use std::alloc::{AllocError, AllocFailed};

/// What the way of a file is.
#[derive(Debug, Clone, Copy, PartialEq, Eq)]
pub enum Way {
    /// A file may be made at the path.
    Free,
    /// A file is above the path or below it.
    Blocked,
    /// A reading failed.
    Unread,
}

// Why a way isn't made.
#[derive(Debug, Clone, Copy, PartialEq, Eq)]
pub(crate) enum Halt {
    // A file is above the path or below it.
    Blocked,
    // A reading failed.
    Unread,
    // A change failed.
    Failed,
    // Memory was refused.
    Memory,
}

impl From<AllocError> for Halt {
    ghost from_gives = { λ _ e. e ≡ halt.Memory };

    fn from(_: AllocError) -> Self {
        Halt::Memory
    }
}

impl<T: Drop> From<AllocFailed<T>> for Halt {
    ghost from_gives = { λ _ e. e ≡ halt.Memory };

    fn from(_: AllocFailed<T>) -> Self {
        Halt::Memory
    }
}

impl From<FileError> for Halt {
    ghost from_gives = { λ error e. e ≡ halt_of error };

    fn from(error: FileError) -> Self {
        match error {
            FileError::Failed => Halt::Failed,
            FileError::Memory => Halt::Memory,
        }
    }
}
