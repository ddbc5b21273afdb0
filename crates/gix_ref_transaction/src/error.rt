//! Why a transaction isn't prepared (`PrepareError`), also from the errors of what it calls.

ghost use Rattle.std.specs.Prelude.{◌≡◌};
ghost use Rattle.gix_ref_transaction.specs.Errors.{of_file, of_finding, of_splitting, of_opening, of_locking, of_repacking};
ghost use Rattle.gix_ref_transaction.specs.declared.error.PrepareError.TheVariants as fault;

use crate::RepackError;
use crate::asked::Refusal;
use gix_ref_edit::{PreProcessError, SplitError, TwiceError};
use gix_ref_file::FileError;
use gix_ref_format::packed::buffer;
use gix_ref_lock::{LogError, packed};
use gix_ref_store::store::file::{find, peel};
use std::alloc::{AllocError, AllocFailed};
use thiserror::Error;

/// Why a transaction isn't prepared.
#[derive(Debug, Drop, PartialEq, Eq, Error)]
pub enum PrepareError {
    /// The packed references can't be opened.
    #[error(transparent)]
    Packed(buffer::Error),
    /// The lock of the packed references isn't held.
    #[error(transparent)]
    PackedTransactionAcquire(packed::Error),
    /// The new packed references can't be written.
    #[error(transparent)]
    PackedTransactionPrepare(packed::PrepareError),
    /// A name has two edits, or symbolic references lead too far.
    #[error(transparent)]
    PreprocessingFailed(PreProcessError),
    /// Two paths of the edits are one, as those of `refs/heads/x` and `main-worktree/refs/heads/x`.
    #[error("two edits are of one place")]
    SamePlace,
    /// A name isn't composed, and the store composes names.
    #[error("a name isn't composed")]
    Uncomposed,
    /// A lock exists already, a file is in its reference's way, or a path is none.
    #[error("the lock of a reference can't be made")]
    LockAcquire,
    /// A change of the files failed: a lock wasn't made, written or removed.
    #[error("the lock of a reference can't be written")]
    Io,
    /// A reference isn't as its edit expects.
    #[error(transparent)]
    Refused(Refusal),
    /// A reference can't be read.
    #[error(transparent)]
    ReferenceDecode(find::Error),
    /// A line for a log can't be made.
    #[error(transparent)]
    CreateOrUpdateRefLog(LogError),
    /// No object is found whose id the packed record of a reference would hold.
    #[error(transparent)]
    Resolve(peel::Error),
    /// No memory is left.
    #[error("no memory is left")]
    Memory,
}

impl From<AllocError> for PrepareError {
    ghost from_gives = { λ _ e. e ≡ fault.Memory };

    fn from(_: AllocError) -> Self {
        PrepareError::Memory
    }
}

impl<T: Drop> From<AllocFailed<T>> for PrepareError {
    ghost from_gives = { λ _ e. e ≡ fault.Memory };

    fn from(_: AllocFailed<T>) -> Self {
        PrepareError::Memory
    }
}

impl From<FileError> for PrepareError {
    ghost from_gives = { λ error e. e ≡ of_file error };

    fn from(error: FileError) -> Self {
        match error {
            FileError::Failed => PrepareError::Io,
            FileError::Memory => PrepareError::Memory,
        }
    }
}

impl From<PreProcessError> for PrepareError {
    ghost from_gives = { λ error e. e ≡ of_splitting error };

    fn from(error: PreProcessError) -> Self {
        match error {
            PreProcessError::Split(SplitError::Memory) => PrepareError::Memory,
            PreProcessError::Split(SplitError::Find) => {
                PrepareError::PreprocessingFailed(PreProcessError::Split(SplitError::Find))
            }
            PreProcessError::Split(SplitError::Cycle) => {
                PrepareError::PreprocessingFailed(PreProcessError::Split(SplitError::Cycle))
            }
            PreProcessError::Twice(TwiceError::Memory) => PrepareError::Memory,
            PreProcessError::Twice(TwiceError::Name(name)) => {
                PrepareError::PreprocessingFailed(PreProcessError::Twice(TwiceError::Name(name)))
            }
        }
    }
}

impl From<Refusal> for PrepareError {
    ghost from_gives = { λ why e. e ≡ fault.Refused why };

    fn from(why: Refusal) -> Self {
        PrepareError::Refused(why)
    }
}

impl From<find::Error> for PrepareError {
    ghost from_gives = { λ error e. e ≡ of_finding error };

    fn from(error: find::Error) -> Self {
        match error {
            find::Error::Memory => PrepareError::Memory,
            find::Error::PackedOpen(error) => PrepareError::from(error),
            find::Error::ReadFileContents => {
                PrepareError::ReferenceDecode(find::Error::ReadFileContents)
            }
            find::Error::ReferenceCreation(error) => {
                PrepareError::ReferenceDecode(find::Error::ReferenceCreation(error))
            }
        }
    }
}

impl From<buffer::Error> for PrepareError {
    ghost from_gives = { λ error e. e ≡ of_opening error };

    fn from(error: buffer::Error) -> Self {
        match error {
            buffer::Error::Memory => PrepareError::Memory,
            buffer::Error::Io => PrepareError::Packed(buffer::Error::Io),
            buffer::Error::HeaderParsing => PrepareError::Packed(buffer::Error::HeaderParsing),
            buffer::Error::Iter { line_number } => {
                PrepareError::Packed(buffer::Error::Iter { line_number })
            }
        }
    }
}

impl From<packed::Error> for PrepareError {
    ghost from_gives = { λ error e. e ≡ of_locking error };

    fn from(error: packed::Error) -> Self {
        match error {
            packed::Error::BufferOpen(buffer::Error::Memory) => PrepareError::Memory,
            packed::Error::TransactionLock(packed::LockError::Memory) => PrepareError::Memory,
            packed::Error::BufferOpen(buffer::Error::Io) => {
                PrepareError::PackedTransactionAcquire(error)
            }
            packed::Error::BufferOpen(buffer::Error::HeaderParsing) => {
                PrepareError::PackedTransactionAcquire(error)
            }
            packed::Error::BufferOpen(buffer::Error::Iter { .. }) => {
                PrepareError::PackedTransactionAcquire(error)
            }
            packed::Error::TransactionLock(packed::LockError::Held) => {
                PrepareError::PackedTransactionAcquire(error)
            }
            packed::Error::TransactionLock(packed::LockError::Failed) => {
                PrepareError::PackedTransactionAcquire(error)
            }
        }
    }
}

impl From<RepackError> for PrepareError {
    ghost from_gives = { λ error e. e ≡ of_repacking error };

    fn from(error: RepackError) -> Self {
        match error {
            RepackError::PackedTransactionAcquire(error) => PrepareError::from(error),
            RepackError::PackedTransactionPrepare(packed::PrepareError::Memory) => {
                PrepareError::Memory
            }
            RepackError::PackedTransactionPrepare(packed::PrepareError::CloseLock) => {
                PrepareError::PackedTransactionPrepare(packed::PrepareError::CloseLock)
            }
            RepackError::Resolve(error) => PrepareError::Resolve(error),
            RepackError::Memory => PrepareError::Memory,
        }
    }
}
