//! Why packed records aren't locked (`RepackError`).

ghost use Rattle.std.specs.Prelude.{◌≡◌};
ghost use Rattle.gix_ref_transaction.specs.declared.repacking.error.RepackError.TheVariants as fault;

use gix_ref_lock::packed;
use gix_ref_store::store::file::peel;
use std::alloc::{AllocError, AllocFailed};
use thiserror::Error;

/// Why packed records aren't locked.
#[derive(Debug, Drop, Error)]
pub enum RepackError {
    /// The packed references can't be read, or their lock can't be acquired.
    #[error(transparent)]
    PackedTransactionAcquire(packed::Error),
    /// The new packed references can't be written.
    #[error(transparent)]
    PackedTransactionPrepare(packed::PrepareError),
    /// No object is found for the id that a reference is to hold; its record would hold the
    /// object's id.
    #[error(transparent)]
    Resolve(peel::Error),
    /// Memory ran out.
    #[error("no memory is left")]
    Memory,
}

impl From<AllocError> for RepackError {
    ghost from_gives = { λ _ e. e ≡ fault.Memory };

    fn from(_: AllocError) -> Self {
        RepackError::Memory
    }
}

impl<T: Drop> From<AllocFailed<T>> for RepackError {
    ghost from_gives = { λ _ e. e ≡ fault.Memory };

    fn from(_: AllocFailed<T>) -> Self {
        RepackError::Memory
    }
}

impl From<peel::Error> for RepackError {
    ghost from_gives = { λ error e. e ≡ fault.Resolve error };

    fn from(error: peel::Error) -> Self {
        RepackError::Resolve(error)
    }
}

impl From<packed::Error> for RepackError {
    ghost from_gives = { λ error e. e ≡ fault.PackedTransactionAcquire error };

    fn from(error: packed::Error) -> Self {
        RepackError::PackedTransactionAcquire(error)
    }
}

impl From<packed::PrepareError> for RepackError {
    ghost from_gives = { λ error e. e ≡ fault.PackedTransactionPrepare error };

    fn from(error: packed::PrepareError) -> Self {
        RepackError::PackedTransactionPrepare(error)
    }
}
