//! Why bytes are no name.

use thiserror::Error;

/// Bytes that are no name of the wanted kind.
#[derive(Debug, Clone, Copy, PartialEq, Eq, Error)]
#[error("the bytes break a rule of reference names")]
pub struct InvalidName;

/// Why a name wasn't made.
#[derive(Debug, Clone, Copy, PartialEq, Eq, Error)]
pub enum Error {
    /// The bytes break a rule of reference names.
    #[error("the bytes break a rule of reference names")]
    Invalid,
    /// No memory is left.
    #[error("no memory is left")]
    Memory,
}
