//! The error of comparing an id with the one that was expected.

use crate::ObjectId;

/// An id differs from the expected one.
#[derive(Debug, Clone, Copy, PartialEq, Eq, thiserror::Error)]
#[error("Hash was {actual}, but should have been {expected}")]
pub struct Error {
    /// The id that was there.
    pub actual: ObjectId,
    /// The id that was expected.
    pub expected: ObjectId,
}
