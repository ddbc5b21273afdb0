//! What is known of an object without its content.

use crate::kind::Kind;

/// The kind and size that an object's header gives.
#[derive(Debug, Clone, Copy, PartialEq, Eq)]
pub struct Header {
    /// The object's kind.
    pub kind: Kind,
    /// The length of its content in bytes.
    pub size: u64,
}
