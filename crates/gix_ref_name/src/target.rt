//! What references point to: the types `Target`, `TargetRef` and `Kind`.

mod calls;

use crate::fullname::{FullName, FullNameRef};
use gix_hash::{ObjectId, oid};

/// Whether a target is an object or another reference.
#[derive(Debug, Clone, Copy, PartialEq, Eq, PartialOrd, Ord, Hash)]
pub enum Kind {
    /// An object's id.
    Object,
    /// Another reference's name.
    Symbolic,
}

/// What a reference points to.
#[derive(Debug, Drop, PartialEq, Eq, PartialOrd, Ord, Hash)]
pub enum Target {
    /// An object's id.
    Object(ObjectId),
    /// Another reference's name.
    Symbolic(FullName),
}

/// A view of what a reference points to.
#[derive(Debug, Clone, Copy, PartialEq, Eq, PartialOrd, Ord, Hash)]
pub enum TargetRef<'a> {
    /// An object's id.
    Object(oid<'a>),
    /// Another reference's name.
    Symbolic(FullNameRef<'a>),
}
