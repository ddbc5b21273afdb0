//! Git's tags: read whole or token by token, written, owned and signed, after `gix-object` 0.64.
#![tactic(auto)]

pub mod laws;
mod signature;
pub mod tag;
mod write;

pub use crate::tag::{Tag, TagRef, TagRefIter};
