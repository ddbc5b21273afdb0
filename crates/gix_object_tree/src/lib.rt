//! Git's trees: their entries, read whole or one by one, and written, after `gix-object` 0.64.
#![tactic(auto)]

pub mod laws;
pub mod tree;

pub use crate::tree::{Tree, TreeRef, TreeRefIter};
