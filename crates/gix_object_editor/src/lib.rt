//! Edits of Git's trees, after the crate `gix-object` 0.64.
#![tactic(auto)]

pub mod tree;
