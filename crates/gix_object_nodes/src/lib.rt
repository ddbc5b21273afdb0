//! Opened trees as numbered nodes, and the writing of those that edits changed.
#![tactic(auto)]

pub mod changed;
pub mod node;
pub mod write;
