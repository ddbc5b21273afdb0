//! Walks over commits, children before parents, after `commit::topo` of `gix-traverse` 0.61.
#![tactic(auto)]

mod error;
mod init;
mod iter;
mod known;
pub mod laws;
mod ready;

pub use crate::error::Error;
pub use crate::init::{Builder, Sorting};
pub use crate::iter::Topo;
