//! Walks over trees, after the module `tree` of the crate `gix-traverse` 0.61.
#![tactic(auto)]

mod at_paths;
pub mod breadthfirst;
mod delegate;
pub mod depthfirst;
mod entry;
mod error;
mod folders;
pub mod laws;
mod lookup;
pub mod recorder;
pub mod visit;

pub use crate::at_paths::{EntriesState, entries_at};
pub use crate::delegate::Visit;
pub use crate::recorder::Recorder;
