//! A tree of files, whose changes may be stopped at any moment.
#![tactic(auto)]

mod files;
pub mod laws;
mod memory;
mod nodes;
pub mod paths;
mod ranges;

pub use files::{FileError, Files, Place};
pub use memory::MemoryFiles;
