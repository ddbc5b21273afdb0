//! A system over files, and tests of a folder over it.
#![tactic(auto)]

mod memory;
mod over_files;
mod reports;
#[cfg(test)]
mod rows;
#[cfg(test)]
mod tests;

pub use memory::{folder_in_memory, system_in_memory};
pub use over_files::OverFiles;
