//! Lists of commits over stores that are looked up, and rows of a repository's commits.
#![tactic(auto)]

mod error;
mod listing;
mod read_commits;
mod rows;
mod simply;
mod sorted;
mod told;

pub use error::WalkError;
pub use gix_traverse_commit::{Graph, Parents};
pub use listing::{Order, Request, list_commits};
pub use read_commits::{ReadCommits, ReadStore};
pub use rows::rows_of;
pub use told::Told;
