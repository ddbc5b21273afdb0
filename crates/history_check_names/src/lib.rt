//! The check of a names part: whether HEAD, names and logs are a repository's, and nothing else.
#![tactic(auto)]

mod file;
pub mod laws;
mod log;
mod loose;
mod packed;
mod packed_pieces;
mod pieces;
mod records;
mod survey;

pub use loose::MAX_LOOSE;
pub use packed_pieces::test_long_packed;
pub use survey::survey_names;
