//! The program's command line, and its actions on a folder: create, run, check and recover.
//!
//! [`command_line::read_words`] reads a command line. [`act`] performs its action and returns the
//! program's status. [`perform`] does the same without reporting a failure, and returns the
//! folder's two parts; [`report`] reports it.
#![tactic(auto)]

mod acting;
mod answers;
pub mod command_line;
mod creating;
mod failure;
mod looking;
mod opening;
mod recovering;
mod telling;
mod values;

pub use acting::{act, perform};
pub use answers::Performed;
pub use failure::Failure;
pub use telling::report;
