//! Locks of references, and moves of several references' files whose locks are held, after `gix-ref` 0.67.
//! Lines are appended to their logs, the locks are renamed to their places, and files are removed.
#![tactic(auto)]

pub mod act;
pub mod commit;
pub mod lock;
mod notes;
pub mod packed;
mod steps;

pub use crate::act::{Act, CommitError, LogError, Move};
