//! The commits that a walk knows: found by rows or objects, met, and queued or waiting.
#![tactic(auto)]

mod accept;
pub mod anew;
mod either;
pub mod faults;
pub mod fetch;
pub mod known;
pub mod meet;
pub mod nodes;
pub mod waiting;

pub use crate::accept::{Accept, All};
pub use crate::either::{Either, find};
