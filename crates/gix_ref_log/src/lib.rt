//! Logs of references, and walks over their lines from either end, after the crate `gix-ref` 0.67.
#![tactic(auto)]

pub mod iter;
pub mod laws;
mod line;

pub use crate::line::{Line, LineRef, decode, write};
