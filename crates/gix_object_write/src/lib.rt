//! Storing objects under their ids, after the crate `gix-object` 0.64.
#![tactic(auto)]

mod stream;
mod traits;
pub mod write;

pub use crate::traits::Write;
