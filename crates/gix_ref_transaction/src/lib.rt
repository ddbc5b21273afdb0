//! Transactions of references: several edits that are tested, locked and made together.
//! They change the references' own files and packed records.
#![tactic(auto)]

mod asked;
mod error;
pub mod file;
mod finder;
mod known;
mod lines;
mod once;
mod plan;
mod repacking;
mod targets;
pub mod transaction;

pub use crate::asked::Refusal;
pub use crate::error::PrepareError;
pub use crate::repacking::{PackedRefs, RepackError};
