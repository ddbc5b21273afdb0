//! The check of an objects part: whether it is whole, and if not, why.
#![tactic(auto)]

pub mod laws;
mod listing;
mod order;
mod reading;
mod stored;
mod whole;

pub use stored::Stored;
pub use whole::{WholeObjects, whole_objects};
