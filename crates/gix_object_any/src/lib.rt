//! Git's objects of any kind, after the crate `gix-object` 0.64: their bytes, borrowed and owned.
#![tactic(auto)]

pub mod data;
pub mod laws;
pub mod object;
mod owned;

pub use crate::data::Data;
pub use crate::object::ObjectRef;
pub use crate::owned::Object;
