//! Laws from the definitions to the code: each is the contract of a function that does nothing.
#![tactic(auto)]

pub mod offered;
pub mod passing;
pub mod trees;
