//! What transactions of `gix_ref` make of a repository's names: laws over the definitions.
//! Each is the contract of a function that does nothing.
#![tactic(auto)]

pub mod laws;
