//! Recovery: what a stopped or failed call left of a repository is made whole.
#![tactic(auto)]

mod clearing;
mod cutting;
mod packed;
mod pieces;
mod recovering;

pub use recovering::{RecoverError, recover};
