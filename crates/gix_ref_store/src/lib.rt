//! References as files hold them, how they are found, and their logs, after `gix-ref` 0.67.
#![tactic(auto)]

mod options;
mod reference;
pub mod store;

pub use crate::options::{Options, WriteReflog};
pub use crate::reference::Reference;
