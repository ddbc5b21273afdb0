//! Signatures of Git's objects: formats, signing and verifying, after `gix-object` 0.64.
#![tactic(auto)]

mod format;
mod returns;
pub mod run;
pub mod sign;
mod signed;
pub mod verify;

pub use crate::format::{Format, SignatureRef};
pub use crate::signed::SignedData;
