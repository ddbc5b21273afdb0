//! The formats of references: loose texts and `packed-refs`, read, written and edited, after `gix-ref` 0.67.
#![tactic(auto)]

pub mod ids;
pub mod laws;
mod lines;
pub mod lookup;
pub mod loose;
pub mod packed;
