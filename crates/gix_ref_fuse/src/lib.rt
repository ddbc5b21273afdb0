//! Files of which one call fails, or all from one on: for tests of stops and failures.
#![tactic(auto)]

mod fuse;

pub use fuse::Fuse;
