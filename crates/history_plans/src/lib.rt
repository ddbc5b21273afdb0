//! The plans of the commands that change files: what refuses each, and what it stores and moves.
//! Nothing is changed here.
#![tactic(auto)]

mod actors;
mod apart;
mod base;
mod causes;
mod deleting;
mod editing;
mod grafts;
mod moving;
mod needed;
mod packing;
mod planning;
mod renaming;
mod switching;
mod tagging;

pub use deleting::test_delete;
pub use moving::plan_moves;
pub use packing::{Packing, names_to_pack};
pub use planning::{Plan, plan_commit};
pub use renaming::plan_rename;
pub use switching::test_switch;
pub use tagging::{Tagged, plan_tag};
