//! Objects by their ids: the map that lookups read, and entries by paths, after `gix-object` 0.64.
#![tactic(auto)]

mod content;
pub mod find;
pub mod lookup;
mod traits;

pub use crate::content::{content_of, entries_of};
pub use crate::lookup::TreeRefIterExt;
pub use crate::traits::{Exists, FindHeader, FindInto, Lookup};
