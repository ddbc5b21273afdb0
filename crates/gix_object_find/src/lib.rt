//! Objects of each kind by their ids, after the crate `gix-object` 0.64.
#![tactic(auto)]

mod ext;
mod find_object;

pub use crate::ext::{FindExt, FindObjectOrHeader, HeaderExt};
pub use crate::find_object::Find;
pub use gix_object_lookup::{Exists, FindHeader, FindInto, Lookup, TreeRefIterExt, find, lookup};
