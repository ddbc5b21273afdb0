//! Writing opened trees.

mod below;
mod entries;
mod error;
mod reached;

pub use crate::write::below::write_below;
pub use crate::write::entries::tree_of;
pub use crate::write::error::Error;
