//! Rows of commits, the lists and orders of walks over commits, and the walk over rows.
#![tactic(auto)]

mod info;
pub mod laws;
mod parents;
mod rows;
pub mod sample;
pub mod sorting;
mod walk;

pub use crate::info::{Info, ParentIds};
pub use crate::parents::Parents;
pub use crate::rows::{GENERATION_LIMIT, Graph, Row, RowsError};
pub use crate::walk::{WalkError, breadth_first};
