//! Walks over commits, after the module `commit` of the crate `gix-traverse` 0.61.
#![tactic(auto)]

pub mod paint;
pub mod simple;

/// Reading the commits that a walk comes to.
pub mod fetch {
    pub use gix_traverse_commit_known::fetch::{FetchError, Fetched, Source, asked_of};
}

/// The commits that a walk knows, and those that are queued or wait, by their numbers.
pub mod known {
    pub use gix_traverse_commit_known::known::Known;
}

/// Laws over the definitions alone.
pub mod laws {
    pub use gix_traverse_graph::laws::{breadth_is_one, orders_list_one_set, topological_is_one};
}

/// The commits that a walk knows, by their numbers, and what was marked of each.
pub mod nodes {
    pub use gix_traverse_commit_known::nodes::{Nodes, Number, WalkFlags};
}

/// The sample history, by the definitions.
pub mod sample {
    pub use gix_traverse_graph::sample::{rows, slow_rows};
}

pub use crate::simple::Simple;
pub use gix_traverse_commit_known::{Accept, All, Either, find};
pub use gix_traverse_graph::{
    GENERATION_LIMIT, Graph, Info, ParentIds, Parents, Row, RowsError, WalkError, breadth_first,
};
