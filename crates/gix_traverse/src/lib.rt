//! Walks over commits and trees: its parts' public items under `gix-traverse` 0.61's names.
#![tactic(auto)]

/// Walks over commits.
pub mod commit {
    /// Walks that keep little: in breadth order, or by time.
    pub mod simple {
        pub use gix_traverse_commit::simple::{CommitTimeOrder, Error, HiddenGraphError, Sorting};
    }

    /// Laws over the definitions alone: which lists a walk may give, and that all orders list one
    /// set.
    pub mod laws {
        pub use gix_traverse_commit::laws::{
            breadth_is_one, orders_list_one_set, topological_is_one,
        };
        pub use gix_traverse_topo::laws::lists_one_set;
    }

    /// Walks in which each commit comes after all its children.
    pub mod topo {
        pub use gix_traverse_topo::{Builder, Error, Sorting};
    }

    pub use gix_traverse_commit::{
        Accept, All, Either, GENERATION_LIMIT, Graph, Info, ParentIds, Parents, Row, RowsError,
        Simple, find,
    };
    pub use gix_traverse_topo::Topo;
}

/// Walks over trees.
pub mod tree {
    /// Level by level.
    pub mod breadthfirst {
        pub use gix_traverse_tree::breadthfirst::{Error, State, breadthfirst};
    }

    /// Each entry before what lies in it.
    pub mod depthfirst {
        pub use gix_traverse_tree::depthfirst::{Error, State, depthfirst};
    }

    /// What is recorded of an entry.
    pub mod recorder {
        pub use gix_traverse_tree::recorder::{Entry, Location};
    }

    /// What a delegate returns.
    pub mod visit {
        pub use gix_traverse_tree::visit::{Action, Error};
    }

    pub use gix_traverse_tree::{EntriesState, Recorder, Visit, entries_at};
}
