//! Trees that own their entries.

ghost use Rattle.std.specs.Prelude.{◌≡◌, []};

use crate::tree::Entry;
use std::alloc::Global;

/// A tree.
#[derive(Debug, Drop, PartialEq, Eq)]
pub struct Tree {
    /// The entries, in the order in which they are written.
    pub entries: Vec<Entry>,
}

impl Tree {
    /// The tree without entries. It takes no memory.
    pub fn empty(alloc: Global) -> Tree
        ensures { result.entries.items ≡ [] }
    {
        Tree {
            entries: Vec::new(alloc),
        }
    }
}
