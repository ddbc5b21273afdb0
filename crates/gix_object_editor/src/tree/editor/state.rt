//! The fields of an editor and its cursor, apart from what the contracts say of them.

ghost use Rattle.std.specs.Prelude.{◌<◌, length};
ghost use Rattle.gix_object_nodes.specs.Nodes.{slots_of, IsForest};
ghost use Rattle.gix_object_nodes.specs.Marks.{marks_of, AreMarked};

use gix_object_nodes::node::{Node, NodeId};

/// A tree that is edited, and the trees below it, which are opened as the edits lead into them.
#[derive(Debug, Drop)]
pub struct Editor<S> {
    pub(crate) store: S,
    pub(crate) nodes: Vec<Node>,
    pub(crate) lookups: u64,
    ghost forest: { IsForest (slots_of nodes.items) (length nodes.items) },
    ghost marked: { AreMarked (slots_of nodes.items) (marks_of nodes.items) (length nodes.items) },
}

/// A folder of an editor, below which edits are made.
#[derive(Debug, Drop)]
pub struct Cursor<'a, S> {
    pub(crate) editor: &'a mut Editor<S>,
    pub(crate) at: NodeId,
    ghost within: { at.0 < length editor.now.nodes.items },
}
