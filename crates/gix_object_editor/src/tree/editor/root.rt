//! Opening the root: a node is made of the entries of a `Tree`.

ghost use Rattle.std.specs.Prelude.{map, IfOk};
ghost use Rattle.gix_object_tree.specs.Entry.{own_item};
ghost use Rattle.gix_object_tree.specs.WellFormed.{IsWellFormed};
ghost use Rattle.gix_object_nodes.specs.Files.{Bytes, named};
ghost use Rattle.gix_object_nodes.specs.Nodes.{slot_in, StandsFor};
ghost use Rattle.gix_object_editor.specs.Grown.{IsRoot};

use gix_object_nodes::node::{Node, NodeId, Slot};
use gix_object_tree::Tree;
use std::alloc::{AllocError, Global};

/// The nodes below a root: the root alone, opened.
pub(crate) fn opened_root(alloc: Global, root: &Tree) -> Result<Vec<Node>, AllocError>
    requires { IsWellFormed (map own_item root.now.entries.items) }
    ensures { IfOk result
        (λ nodes. IsRoot (map own_item root.now.entries.items) nodes.items) }
{
    let mut node = node_of(alloc, root)?;
    node.place(NodeId(0), false);
    let mut nodes = Vec::new(alloc);
    nodes.push(node)?;
    Ok(nodes)
}

// The node of a tree's entries.
fn node_of(alloc: Global, tree: &Tree) -> Result<Node, AllocError>
    requires { IsWellFormed (map own_item tree.now.entries.items) }
    ensures { IfOk result (λ node. (m : Bytes)
        → StandsFor (slot_in node m) (named m (map own_item tree.now.entries.items))) }
{
    let entries = tree.entries.as_slice();
    let mut node = Node::empty(alloc);
    for (i, entry) in entries.iter().enumerate() {
        let slot = Slot {
            mode: entry.mode,
            oid: entry.oid,
            child: None,
        };
        node.put(alloc, entry.filename.as_bytes(), slot)?;
    }
    Ok(node)
}
