//! Whether edits changed an opened tree, or the one that an entry names: the mark of each, read.

ghost use Rattle.std.specs.Prelude.{◌≡◌, ◌<◌, ℕ, length, Some};
ghost use Rattle.gix_object_nodes.specs.Nodes.{child_of};
ghost use Rattle.gix_object_nodes.specs.Marks.{child_if, changed_in};

use crate::node::{Node, NodeId, Slot};

/// The opened tree of a slot, if an edit changed it.
pub fn changed_child(nodes: &[Node], slot: &Slot) -> Option<NodeId>
    requires { (c : ℕ) → child_of (Some slot.now) ≡ Some c → c < length nodes.now }
    ensures { result ≡ child_if (changed_in nodes.now) slot.now.child }
{
    let Some(child) = slot.child else {
        return None;
    };
    if is_changed(nodes, child) {
        Some(child)
    } else {
        None
    }
}

/// Returns whether an edit changed an opened tree, or one that lies in it.
pub fn is_changed(nodes: &[Node], at: NodeId) -> bool
    requires { at.0 < length nodes.now }
    ensures { result ≡ changed_in nodes.now at.0 }
{
    nodes[at.0].changed
}
