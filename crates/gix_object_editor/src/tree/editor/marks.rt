//! Marking an opened tree and those above it as changed; and removing an entry, whose tree is then marked.

ghost use Rattle.std.specs.Prelude.{◌≡◌, ◌≢◌, ◌<◌, ℕ, length, true, Some, IsTrue, IsFalse};
ghost use Rattle.gix_object_nodes.specs.Nodes.{child_of, HasSlotsOf};
ghost use Rattle.gix_object_nodes.specs.Marks.{marks_of, mark_below, IsIdle};
ghost use Rattle.gix_object_editor.specs.Grown.{HasTree, IsMarkedOf, IsMarkedBut, IsMarkedUp, IsCut};

use gix_object_nodes::changed::is_changed;
use gix_object_nodes::node::{Node, NodeId, Slot, slot_at, take_at};

/// Removes the entry of a name from an opened tree, which is marked as changed, if more than a made
/// folder is there.
pub(crate) fn cut(nodes: &mut [Node], at: NodeId, name: &[u8])
    requires tree { HasTree nodes.old at.0 }
    requires marked { IsMarkedOf nodes.old }
    ensures { IsCut nodes.old at.0 name.now nodes.new }
{
    let more = removal_is_change(nodes, slot_at(nodes, at, name));
    take_at(nodes, at, name);
    mark_if(nodes, at, more);
}

// Returns whether removing an entry is a change: more is there than a folder that was made and into
// which nothing was put.
fn removal_is_change(nodes: &[Node], slot: Option<Slot>) -> bool
    requires { (c : ℕ) → child_of slot ≡ Some c → c < length nodes.now }
    ensures so { IsTrue result → IsIdle (marks_of nodes.now) slot → ⊥ }
    ensures otherwise { IsFalse result → IsIdle (marks_of nodes.now) slot }
{
    let Some(slot) = slot else {
        return false;
    };
    match slot.child {
        Some(child) => !slot.oid.is_null() || is_changed(nodes, child),
        None => true,
    }
}

/// Marks an opened tree as changed, and those that it lies in, if `changed`; otherwise nothing
/// changes.
pub(crate) fn mark_if(nodes: &mut [Node], at: NodeId, changed: bool)
    requires tree { HasTree nodes.old at.0 }
    requires marked { IsTrue changed → IsMarkedBut at.0 nodes.old }
    ensures marked { IsTrue changed → IsMarkedUp nodes.old at.0 nodes.new }
    ensures same { IsFalse changed → nodes.new ≡ nodes.old }
{
    if !changed {
        return;
    }
    let mut above = at;
    'trees: while above.0 > 0 {
        mark_at(nodes, above);
        above = parent_at(nodes, above);
    }
    mark_at(nodes, above);
}

// Marks one opened tree as changed.
fn mark_at(nodes: &mut [Node], at: NodeId)
    requires { at.0 < length nodes.old }
    ensures len { length nodes.new ≡ length nodes.old }
    ensures slots { HasSlotsOf nodes.old nodes.new }
    ensures here { marks_of nodes.new at.0
        ≡ mark_below (marks_of nodes.old at.0).parent true }
    ensures others { (i : ℕ) → i ≢ at.0
        → marks_of nodes.new i ≡ marks_of nodes.old i }
{
    let node = &mut nodes[at.0];
    node.place(node.parent, true);
}

// The tree in which an opened one lies.
fn parent_at(nodes: &[Node], at: NodeId) -> NodeId
    requires { at.0 < length nodes.now }
    ensures { result.0 ≡ (marks_of nodes.now at.0).parent }
{
    nodes[at.0].parent
}
