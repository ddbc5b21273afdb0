//! Which changed trees an opened one still leads down to, each marked in turn; edits may have cut off others.

ghost use Rattle.std.specs.Prelude.{◌≡◌, ◌<◌, ◌↔◌, ◌⊎◌, ℕ, Some, length, slice_index_or, true, false, IfOk, IsTrue};
ghost use Rattle.gix_object_nodes.specs.Files.{Bytes, Path};
ghost use Rattle.gix_object_nodes.specs.Nodes.{slot_in, slots_of, child_of, IsForest, Way};
ghost use Rattle.gix_object_nodes.specs.Marks.{changed_in, slots_if, due_in};
ghost use Rattle.gix_object_nodes.specs.Writing.{IsReached};

use crate::changed::changed_child;
use crate::node::{Node, NodeId};
use std::alloc::{AllocError, Global};

/// Which changed trees this one leads down to, by their numbers, and itself. An edit may have cut
/// off others.
pub(crate) fn reached(nodes: &[Node], from: NodeId, alloc: Global) -> Result<Vec<bool>, AllocError>
    requires forest { IsForest (slots_of nodes.now) (length nodes.now) }
    requires within { from.0 < length nodes.now }
    ensures len { IfOk result (λ marks. length marks.items ≡ length nodes.now) }
    ensures leads { IfOk result (λ marks. (base : Path) → Way (due_in nodes.now from.0) base from.0
        → (j : ℕ) → (slice_index_or marks.items j false ≡ true) ↔ IsReached
        (due_in nodes.now from.0) base j) }
{
    let mut marks = vec![in alloc; false; nodes.len()]?;
    marks[from.0] = true;
    for (i, node) in nodes.iter().enumerate() {
        if marks[i] {
            mark_children(nodes, node, marks.as_mut_slice());
        }
    }
    Ok(marks)
}

// Marks the changed trees that lie in a tree.
fn mark_children(nodes: &[Node], node: &Node, marks: &mut [bool])
    requires opened { (m : Bytes) (c : ℕ) → child_of (slot_in node.now m) ≡ Some c
        → c < length nodes.now }
    requires within { (m : Bytes) (c : ℕ) → child_of (slot_in node.now m) ≡ Some c
        → c < length marks.old }
    ensures kept { (j : ℕ) → slice_index_or marks.old j false ≡ true
        → slice_index_or marks.new j false ≡ true }
    ensures children { (m : Bytes) (c : ℕ)
        → child_of (slots_if (changed_in nodes.now) (slot_in node.now) m) ≡ Some c
        → slice_index_or marks.new c false ≡ true }
    ensures others { (j : ℕ) → slice_index_or marks.new j false ≡ true
        → (slice_index_or marks.old j false ≡ true)
        ⊎ ((m : Bytes)
        × (child_of (slots_if (changed_in nodes.now) (slot_in node.now) m) ≡ Some j)) }
{
    for slot in node.slots.values() {
        if let Some(child) = changed_child(nodes, slot) {
            marks[child.0] = true;
        }
    }
}
