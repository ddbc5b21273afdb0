//! Entries of opened trees, looked at: the one at the end of a path, and whether an entry is there already.

ghost use Rattle.std.specs.Prelude.{◌≡◌, ◌<◌, length, map, option_map, slice_index_or, IsTrue, IsFalse, None, []};
ghost use Rattle.gix_object_tree.specs.Entry.{item_of};
ghost use Rattle.gix_object_nodes.specs.Nodes.{slot_in, slots_of, child_of, leaf_in, entry_at, entry_in, IsForest, IsEntry};

use bstr::BStr;
use gix_object_nodes::node::{Node, NodeId, Slot, slot_at};
use gix_object_tree::tree::EntryRef;

/// The entry at the end of a path that begins at an opened tree; `None` if there is none, or a tree
/// above it isn't opened.
pub(crate) fn entry_from<'a>(
    nodes: &'a [Node],
    from: NodeId,
    path: &[&'a [u8]],
) -> Option<EntryRef<'a>>
    requires forest { IsForest (slots_of nodes.now) (length nodes.now) }
    requires within { from.0 < length nodes.now }
    ensures { option_map item_of result ≡ entry_at (slots_of nodes.now) from.0
        (map (λ n. n.now) path.now) }
{
    if path.is_empty() {
        return None;
    }
    let mut at = from;
    let mut depth = 0;
    'names: while depth + 1 < path.len() {
        at = child_at(nodes, at, path[depth])?;
        depth += 1;
    }
    entry_of(&nodes[at.0], path[depth])
}

/// Returns whether this is the entry of a lone name in an opened tree already, and no tree was
/// opened for it.
pub(crate) fn stands_already(nodes: &[Node], at: NodeId, names: &[&[u8]], slot: Slot) -> bool
    requires within { at.0 < length nodes.now }
    requires named { 0 < length names.now }
    ensures so { IsTrue result → (length names.now ≡ 1)
        × IsEntry (slots_of nodes.now at.0 (slice_index_or (map (λ n. n.now) names.now) 0 []))
        (leaf_in slot) }
    ensures otherwise { IsFalse result → length names.now ≡ 1
        → IsEntry (slots_of nodes.now at.0 (slice_index_or (map (λ n. n.now) names.now) 0 []))
        (leaf_in slot) → ⊥ }
{
    if names.len() > 1 {
        return false;
    }
    match slot_at(nodes, at, names[0]) {
        Some(there) => is_entry(there, slot),
        None => false,
    }
}

// Returns whether two slots are the same entry, and no tree was opened for the first.
fn is_entry(there: Slot, slot: Slot) -> bool
    ensures so { IsTrue result → (leaf_in there ≡ leaf_in slot) × (there.child ≡ None) }
    ensures otherwise { IsFalse result → leaf_in there ≡ leaf_in slot → there.child ≡ None → ⊥ }
{
    there.child.is_none() && there.mode == slot.mode && there.oid == slot.oid
}

// The opened tree of a name in another.
fn child_at(nodes: &[Node], at: NodeId, name: &[u8]) -> Option<NodeId>
    requires { at.0 < length nodes.now }
    ensures { option_map (λ c. c.0) result ≡ child_of (slots_of nodes.now at.0 name.now) }
{
    slot_at(nodes, at, name)?.child
}

// The entry of a name in an opened tree.
fn entry_of<'a>(node: &'a Node, name: &'a [u8]) -> Option<EntryRef<'a>>
    ensures { option_map item_of result ≡ entry_in name.now (slot_in node.now name.now) }
{
    let slot = node.slots.get(name)?;
    Some(EntryRef {
        mode: slot.mode,
        filename: BStr::new(name),
        oid: slot.oid.as_oid(),
    })
}
