//! The `Tree` that an opened one is written as: its entries in Git's order, none with a null id.

ghost use Rattle.std.specs.Prelude.{◌≡◌, ◌<◌, ℕ, Some, length, map, IfOk};
ghost use Rattle.std.specs.Option.{option_map};
ghost use Rattle.gix_hash.specs.Id.{id_of};
ghost use Rattle.gix_object_tree.specs.Entry.{own_item};
ghost use Rattle.gix_object_nodes.specs.Files.{Bytes, through};
ghost use Rattle.gix_object_nodes.specs.Nodes.{slot_in, child_of};
ghost use Rattle.gix_object_nodes.specs.Marks.{changed_in, slot_if, slots_if};
ghost use Rattle.gix_object_nodes.specs.Writing.{ids_of, object_item, unless_null, written_item, IsTreeOf};

use crate::changed::changed_child;
use crate::node::{Node, NodeId, Slot};
use gix_hash::ObjectId;
use gix_object_lines::ByteString;
use gix_object_tree::Tree;
use gix_object_tree::tree::{Entry, EntryKind, EntryMode};
use std::alloc::{AllocError, Global};

/// The tree of an opened one's entries, in Git's order. Folders that edits changed have these ids
/// of their trees.
pub fn tree_of(
    node: &Node,
    nodes: &[Node],
    ids: &[Option<ObjectId>],
    alloc: Global,
) -> Result<Tree, AllocError>
    requires opened { (m : Bytes) (c : ℕ) → child_of (slot_in node.now m) ≡ Some c
        → c < length nodes.now }
    requires within { (m : Bytes) (c : ℕ) → child_of (slot_in node.now m) ≡ Some c
        → c < length ids.now }
    ensures { IfOk result (λ tree. IsTreeOf (ids_of ids.now)
        (slots_if (changed_in nodes.now) (slot_in node.now)) (map own_item tree.entries.items)) }
{
    let mut entries = Vec::new(alloc);
    for (name, slot) in &node.slots {
        if let Some(entry) = entry_of(name.as_slice(), slot, nodes, ids, alloc)? {
            entries.push(entry)?;
        }
    }
    entries.sort_unstable();
    Ok(Tree { entries })
}

// The entry that a slot is written as.
fn entry_of(
    name: &[u8],
    slot: &Slot,
    nodes: &[Node],
    ids: &[Option<ObjectId>],
    alloc: Global,
) -> Result<Option<Entry>, AllocError>
    requires opened { (c : ℕ) → child_of (Some slot.now) ≡ Some c → c < length nodes.now }
    requires within { (c : ℕ) → child_of (Some slot.now) ≡ Some c → c < length ids.now }
    ensures { IfOk result (λ entry. option_map own_item entry ≡ written_item
        (ids_of ids.now) name.now (slot_if (changed_in nodes.now) slot.now)) }
{
    let Some((mode, oid)) = object_of(slot, nodes, ids) else {
        return Ok(None);
    };
    let filename = ByteString::from_slice(alloc, name)?;
    Ok(Some(Entry {
        mode,
        filename,
        oid,
    }))
}

// What a slot's entry names: a folder that edits changed has the id of its tree. `None` if that has
// no entries.
fn object_of(slot: &Slot, nodes: &[Node], ids: &[Option<ObjectId>]) -> Option<(EntryMode, ObjectId)>
    requires opened { (c : ℕ) → child_of (Some slot.now) ≡ Some c → c < length nodes.now }
    requires within { (c : ℕ) → child_of (Some slot.now) ≡ Some c → c < length ids.now }
    ensures { (name : Bytes) → option_map (object_item name) result ≡ written_item
        (ids_of ids.now) name (slot_if (changed_in nodes.now) slot.now) }
{
    let Some(child) = changed_child(nodes, slot) else {
        return named_object(slot.mode, slot.oid);
    };
    let oid = id_at(ids, child)?;
    named_object(EntryMode::from(EntryKind::Tree), oid)
}

// The id of an opened tree.
fn id_at(ids: &[Option<ObjectId>], tree: NodeId) -> Option<ObjectId>
    requires { tree.0 < length ids.now }
    ensures { through result (λ oid. Some (id_of oid)) ≡ ids_of ids.now tree.0 }
{
    ids[tree.0]
}

// Nothing is named by the null id.
fn named_object(mode: EntryMode, oid: ObjectId) -> Option<(EntryMode, ObjectId)>
    ensures { (name : Bytes) → option_map (object_item name) result ≡ unless_null
        (object_item name (mode, oid)) }
{
    if oid.is_null() {
        return None;
    }
    Some((mode, oid))
}
