//! Putting an entry below an opened tree, in folders that are made for it; and making folders alone.

ghost use Rattle.std.specs.Prelude.{◌≡◌, ◌≢◌, ◌<◌, length, IfOk, OnOk, OnErr, Some, None, []};
ghost use Rattle.std.specs.List.{All};
ghost use Rattle.gix_hash.specs.Id.{id_of};
ghost use Rattle.gix_object_nodes.specs.Files.{Bytes};
ghost use Rattle.gix_object_nodes.specs.Nodes.{slot_in, slots_of, leaf_in, IsFolderAt};
ghost use Rattle.gix_object_nodes.specs.Marks.{mark_of, mark_below};
ghost use Rattle.gix_object_editor.specs.Editor.{names_of};
ghost use Rattle.gix_object_editor.specs.Entries.{made_leaf};
ghost use Rattle.gix_object_editor.specs.Grown.{HasTree, IsSame, KeepsFront, first_of};
ghost use Rattle.gix_object_editor.specs.Laid.{IsLadder, IsLaid, AreMade};

use gix_hash::{Kind, ObjectId};
use gix_object_nodes::node::{Node, NodeId, Slot, put_at, take_at};
use gix_object_tree::tree::{EntryKind, EntryMode};
use std::alloc::{AllocError, Global};

/// Puts an entry at the end of the names below an opened tree, in folders that are made for it, and
/// returns the tree that it is in. What was at the first name is cut off. The folders are marked
/// so. Without memory nothing changes.
pub(crate) fn lay_entry(
    nodes: &mut Vec<Node>,
    alloc: Global,
    at: NodeId,
    names: &[&[u8]],
    slot: Slot,
    changed: bool,
) -> Result<NodeId, AllocError>
    requires tree { HasTree nodes.old.items at.0 }
    requires named { 0 < length names.now }
    requires unopened { slot.child ≡ None }
    requires plain { 1 < length names.now
        → IsFolderAt (slots_of nodes.old.items) at.0 (first_of names.now) None }
    ensures laid { IfOk result (λ end. IsLaid nodes.old.items at.0 names.now slot changed
        nodes.new.items end.0) }
    ensures same { OnErr result (IsSame nodes.old.items nodes.new.items) }
{
    if names.len() == 1 {
        put_at(nodes.as_mut_slice(), alloc, at, names[0], slot)?;
        return Ok(at);
    }
    let before = nodes.len();
    match put_below_folders(nodes, alloc, at, names, slot, changed) {
        Ok(end) => Ok(end),
        Err(error) => {
            nodes.truncate(before);
            Err(error)
        }
    }
}

/// Makes folders at the names below an opened tree, the last without entries, and returns the last.
/// What was at the first name is cut off. The folders are marked so. Without memory nothing
/// changes.
pub(crate) fn make_folders(
    nodes: &mut Vec<Node>,
    alloc: Global,
    at: NodeId,
    names: &[&[u8]],
    hash: Kind,
    changed: bool,
) -> Result<NodeId, AllocError>
    requires tree { HasTree nodes.old.items at.0 }
    requires named { 0 < length names.now }
    requires plain { IsFolderAt (slots_of nodes.old.items) at.0 (first_of names.now) None }
    requires full { All (λ name. name ≢ []) (names_of names.now) }
    ensures made { IfOk result (λ end. AreMade nodes.old.items at.0 names.now hash changed
        nodes.new.items end.0) }
    ensures same { OnErr result (IsSame nodes.old.items nodes.new.items) }
{
    // An entry in the last folder, which is removed again: once the folders are there, nothing can
    // fail.
    let no_name: &[u8] = &[];
    let mut path = names.to_vec(alloc)?;
    path.push(no_name)?;
    let slot = Slot {
        mode: EntryMode::from(EntryKind::Tree),
        oid: ObjectId::null(hash),
        child: None,
    };
    let end = lay_entry(nodes, alloc, at, path.as_slice(), slot, changed)?;
    take_at(nodes.as_mut_slice(), end, no_name);
    Ok(end)
}

// Puts an entry below more than one name. Without memory there may be more trees, to which none
// leads.
fn put_below_folders(
    nodes: &mut Vec<Node>,
    alloc: Global,
    at: NodeId,
    names: &[&[u8]],
    slot: Slot,
    changed: bool,
) -> Result<NodeId, AllocError>
    requires tree { HasTree nodes.old.items at.0 }
    requires named { 1 < length names.now }
    requires unopened { slot.child ≡ None }
    requires plain { IsFolderAt (slots_of nodes.old.items) at.0 (first_of names.now) None }
    ensures laid { IfOk result (λ end. IsLaid nodes.old.items at.0 names.now slot changed
        nodes.new.items end.0) }
    ensures front { OnErr result (KeepsFront nodes.old.items nodes.new.items) }
{
    let first = NodeId(nodes.len());
    push_ladder(nodes, alloc, at, &names[1..], slot, changed)?;
    let end = NodeId(nodes.len() - 1);
    put_at(
        nodes.as_mut_slice(),
        alloc,
        at,
        names[0],
        folder(slot.oid, first),
    )?;
    Ok(end)
}

// Appends trees to the others, each with the slot of one name, which leads to the next tree. The
// last has the given slot. The first is to lie in this tree.
fn push_ladder(
    nodes: &mut Vec<Node>,
    alloc: Global,
    at: NodeId,
    names: &[&[u8]],
    slot: Slot,
    changed: bool,
) -> Result<(), AllocError>
    requires { 0 < length names.now }
    ensures front { KeepsFront nodes.old.items nodes.new.items }
    ensures ladder { OnOk result (IsLadder nodes.old.items at.0 names.now slot changed
        nodes.new.items) }
{
    let mut above = at;
    for (i, name) in names.iter().enumerate() {
        let rung = if i + 1 < names.len() {
            folder(slot.oid, NodeId(nodes.len() + 1))
        } else {
            slot
        };
        let this = NodeId(nodes.len());
        nodes.push(tree_of_one_entry(alloc, above, name, rung, changed)?)?;
        above = this;
    }
    Ok(())
}

// The tree with this entry alone, which is to lie in another.
fn tree_of_one_entry(
    alloc: Global,
    above: NodeId,
    name: &[u8],
    slot: Slot,
    changed: bool,
) -> Result<Node, AllocError>
    ensures here { IfOk result (λ node. slot_in node name.now ≡ Some slot) }
    ensures others { IfOk result (λ node. (m : Bytes) → m ≢ name.now → slot_in node m ≡ None) }
    ensures mark { IfOk result (λ node. mark_of node ≡ mark_below above.0 changed) }
{
    let mut node = Node::empty(alloc);
    node.place(above, changed);
    node.put(alloc, name, slot)?;
    Ok(node)
}

// The slot of an opened tree that has no id yet, of the hash function of the other id.
fn folder(like: ObjectId, child: NodeId) -> Slot
    ensures linked { result.child ≡ Some child }
    ensures leaf { leaf_in result ≡ made_leaf (id_of like).kind }
{
    Slot {
        mode: EntryMode::from(EntryKind::Tree),
        oid: ObjectId::null(like.kind()),
        child: Some(child),
    }
}
