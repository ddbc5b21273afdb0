//! Walking down a path through opened trees: each stored tree on it is opened and attached to the tree above it.

ghost use Rattle.std.specs.Prelude.{◌≡◌, ◌<◌, ◌≤◌, ◌+◌, ◌∷◌, ◌++◌, ◌⊎◌, length, drop, IfOk, IfErr, OnErr, Ok, None, []};
ghost use Rattle.gix_hash.specs.Id.{Id};
ghost use Rattle.gix_object_nodes.specs.Files.{Path};
ghost use Rattle.gix_object_nodes.specs.Nodes.{slots_of, IsNoFolder, IsStoppedAt, Way, onto};
ghost use Rattle.gix_object_editor.specs.Refusals.{OpeningFault};
ghost use Rattle.gix_object_editor.specs.Asked.{front_of, found_into, unopened_into, Asks, AsksTo};
ghost use Rattle.gix_object_editor.specs.Grown.{HasTree, Grows, IsSame, IsAttached, IsFolderOf, IsWalked, first_of, IsUnopenedFor};
ghost use Rattle.gix_object_editor.specs.Editor.{names_of};

use crate::tree::editor::Error;
use crate::tree::editor::load::load;
use gix_object_lookup::FindInto;
use gix_object_nodes::node::{Node, NodeId, Slot, put_at, slot_at};
use std::alloc::{AllocError, Global};

/// Appends a tree to the others, and puts its number into the slot of a name.
pub(crate) fn attach(
    nodes: &mut Vec<Node>,
    alloc: Global,
    at: NodeId,
    name: &[u8],
    slot: Slot,
    tree: Node,
) -> Result<NodeId, AllocError>
    requires { at.0 < length nodes.old.items }
    ensures attached { IfOk result (IsAttached nodes.old.items at.0 name.now slot tree
        nodes.new.items) }
    ensures same { OnErr result (IsSame nodes.old.items nodes.new.items) }
{
    let child = NodeId(nodes.len());
    let mut tree = tree;
    tree.place(at, false);
    nodes.push(tree)?;
    let linked = Slot {
        mode: slot.mode,
        oid: slot.oid,
        child: Some(child),
    };
    match put_at(nodes.as_mut_slice(), alloc, at, name, linked) {
        Ok(()) => Ok(child),
        Err(error) => {
            nodes.pop();
            Err(error)
        }
    }
}

/// The folder of a name, opened; `None` if the name has none.
pub(crate) fn open<S: FindInto>(
    store: &S,
    nodes: &mut Vec<Node>,
    lookups: &mut u64,
    alloc: Global,
    at: NodeId,
    name: &[u8],
) -> Result<Option<NodeId>, Error>
    requires { HasTree nodes.old.items at.0 }
    ensures grows { Grows (S.is_honest store.now) (S.table store.now) nodes.old.items
        nodes.new.items }
    ensures found { IfOk result (IsFolderOf nodes.old.items nodes.new.items at.0 name.now) }
    ensures counted { lookups.new ≤ lookups.old + 1 }
    ensures asked { AsksTo (S.is_honest store.now) (S.may_fail store.now) (S.table store.now)
        (λ trees rest. unopened_into trees (slots_of nodes.old.items) at.0 (name.now ∷ rest))
        (λ found trees. found_into trees (slots_of nodes.new.items) found)
        lookups.old lookups.new result }
    ensures refused { IfErr result (IsUnopenedFor (S.is_honest store.now) (S.may_fail store.now)
        (S.table store.now) nodes.new.items at.0 name.now) }
{
    let Some(slot) = slot_at(nodes.as_slice(), at, name) else {
        return Ok(None);
    };
    if slot.child.is_some() {
        return Ok(slot.child);
    }
    if !slot.mode.is_tree() || slot.oid.is_null() {
        return Ok(None);
    }
    *lookups = lookups.saturating_add(1);
    let tree = load(store, alloc, slot.oid)?;
    Ok(Some(attach(nodes, alloc, at, name, slot, tree)?))
}

/// The opened tree in which a path's walk down from one ends, and how many names lead there. What
/// is left is one name alone, or begins with that of no folder.
pub(crate) fn walk<S: FindInto>(
    store: &S,
    nodes: &mut Vec<Node>,
    lookups: &mut u64,
    alloc: Global,
    from: NodeId,
    path: &[&[u8]],
) -> Result<(NodeId, usize), Error>
    requires tree { HasTree nodes.old.items from.0 }
    requires named { 0 < length path.now }
    ensures grows { Grows (S.is_honest store.now) (S.table store.now) nodes.old.items
        nodes.new.items }
    ensures within { IfOk result (λ end. (end.0.0 < length nodes.new.items)
        × (end.1 < length path.now)) }
    ensures walked { IfOk result (λ end. IsWalked nodes.old.items from.0 path.now nodes.new.items
        end.0.0 end.1) }
    ensures counted { lookups.new + 1 ≤ lookups.old + length path.now }
    ensures asked { AsksTo (S.is_honest store.now) (S.may_fail store.now) (S.table store.now)
        (λ trees more. unopened_into trees (slots_of nodes.old.items) from.0
        (front_of (names_of path.now) ++ more))
        (λ end trees more. unopened_into trees (slots_of nodes.new.items) end.0.0
        (front_of (names_of (drop end.1 path.now)) ++ more)) lookups.old lookups.new result }
    ensures refused { IfErr result (λ error. (id : Id)
        × ((way : Path) → Way (slots_of nodes.old.items) way from.0
        → IsStoppedAt (slots_of nodes.new.items) (onto way (names_of path.now)) id)
        × OpeningFault (S.is_honest store.now) (S.may_fail store.now) (S.table store.now) id error) }
{
    let mut at = from;
    let mut depth = 0;
    'names: while depth + 1 < path.len() {
        let Some(child) = open(store, nodes, lookups, alloc, at, path[depth])? else {
            return Ok((at, depth));
        };
        at = child;
        depth += 1;
    }
    Ok((at, depth))
}

/// The folder at the end of the names that a walk left, opened; `None` if there is none.
pub(crate) fn folder_below<S: FindInto>(
    store: &S,
    nodes: &mut Vec<Node>,
    lookups: &mut u64,
    alloc: Global,
    at: NodeId,
    names: &[&[u8]],
) -> Result<Option<NodeId>, Error>
    requires tree { HasTree nodes.old.items at.0 }
    requires named { 0 < length names.now }
    requires blocked { 1 < length names.now
        → IsNoFolder (slots_of nodes.old.items at.0 (first_of names.now)) }
    ensures grows { Grows (S.is_honest store.now) (S.table store.now) nodes.old.items
        nodes.new.items }
    ensures found { IfOk result (IsFolderOf nodes.old.items nodes.new.items at.0
        (first_of names.now)) }
    ensures alone { (length names.now ≡ 1) ⊎ (result ≡ Ok None) }
    ensures counted { lookups.new ≤ lookups.old + 1 }
    ensures asked { Asks (S.is_honest store.now) (S.may_fail store.now) (S.table store.now)
        (λ trees. unopened_into trees (slots_of nodes.old.items) at.0 (first_of names.now ∷ []))
        lookups.old lookups.new result }
    ensures refused { IfErr result (IsUnopenedFor (S.is_honest store.now) (S.may_fail store.now)
        (S.table store.now) nodes.new.items at.0 (first_of names.now)) }
{
    if names.len() > 1 {
        return Ok(None);
    }
    open(store, nodes, lookups, alloc, at, names[0])
}
