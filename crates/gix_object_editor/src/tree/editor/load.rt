//! Looking up the stored tree of an id, reading it, and making an opened tree (a node) of its entries.

ghost use Rattle.std.specs.Prelude.{◌≡◌, map, None, IfOk, IfErr};
ghost use Rattle.gix_hash.specs.Id.{id_of};
ghost use Rattle.gix_object_lines.specs.declared.kind.Kind.TheVariants as kinds;
ghost use Rattle.gix_object_tree.specs.Entry.{item_of};
ghost use Rattle.gix_object_tree.specs.WellFormed.{IsWellFormed};
ghost use Rattle.gix_object_lookup.specs.Existing.{Stands};
ghost use Rattle.gix_object_nodes.specs.Files.{Bytes, Trees, named};
ghost use Rattle.gix_object_editor.specs.Stored.{HasStored, OpensTree, IsReadTree};
ghost use Rattle.gix_object_nodes.specs.Nodes.{slot_in, StandsFor, child_of};
ghost use Rattle.gix_object_editor.specs.Entries.{HoldsTree};
ghost use Rattle.gix_object_editor.specs.Refusals.{TreeIsUnread, OpeningFault};

use crate::tree::editor::Error;
use gix_hash::ObjectId;
use gix_object_lines::Kind;
use gix_object_lookup::find::existing_object;
use gix_object_lookup::{self as lookup, FindInto};
use gix_object_nodes::node::{Node, Slot};
use gix_object_tree::tree::{EntryRef, TreeRef};
use std::alloc::{AllocError, Global};

/// The stored tree of this id, opened.
pub(crate) fn load<S: FindInto>(store: &S, alloc: Global, oid: ObjectId) -> Result<Node, Error>
    ensures opened { S.is_honest store.now
        → IfOk result (OpensTree (S.table store.now) (id_of oid)) }
    ensures holds { S.is_honest store.now
        → IfOk result (λ node. HoldsTree (S.table store.now) (id_of oid) (slot_in node)) }
    ensures fresh { IfOk result (λ node. (m : Bytes) → child_of (slot_in node m) ≡ None) }
    ensures refused { IfErr result (OpeningFault (S.is_honest store.now) (S.may_fail store.now)
        (S.table store.now) (id_of oid)) }
{
    let mut buffer = Vec::new(alloc);
    let tree = look_up_tree(store, alloc, oid, &mut buffer)?;
    if !tree.is_well_formed() {
        return Err(Error::MalformedTree { oid });
    }
    Ok(node_of(alloc, tree.entries.as_slice())?)
}

// The entries of the stored tree of this id.
fn look_up_tree<'a, S: FindInto>(
    store: &S,
    alloc: Global,
    oid: ObjectId,
    buffer: &'a mut Vec<u8>,
) -> Result<TreeRef<'a>, existing_object::Error>
    ensures read { IfOk result (λ tree. IsReadTree (S.is_honest store.now) (S.table store.now)
        (id_of oid) (map item_of tree.entries.items)) }
    ensures refused { IfErr result (TreeIsUnread (S.is_honest store.now) (S.may_fail store.now)
        (S.table store.now) (id_of oid)) }
{
    let content = content_of(store, oid, buffer)?;
    match TreeRef::from_bytes(alloc, content, oid.kind()) {
        Ok(tree) => Ok(tree),
        Err(source) => Err(existing_object::Error::Decode { oid, source }),
    }
}

// The content of the stored tree of this id.
fn content_of<'a, S: FindInto>(
    store: &S,
    oid: ObjectId,
    buffer: &'a mut Vec<u8>,
) -> Result<&'a [u8], existing_object::Error>
    ensures found { S.is_honest store.now
        → IfOk result (λ content. Stands (S.table store.now) (id_of oid) kinds.Tree content.now) }
    ensures refused { IfErr result (TreeIsUnread (S.is_honest store.now) (S.may_fail store.now)
        (S.table store.now) (id_of oid)) }
{
    Ok(lookup::content_of(store, oid.as_oid(), Kind::Tree, buffer)?)
}

// The node of a well-formed tree of these entries.
fn node_of(alloc: Global, entries: &[EntryRef<'_>]) -> Result<Node, AllocError>
    requires { IsWellFormed (map item_of entries.now) }
    ensures { IfOk result (λ node. (m : Bytes)
        → StandsFor (slot_in node m) (named m (map item_of entries.now))) }
{
    let mut node = Node::empty(alloc);
    for (i, entry) in entries.iter().enumerate() {
        let slot = Slot {
            mode: entry.mode,
            oid: ObjectId::from(entry.oid),
            child: None,
        };
        node.put(alloc, entry.filename.as_bytes(), slot)?;
    }
    Ok(node)
}
