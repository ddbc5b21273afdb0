//! The types `Node`, an opened tree, and `Slot`, its entry: entries by name, got, put in, taken out; the parent set.

ghost use Rattle.std.specs.Prelude.{◌≡◌, ◌≢◌, ◌<◌, length, IfOk, OnOk, OnErr, Some, None, false};
ghost use Rattle.gix_object_nodes.specs.Files.{Bytes};
ghost use Rattle.gix_object_nodes.specs.Nodes.{slot_in, slots_of, HasSlotsOf};
ghost use Rattle.gix_object_nodes.specs.Marks.{mark_of, mark_below, KeepsRest};

use gix_hash::ObjectId;
use gix_object_tree::tree::EntryMode;
use std::alloc::{AllocError, Global};
use std::collections::BTreeMap;

/// The number of an opened tree.
#[derive(Debug, Clone, Copy, PartialEq, Eq)]
pub struct NodeId(pub usize);

/// An entry of an opened tree, and the number of the tree that it names, if that is opened.
#[derive(Debug, Clone, Copy)]
pub struct Slot {
    pub mode: EntryMode,
    pub oid: ObjectId,
    pub child: Option<NodeId>,
}

/// An opened tree: its entries by their names.
#[derive(Debug, Drop)]
pub struct Node {
    pub slots: BTreeMap<Vec<u8>, Slot>,
    /// The tree in which it lies; of the root nothing.
    pub parent: NodeId,
    /// Whether an edit changed it, or a tree that lies in it.
    pub changed: bool,
}

impl Node {
    /// The tree without entries. It takes no memory.
    pub fn empty(alloc: Global) -> Node
        ensures slots { (name : Bytes) → slot_in result name ≡ None }
        ensures mark { mark_of result ≡ mark_below 0 false }
    {
        Node {
            slots: BTreeMap::new(alloc),
            parent: NodeId(0),
            changed: false,
        }
    }

    /// Says in which tree it lies, and whether an edit changed it.
    pub fn place(&mut self, parent: NodeId, changed: bool)
        ensures slots { (name : Bytes) → slot_in self.new name ≡ slot_in self.old name }
        ensures mark { mark_of self.new ≡ mark_below parent.0 changed }
    {
        self.parent = parent;
        self.changed = changed;
    }

    /// The entry of this name.
    pub fn slot(&self, name: &[u8]) -> Option<Slot>
        ensures { result ≡ slot_in self.now name.now }
    {
        self.slots.get(name).copied()
    }

    /// Puts an entry in, and returns the one that it replaces. Returns `AllocError` if no memory is
    /// left; the entry is then as before.
    pub fn put(
        &mut self,
        alloc: Global,
        name: &[u8],
        slot: Slot,
    ) -> Result<Option<Slot>, AllocError>
        ensures before { IfOk result (λ before. before ≡ slot_in self.old name.now) }
        ensures here { OnOk result (slot_in self.new name.now ≡ Some slot) }
        ensures others { (other : Bytes) → other ≢ name.now
            → slot_in self.new other ≡ slot_in self.old other }
        ensures err { OnErr result (slot_in self.new name.now ≡ slot_in self.old name.now) }
        ensures mark { mark_of self.new ≡ mark_of self.old }
    {
        Ok(self.slots.insert(name.to_vec(alloc)?, slot)?)
    }

    /// Takes the entry of a name out.
    pub fn take(&mut self, name: &[u8])
        ensures here { slot_in self.new name.now ≡ None }
        ensures others { (other : Bytes) → other ≢ name.now
            → slot_in self.new other ≡ slot_in self.old other }
        ensures mark { mark_of self.new ≡ mark_of self.old }
    {
        self.slots.remove(name);
    }
}

/// The entry of a name in an opened tree.
pub fn slot_at(nodes: &[Node], at: NodeId, name: &[u8]) -> Option<Slot>
    requires { at.0 < length nodes.now }
    ensures { result ≡ slots_of nodes.now at.0 name.now }
{
    nodes[at.0].slot(name)
}

/// Puts an entry into an opened tree. If no memory is left, no entry changes.
pub fn put_at(
    nodes: &mut [Node],
    alloc: Global,
    at: NodeId,
    name: &[u8],
    slot: Slot,
) -> Result<(), AllocError>
    requires { at.0 < length nodes.old }
    ensures here { OnOk result (slots_of nodes.new at.0 name.now ≡ Some slot) }
    ensures err { OnErr result (HasSlotsOf nodes.old nodes.new) }
    ensures rest { KeepsRest nodes.old at.0 name.now nodes.new }
{
    let node = &mut nodes[at.0];
    node.put(alloc, name, slot)?;
    Ok(())
}

/// Takes the entry of a name out of an opened tree.
pub fn take_at(nodes: &mut [Node], at: NodeId, name: &[u8])
    requires { at.0 < length nodes.old }
    ensures here { slots_of nodes.new at.0 name.now ≡ None }
    ensures rest { KeepsRest nodes.old at.0 name.now nodes.new }
{
    let node = &mut nodes[at.0];
    node.take(name);
}
