//! `Nodes`, `WalkFlags`: each commit's number and flags (met, hidden), found by its id; ids by number.

ghost use Rattle.std.specs.Prelude.{⊤, ◌≡◌, ◌++◌, ◌∷◌, ℕ, [], codes, if◌then◌else◌, IfOk, IfSome, IfNone, OnErr, OnOk, slice_get, true, false};
ghost use Rattle.std.specs.List.{list_any};
ghost use Rattle.gix_hash.specs.declared.object_id.ObjectId.{ObjectId};
ghost use Rattle.gix_traverse_graph.specs.Numbered.{same_id};
ghost use Rattle.gix_traverse_commit_known.specs.Nodes.{has, ids_of, flags_of};
ghost use Rattle.gix_traverse_graph.specs.Order.{At};
ghost use Rattle.gix_traverse_commit_known.specs.declared.nodes.TheConstants.WalkFlags.{ASKED, SEEN, UNINTERESTING};

use bitflags::{Flag, Flags, bitflag_items};
use gix_hash::ObjectId;
use indexmap::IndexSet;
use std::alloc::{AllocError, Global};
use std::marker::Model;

/// What a walk has done with a commit. `SEEN` and `UNINTERESTING` have the names and values that
/// `gix-traverse` gives them.
#[derive(Debug, Clone, Copy, PartialEq, Eq)]
pub struct WalkFlags(u8);

bitflag_items! {
    impl WalkFlags: u8 {
        /// It needs no queueing any more: it was queued, or is none that the walk gives.
        const SEEN = 1;
        /// A hidden commit reaches it.
        const UNINTERESTING = 8;
        /// The predicate was called for it as a tip.
        const ASKED = 64;
    }
}

impl Flags for WalkFlags {
    type Bits = u8;

    ghost exact = { ⊤ };

    ghost table = { (codes "SEEN", 1) ∷ (codes "UNINTERESTING", 8) ∷ (codes "ASKED", 64) ∷ [] };

    ghost set_of = { λ flags. flags.0 };

    fn flags<'a>() -> &'a [Flag<WalkFlags>] {
        WalkFlags::FLAGS
    }

    fn bits(&self) -> u8 {
        self.0
    }

    fn from_bits_retain(bits: u8) -> WalkFlags {
        WalkFlags(bits)
    }
}

impl WalkFlags {
    /// The same of a commit that is met.
    pub fn as_met(self) -> WalkFlags
        ensures met { has result SEEN ≡ true }
        ensures asked { has result ASKED ≡ has self ASKED }
        ensures hidden { has result UNINTERESTING ≡ has self UNINTERESTING }
    {
        self.union(WalkFlags::SEEN)
    }

    /// The same of a commit that isn't met.
    pub fn as_unmet(self) -> WalkFlags
        ensures met { has result SEEN ≡ false }
        ensures asked { has result ASKED ≡ has self ASKED }
        ensures hidden { has result UNINTERESTING ≡ has self UNINTERESTING }
    {
        self.difference(WalkFlags::SEEN)
    }

    /// The same of a tip for which the predicate was called.
    pub fn as_asked(self) -> WalkFlags
        ensures asked { has result ASKED ≡ true }
        ensures met { has result SEEN ≡ has self SEEN }
        ensures hidden { has result UNINTERESTING ≡ has self UNINTERESTING }
    {
        self.union(WalkFlags::ASKED)
    }

    /// The same of a commit that a hidden one reaches.
    pub fn as_hidden(self) -> WalkFlags
        ensures hidden { has result UNINTERESTING ≡ true }
        ensures asked { has result ASKED ≡ has self ASKED }
        ensures met { has result SEEN ≡ has self SEEN }
    {
        self.union(WalkFlags::UNINTERESTING)
    }

    /// The same of a commit that no hidden one reaches.
    pub fn as_shown(self) -> WalkFlags
        ensures hidden { has result UNINTERESTING ≡ false }
        ensures asked { has result ASKED ≡ has self ASKED }
        ensures met { has result SEEN ≡ has self SEEN }
    {
        self.difference(WalkFlags::UNINTERESTING)
    }
}

/// The number of a commit: its place among those that the walk knows.
#[derive(Debug, Clone, Copy, PartialEq, Eq, PartialOrd, Ord)]
pub struct Number(pub usize);

/// Nodes in the order in which their commits were met first. An id is here once.
#[derive(Drop)]
pub struct Nodes {
    ids: IndexSet<ObjectId>,
    flags: Vec<WalkFlags>,
}

impl Model for Nodes {
    ghost use Rattle.std.specs.Prelude.{List};
    ghost use Rattle.gix_traverse_commit_known.specs.Nodes.{Node};

    ghost Value = { List Node };

    ghost use Rattle.gix_traverse_commit_known.specs.Nodes.{AreNumbered, nodes_in};

    ghost view = { λ all. nodes_in all.ids.keys all.flags.items };

    ghost invariant = { λ all. AreNumbered all.ids.keys all.flags.items };
}

// The number of a commit, if it has one.
fn number_of(ids: &IndexSet<ObjectId>, id: &ObjectId) -> Option<Number>
    ensures found { IfSome result (λ number. At ids.now.keys number.0 id.now) }
    ensures none { IfNone result ((n : ℕ) → At ids.now.keys n id.now → ⊥) }
{
    let (place, _) = ids.get_full(id)?;
    Some(Number(place))
}

// All ids, in their order.
fn all_ids(ids: &IndexSet<ObjectId>, alloc: Global) -> Result<Vec<ObjectId>, AllocError>
    ensures { IfOk result (λ all. all.items ≡ ids.now.keys) }
{
    let mut all = Vec::new(alloc);
    'ids: while let Some(id) = ids.get_index(all.as_slice().len()) {
        all.push(*id)?;
    }
    Ok(all)
}

impl Nodes {
    /// No nodes.
    pub fn new(alloc: Global) -> Nodes
        ensures { result ≡ [] }
    {
        Nodes {
            ids: IndexSet::new(alloc),
            flags: Vec::new(alloc),
        }
    }

    /// The flags of a commit: none if it has no node.
    pub fn flags(&self, id: &ObjectId) -> WalkFlags
        ensures { result ≡ flags_of self.now id.now }
    {
        match number_of(&self.ids, id) {
            Some(number) => self.flags[number.0],
            None => WalkFlags::empty(),
        }
    }

    /// The commit of this number, if it has a node.
    pub fn id(&self, number: Number) -> Option<ObjectId>
        ensures id { result ≡ slice_get (ids_of self.now) number.0 }
        ensures once { (j k : ℕ) (x : ObjectId) → At (ids_of self.now) j x
            → At (ids_of self.now) k x → j ≡ k }
    {
        self.ids.get_index(number.0).copied()
    }

    /// Sets the flags of a commit, which gets a node if it has none, and returns its number. If no
    /// memory is left, nothing changes.
    pub fn mark(&mut self, id: ObjectId, flags: WalkFlags) -> Result<Number, AllocError>
        ensures marked { OnOk result ((q : ObjectId) → flags_of self.new q
            ≡ (if same_id id q then flags else flags_of self.old q)) }
        ensures named { OnOk result (ids_of self.new ≡ (if list_any (same_id id) (ids_of self.old)
            then ids_of self.old else ids_of self.old ++ id ∷ [])) }
        ensures numbered { IfOk result (λ number. At (ids_of self.new) number.0 id) }
        ensures failed { OnErr result (self.new ≡ self.old) }
    {
        if let Some(number) = number_of(&self.ids, &id) {
            self.flags[number.0] = flags;
            return Ok(number);
        }
        let number = Number(self.flags.as_slice().len());
        self.flags.reserve(1)?;
        self.ids.insert(id)?;
        self.flags.push(flags)?;
        Ok(number)
    }

    /// The ids of the commits that have nodes, in the order in which they were met first.
    pub fn ids(&self, alloc: Global) -> Result<Vec<ObjectId>, AllocError>
        ensures { IfOk result (λ ids. ids.items ≡ ids_of self.now) }
    {
        all_ids(&self.ids, alloc)
    }
}
