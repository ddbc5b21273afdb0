//! `Known`: numbers and reads commits, or their faults; counts children not yet given; finds commits without any.

ghost use Rattle.std.specs.Prelude.{◌≡◌, ◌↔◌, true, ◌+◌, ◌^◌, ◌<◌, ◌≤◌, ◌==◌, ◌⊎◌, ℕ, [], length, OnOk, IfOk, IfErr, IfSome, IfNone, Some, None, slice_get, slice_set};
ghost use Rattle.indexmap.specs.IndexSet.{insert_key};
ghost use Rattle.gix_hash.specs.declared.object_id.ObjectId.{ObjectId};
ghost use Rattle.gix_traverse_graph.specs.Commits.{asked};
ghost use Rattle.gix_traverse_commit_known.specs.Fetching.{LooksUpAtMost, ReadsSame};
ghost use Rattle.gix_traverse_commit_known.specs.Meeting.{CountsOne};
ghost use Rattle.gix_traverse_graph.specs.Numbered.{same_id};
ghost use Rattle.gix_traverse_graph.specs.Order.{At};
ghost use Rattle.gix_traverse_graph.specs.Rows.{AllHeld, Holds};
ghost use Rattle.gix_traverse_commit_known.specs.Told.{rows_of};
ghost use Rattle.gix_traverse_commit_known.specs.declared.nodes.WalkFlags.{WalkFlags};
ghost use Rattle.gix_traverse_topo.specs.Nodes.{all_facts, all_flags, counts, hidden_in, is_hidden, AreFirst, IsBlank, AreFacts, NamesAre, IsOnce};
ghost use Rattle.gix_traverse_topo.specs.Turns.{times};
ghost use Rattle.gix_traverse_topo.specs.Waiting.{IsFree};
ghost use Rattle.gix_traverse_topo.specs.declared.error.Error.TheVariants.{Memory, MissingStateUnexpected, MissingIndegreeUnexpected};
ghost use Rattle.gix_traverse_topo.specs.declared.known.Node.{Node};
ghost use Rattle.gix_traverse_topo.specs.declared.known.Facts.{Facts};

use crate::Error;
use crate::ready::Pending;
use bitflags::Flags;
use gix_hash::ObjectId;
use gix_object_lookup::FindInto;
use gix_traverse_commit_known::fetch::{FetchError, Source, asked_of};
use gix_traverse_commit_known::nodes::WalkFlags;
use gix_traverse_graph::{Info, ParentIds, Parents};
use indexmap::IndexSet;
use std::alloc::Global;
use std::mem;

/// The number of a commit: its place among those that the walk knows.
#[derive(Debug, Clone, Copy, PartialEq, Eq, PartialOrd, Ord)]
pub(crate) struct Number(pub usize);

/// What was read of a commit. One that isn't read counts as one without parents, of time 0.
#[derive(Drop)]
pub(crate) struct Facts {
    /// The ids of all its parents.
    pub parents: ParentIds,
    /// Its committer's seconds.
    pub time: i64,
    /// The generation in its row, if it has one.
    pub generation: Option<u32>,
    /// Why it isn't read.
    pub fault: Option<Error>,
}

/// A commit that the walk knows.
#[derive(Drop)]
pub(crate) struct Node {
    /// What was read of it.
    pub facts: Facts,
    /// How often it is named as a parent by the commits that are still to be given.
    pub names: usize,
    /// `UNINTERESTING` if the ends reach it, and no other.
    pub flags: WalkFlags,
}

/// The commits that a walk knows: first those that the ends reach, then those that the tips reach
/// past none of these.
#[derive(Drop)]
pub(crate) struct Known {
    /// Their ids. A commit's number is its place here.
    pub ids: IndexSet<ObjectId>,
    /// What is known of each, by its number.
    pub nodes: Vec<Node>,
    ghost hidden_first: { AreFirst (all_flags nodes.items) },
}

// What fills the place of a commit until it is read.
fn unread_facts(alloc: Global) -> Facts
    ensures { result.parents.items ≡ [] }
{
    Facts {
        parents: ParentIds::new(alloc),
        time: 0,
        generation: None,
        fault: None,
    }
}

// What fills the place of a commit that isn't read, for this fault.
fn failed_facts(alloc: Global, fault: FetchError) -> Result<Facts, Error>
    ensures blank { IfOk result (IsBlank fault) }
    ensures refused { IfErr result (λ error. error ≡ Memory) }
{
    match fault {
        FetchError::Memory => Err(Error::Memory),
        other => Ok(Facts {
            parents: ParentIds::new(alloc),
            time: 0,
            generation: None,
            fault: Some(Error::from(other)),
        }),
    }
}

// Reads a commit.
fn read<F: FindInto>(source: &mut Source<F>, id: &ObjectId) -> Result<Facts, Error>
    ensures reads { LooksUpAtMost 1 source.old source.new }
    ensures one { CountsOne (rows_of source.old.rows) id.now source.old.lookups source.new.lookups }
    ensures read { IfOk result (AreFacts (F.is_honest source.old.objects)
        (F.may_fail source.old.objects) (rows_of source.old.rows) (F.table source.old.objects)
        id.now) }
    ensures closed { Holds (rows_of source.old.rows) id.now
        → IfOk result (λ facts. AllHeld (rows_of source.old.rows) facts.parents.items) }
    ensures refused { IfErr result (λ error. error ≡ Memory) }
{
    let alloc: Global = *source.buffer.allocator();
    match source.fetch(id, Parents::All) {
        Ok(commit) => Ok(Facts {
            parents: commit.parents,
            time: commit.time.unwrap_or(0),
            generation: commit.generation,
            fault: None,
        }),
        Err(fault) => failed_facts(alloc, fault),
    }
}

// Counts one more name of a commit.
fn add_name(nodes: &mut Vec<Node>, number: Number) -> Result<(), Error>
    ensures all_facts { all_facts nodes.new.items ≡ all_facts nodes.old.items }
    ensures flags { all_flags nodes.new.items ≡ all_flags nodes.old.items }
    ensures added { OnOk result ((count : ℕ) × At (counts nodes.old.items) number.0 count
        × (counts nodes.new.items ≡ slice_set (counts nodes.old.items) number.0 (count + 1))) }
    ensures refused { IfErr result (λ error. (error ≡ Memory)
        ⊎ (length nodes.old.items ≤ number.0)) }
{
    let names = nodes
        .get(number.0)
        .ok_or(Error::MissingStateUnexpected)?
        .names;
    nodes[number.0].names = names.checked_add(1).ok_or(Error::Memory)?;
    Ok(())
}

// Replaces what filled the place of a commit by what was read of it.
fn put_facts(nodes: &mut Vec<Node>, number: Number, facts: Facts) -> Result<(), Error>
    ensures as_many { length nodes.new.items ≡ length nodes.old.items }
    ensures counts { counts nodes.new.items ≡ counts nodes.old.items }
    ensures flags { all_flags nodes.new.items ≡ all_flags nodes.old.items }
    ensures put { OnOk result (At (all_facts nodes.new.items) number.0 facts) }
    ensures others { (k : ℕ) (other : Facts) → (k ≡ number.0 → ⊥)
        → At (all_facts nodes.old.items) k other → At (all_facts nodes.new.items) k other }
    ensures refused { IfErr result (λ _. length nodes.old.items ≤ number.0) }
{
    if nodes.as_slice().len() <= number.0 {
        return Err(Error::MissingStateUnexpected);
    }
    nodes[number.0].facts = facts;
    Ok(())
}

/// Counts a name of a commit off, and returns whether it was the last.
pub(crate) fn take_name(nodes: &mut Vec<Node>, number: Number) -> Result<bool, Error>
    ensures as_many { length nodes.new.items ≡ length nodes.old.items }
    ensures all_facts { all_facts nodes.new.items ≡ all_facts nodes.old.items }
    ensures flags { all_flags nodes.new.items ≡ all_flags nodes.old.items }
    ensures taken { IfOk result (λ last. (count : ℕ)
        × At (counts nodes.old.items) number.0 (count + 1)
        × (counts nodes.new.items ≡ slice_set (counts nodes.old.items) number.0 count)
        × (last ≡ (count == 0))) }
    ensures refused { IfErr result (λ error. (error ≡ MissingStateUnexpected
        × (length (counts nodes.old.items) ≤ number.0)) ⊎ (error ≡ MissingIndegreeUnexpected
        × At (counts nodes.old.items) number.0 0)) }
{
    let names = nodes
        .get(number.0)
        .ok_or(Error::MissingStateUnexpected)?
        .names;
    let left = names
        .checked_sub(1)
        .ok_or(Error::MissingIndegreeUnexpected)?;
    nodes[number.0].names = left;
    Ok(left == 0)
}

/// Flags all commits as uninteresting: the ends reach them.
pub(crate) fn hide_all(nodes: &mut Vec<Node>)
    ensures all_facts { all_facts nodes.new.items ≡ all_facts nodes.old.items }
    ensures flags { (n : ℕ) (flags : WalkFlags) → At (all_flags nodes.new.items) n flags
        → is_hidden flags ≡ true }
{
    'places: for place in 0..nodes.as_slice().len() {
        nodes[place].flags = nodes[place].flags.as_hidden();
    }
}

// The parents, which are handed out.
fn take_parents(facts: &mut Facts, alloc: Global) -> ParentIds
    ensures { result.items ≡ facts.old.parents.items }
{
    mem::replace(&mut facts.parents, ParentIds::new(alloc))
}

impl Known {
    ghost use Rattle.gix_traverse_topo.specs.Walking.{CountsNew, Meets, Names, Visits, WalksAll};

    /// No commits.
    pub fn new(alloc: Global) -> Known
        ensures ids { result.ids.keys ≡ [] }
        ensures nodes { result.nodes.items ≡ [] }
    {
        Known {
            ids: IndexSet::new(alloc),
            nodes: Vec::new(alloc),
        }
    }

    // The commit of this number.
    fn id_at(&self, place: usize) -> Option<ObjectId>
        ensures id { result ≡ slice_get self.now.ids.keys place }
        ensures room { IfSome result (λ _. place + 1 < 2 ^ 64) }
        ensures small { place < 2 ^ 64 }
    {
        if place < self.ids.len() {
            self.ids.get_index(place).copied()
        } else {
            None
        }
    }

    // The number of a commit, a new one if it has none.
    fn number(&mut self, id: &ObjectId) -> Result<Number, Error>
        ensures hidden { hidden_in self.new.nodes.items ≡ hidden_in self.old.nodes.items }
        ensures keys { OnOk result
            (self.new.ids.keys ≡ insert_key same_id self.old.ids.keys id.now) }
        ensures number { IfOk result (λ number. At self.new.ids.keys number.0 id.now) }
        ensures told { OnOk result ((k : ℕ) (facts : Facts)
            → At (all_facts self.old.nodes.items) k facts
            → At (all_facts self.new.nodes.items) k facts) }
        ensures many { OnOk result (length self.old.nodes.items ≡ length self.old.ids.keys
            → length self.new.nodes.items ≡ length self.new.ids.keys) }
        ensures names { OnOk result ((low : ℕ) (names : ObjectId → ℕ)
            → length self.old.nodes.items ≡ length self.old.ids.keys
            → NamesAre low self.old.ids.keys (counts self.old.nodes.items) names
            → NamesAre low self.new.ids.keys (counts self.new.nodes.items) names) }
        ensures refused { IfErr result (λ error. error ≡ Memory) }
    {
        let (place, is_new) = self.ids.insert_full(*id)?;
        if is_new {
            let alloc: Global = *self.nodes.allocator();
            self.nodes.push(Node {
                facts: unread_facts(alloc),
                names: 0,
                flags: WalkFlags::empty(),
            })?;
        }
        Ok(Number(place))
    }

    // Numbers the commits that have no number yet.
    fn meet(&mut self, met: &[ObjectId]) -> Result<(), Error>
        ensures hidden { hidden_in self.new.nodes.items ≡ hidden_in self.old.nodes.items }
        ensures meets { OnOk result (Meets met.now self.old.ids.keys self.old.nodes.items
            self.new.ids.keys self.new.nodes.items) }
        ensures names { OnOk result (Names (λ _. 0) self.old.ids.keys self.old.nodes.items
            self.new.ids.keys self.new.nodes.items) }
        ensures refused { IfErr result (λ error. error ≡ Memory) }
    {
        'met: for id in met {
            self.number(id)?;
        }
        Ok(())
    }

    // Numbers the parents that have no number yet, and counts a name of each.
    fn name_all(&mut self, parents: &[ObjectId]) -> Result<(), Error>
        ensures hidden { hidden_in self.new.nodes.items ≡ hidden_in self.old.nodes.items }
        ensures meets { OnOk result (Meets parents.now self.old.ids.keys self.old.nodes.items
            self.new.ids.keys self.new.nodes.items) }
        ensures names { OnOk result (Names (λ y. times (same_id y) parents.now) self.old.ids.keys
            self.old.nodes.items self.new.ids.keys self.new.nodes.items) }
        ensures refused { length self.old.nodes.items ≡ length self.old.ids.keys
            → IfErr result (λ error. error ≡ Memory) }
    {
        'row: for id in parents {
            let number = self.number(id)?;
            add_name(&mut self.nodes, number)?;
        }
        Ok(())
    }

    // Reads the commit of this number, and numbers and counts its parents that the walk goes along.
    fn visit<F: FindInto>(
        &mut self,
        source: &mut Source<F>,
        number: Number,
        id: &ObjectId,
        along: Parents,
    ) -> Result<(), Error>
        ensures hidden { hidden_in self.new.nodes.items ≡ hidden_in self.old.nodes.items }
        ensures reads { LooksUpAtMost 1 source.old source.new }
        ensures one { CountsOne (rows_of source.old.rows) id.now source.old.lookups
            source.new.lookups }
        ensures visited { OnOk result (Visits (F.is_honest source.old.objects)
            (F.may_fail source.old.objects) (rows_of source.old.rows) (F.table source.old.objects)
            along number.0 id.now self.old.ids.keys self.old.nodes.items self.new.ids.keys
            self.new.nodes.items) }
        ensures held { Holds (rows_of source.old.rows) id.now
            → AllHeld (rows_of source.old.rows) self.old.ids.keys
            → OnOk result (AllHeld (rows_of source.old.rows) self.new.ids.keys) }
        ensures refused { length self.old.nodes.items ≡ length self.old.ids.keys
            → number.0 < length self.old.ids.keys → IfErr result (λ error. error ≡ Memory) }
    {
        let facts = read(source, id)?;
        self.name_all(asked_of(facts.parents.as_slice(), along))?;
        put_facts(&mut self.nodes, number, facts)?;
        Ok(())
    }

    /// Numbers and reads all that the tips reach and that isn't known yet, and counts how often
    /// these name each as a parent that the walk goes along. Fails only for memory: a commit that
    /// can't be read keeps its fault.
    pub fn walk<F: FindInto>(
        &mut self,
        source: &mut Source<F>,
        tips: &[ObjectId],
        along: Parents,
    ) -> Result<(), Error>
        ensures hidden { hidden_in self.new.nodes.items ≡ hidden_in self.old.nodes.items }
        ensures same { ReadsSame source.old source.new }
        ensures walks { OnOk result (WalksAll (F.is_honest source.old.objects)
            (F.may_fail source.old.objects) (rows_of source.old.rows) (F.table source.old.objects)
            along tips.now self.old.ids.keys self.old.nodes.items self.new.ids.keys
            self.new.nodes.items) }
        ensures counts { OnOk result (CountsNew (rows_of source.old.rows) tips.now self.old
            source.old.lookups self.new source.new.lookups) }
        ensures refused { length self.old.nodes.items ≡ length self.old.ids.keys
            → IfErr result (λ error. error ≡ Memory) }
    {
        let mut place = self.nodes.as_slice().len();
        self.meet(tips)?;
        'walk: while let Some(id) = self.id_at(place) {
            self.visit(source, Number(place), &id, along)?;
            place += 1;
        }
        Ok(())
    }

    /// Why a commit isn't read, if there is one that isn't.
    pub fn first_fault(&self) -> Option<Error>
        ensures fault { IfSome result (λ error. (n : ℕ) × (facts : Facts)
            × At (all_facts self.now.nodes.items) n facts × (facts.fault ≡ Some error)) }
        ensures none { IfNone result ((n : ℕ) (facts : Facts)
            → At (all_facts self.now.nodes.items) n facts → facts.fault ≡ None) }
    {
        'nodes: for node in self.nodes.as_slice() {
            if let Some(error) = node.facts.fault {
                return Some(error);
            }
        }
        None
    }

    // Returns whether the ends reach this commit.
    fn is_hidden(&self, number: Number) -> bool
        ensures { (result ≡ true) ↔ (number.0 < hidden_in self.now.nodes.items) }
    {
        match self.nodes.get(number.0) {
            Some(node) => node.flags.contains(WalkFlags::UNINTERESTING),
            None => false,
        }
    }

    /// The number of a commit, unless it has none or the ends reach it.
    pub fn number_of(&self, id: &ObjectId) -> Option<Number>
        ensures found { IfSome result (λ number. (hidden_in self.now.nodes.items ≤ number.0)
            × At self.now.ids.keys number.0 id.now) }
        ensures none { IfNone result (IsOnce self.now.ids.keys → (n : ℕ)
            → At self.now.ids.keys n id.now → n < hidden_in self.now.nodes.items) }
    {
        let (place, _) = self.ids.get_full(id)?;
        let number = Number(place);
        if self.is_hidden(number) {
            None
        } else {
            Some(number)
        }
    }

    /// Of the parents that the walk goes along the one at this index.
    pub fn parent(&self, number: Number, index: usize, along: Parents) -> Option<ObjectId>
        ensures parent { (facts : Facts) → At (all_facts self.now.nodes.items) number.0 facts
            → result ≡ slice_get (asked along facts.parents.items) index }
        ensures room { IfSome result (λ _. index + 1 < 2 ^ 64) }
    {
        let node = self.nodes.get(number.0)?;
        asked_of(node.facts.parents.as_slice(), along)
            .get(index)
            .copied()
    }

    /// A commit that waits for its turn.
    pub fn pending(&self, number: Number) -> Option<Pending>
        ensures pending { IfSome result (λ pending. (pending.number ≡ number)
            × ((facts : Facts) × At (all_facts self.now.nodes.items) number.0 facts
            × (pending.time ≡ facts.time))) }
        ensures none { IfNone result (length (all_facts self.now.nodes.items) ≤ number.0) }
    {
        let node = self.nodes.get(number.0)?;
        Some(Pending {
            time: node.facts.time,
            number,
        })
    }

    // Returns whether the ends don't reach this commit, and none that is still to be given names it.
    fn is_free(&self, number: Number) -> bool
        ensures { (result ≡ true) ↔ ((hidden_in self.now.nodes.items ≤ number.0)
            × At (counts self.now.nodes.items) number.0 0) }
    {
        match self.nodes.get(number.0) {
            Some(node) => node.names == 0 && !self.is_hidden(number),
            None => false,
        }
    }

    /// Those that the tips reach and none names, in the order of their numbers. Returns `Memory` if
    /// no memory is left.
    pub fn without_children(&self, alloc: Global) -> Result<Vec<Pending>, Error>
        ensures free { IfOk result (λ first. IsFree (hidden_in self.now.nodes.items)
            (all_facts self.now.nodes.items) (counts self.now.nodes.items) first.items) }
        ensures refused { IfErr result (λ error. error ≡ Memory) }
    {
        let mut first: Vec<Pending> = Vec::new(alloc);
        'commits: for place in 0..self.nodes.as_slice().len() {
            let number = Number(place);
            if self.is_free(number) {
                if let Some(pending) = self.pending(number) {
                    first.push(pending)?;
                }
            }
        }
        Ok(first)
    }

    /// Tests that this commit is read. The error says why it isn't.
    pub fn check(&self, number: Number) -> Result<(), Error>
        ensures read { OnOk result ((facts : Facts)
            → At (all_facts self.now.nodes.items) number.0 facts → facts.fault ≡ None) }
        ensures refused { IfErr result (λ error. (facts : Facts)
            → At (all_facts self.now.nodes.items) number.0 facts → facts.fault ≡ Some error) }
    {
        let node = self
            .nodes
            .get(number.0)
            .ok_or(Error::MissingStateUnexpected)?;
        match node.facts.fault {
            Some(error) => Err(error),
            None => Ok(()),
        }
    }

    /// What is given of a commit, whose parents are handed out. Fails if no commit has the number.
    pub fn take(&mut self, number: Number) -> Result<Info, Error>
        ensures as_many { length self.new.nodes.items ≡ length self.old.nodes.items }
        ensures ids { self.new.ids ≡ self.old.ids }
        ensures hidden { hidden_in self.new.nodes.items ≡ hidden_in self.old.nodes.items }
        ensures counts { counts self.new.nodes.items ≡ counts self.old.nodes.items }
        ensures others { (k : ℕ) (facts : Facts) → (k ≡ number.0 → ⊥)
            → At (all_facts self.new.nodes.items) k facts
            → At (all_facts self.old.nodes.items) k facts }
        ensures taken { IfOk result (λ info. At self.old.ids.keys number.0 info.id
            × ((facts : Facts) × At (all_facts self.old.nodes.items) number.0 facts
            × (info.parent_ids.items ≡ facts.parents.items)
            × (info.generation ≡ facts.generation) × (info.commit_time ≡ Some facts.time))) }
        ensures refused { IfErr result (λ _. (length (all_facts self.old.nodes.items) ≤ number.0)
            ⊎ (length self.old.ids.keys ≤ number.0)) }
    {
        let alloc: Global = *self.nodes.allocator();
        let id = *self
            .ids
            .get_index(number.0)
            .ok_or(Error::MissingStateUnexpected)?;
        let node = self
            .nodes
            .get(number.0)
            .ok_or(Error::MissingStateUnexpected)?;
        let generation = node.facts.generation;
        let time = node.facts.time;
        let parent_ids = take_parents(&mut self.nodes[number.0].facts, alloc);
        Ok(Info {
            id,
            parent_ids,
            generation,
            commit_time: Some(time),
        })
    }
}
