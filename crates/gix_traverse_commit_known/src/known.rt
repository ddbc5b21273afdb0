//! `Known`: flags commits, queues them or lets them wait, takes the first queued or due, clears; their ids.

ghost use Rattle.std.specs.Prelude.{◌≡◌, ◌↔◌, ◌≤◌, ◌+◌, ◌++◌, ◌∷◌, [], if◌then◌else◌, IfOk, IfSome, IfNone, OnOk, true};
ghost use Rattle.gix_hash.specs.Id.{Id};
ghost use Rattle.gix_hash.specs.declared.object_id.ObjectId.{ObjectId};
ghost use Rattle.gix_traverse_commit_known.specs.Ending.{times_in, times_waiting};
ghost use Rattle.gix_traverse_commit_known.specs.Known.{turns_of, waited_of};
ghost use Rattle.gix_traverse_commit_known.specs.Nodes.{ids_of, flags_of};
ghost use Rattle.gix_traverse_graph.specs.Numbered.{same_id};
ghost use Rattle.gix_traverse_commit_known.specs.Queueing.{QueuesBehind};
ghost use Rattle.gix_traverse_commit_known.specs.Timely.{IsTaken, Joins};

use crate::nodes::{Nodes, Number, WalkFlags};
use crate::waiting::{Turn, Waiting};
use gix_hash::ObjectId;
use gix_traverse_graph::sorting::CommitTimeOrder;
use std::alloc::{AllocError, Global};
use std::collections::VecDeque;
use std::marker::Model;

/// The commits that a walk knows, and those that are queued or wait, by their numbers. Ids are only
/// in the nodes.
#[derive(Drop)]
pub struct Known {
    nodes: Nodes,
    queue: VecDeque<Number>,
    waiting: Waiting,
}

impl Model for Known {
    ghost use Rattle.gix_traverse_commit_known.specs.Known.{KnownCommits};

    ghost Value = { KnownCommits };

    ghost use Rattle.gix_traverse_commit_known.specs.Known.{ids_at};
    ghost use Rattle.gix_traverse_commit_known.specs.Waiting.{pendings};

    ghost view = { λ all. record {
      nodes = all.nodes;
      queue = ids_at all.nodes all.queue.items;
      pending = pendings all.waiting;
      order = all.waiting.order.items;
    } };

    ghost use Rattle.gix_traverse_commit_known.specs.Known.{AreKnown};

    ghost invariant = { λ all. AreKnown all.nodes all.queue.items (pendings all.waiting) };
}

// Appends these numbers to those that are queued.
fn push_all(queue: &mut VecDeque<Number>, numbers: &[Number]) -> Result<(), AllocError>
    ensures { OnOk result (queue.new.items ≡ queue.old.items ++ numbers.now) }
{
    'numbers: for number in numbers {
        queue.push_back(*number)?;
    }
    Ok(())
}

impl Known {
    /// None is known.
    pub fn new(alloc: Global) -> Known
        ensures nodes { result.nodes ≡ [] }
        ensures queue { result.queue ≡ [] }
        ensures turns { turns_of result ≡ [] }
    {
        Known {
            nodes: Nodes::new(alloc),
            queue: VecDeque::new(alloc),
            waiting: Waiting::new(alloc),
        }
    }

    /// The flags of a commit: none if it has no node.
    pub fn flags(&self, id: &ObjectId) -> WalkFlags
        ensures { result ≡ flags_of self.now.nodes id.now }
    {
        self.nodes.flags(id)
    }

    /// Sets the flags of a commit, which gets a node if it has none.
    pub fn mark(&mut self, id: ObjectId, flags: WalkFlags) -> Result<(), AllocError>
        ensures marked { OnOk result ((q : ObjectId) → flags_of self.new.nodes q
            ≡ (if same_id id q then flags else flags_of self.old.nodes q)) }
        ensures queue { OnOk result (self.new.queue ≡ self.old.queue) }
        ensures turns { OnOk result (turns_of self.new ≡ turns_of self.old) }
        ensures behind { OnOk result (QueuesBehind self.old [] self.new) }
    {
        self.nodes.mark(id, flags)?;
        Ok(())
    }

    /// Sets the flags of a commit, which gets a node if it has none, and queues it last.
    pub fn enqueue(&mut self, id: ObjectId, flags: WalkFlags) -> Result<(), AllocError>
        ensures marked { OnOk result ((q : ObjectId) → flags_of self.new.nodes q
            ≡ (if same_id id q then flags else flags_of self.old.nodes q)) }
        ensures queued { OnOk result (self.new.queue ≡ self.old.queue ++ id ∷ []) }
        ensures turns { OnOk result (turns_of self.new ≡ turns_of self.old) }
    {
        let number = self.nodes.mark(id, flags)?;
        self.queue.push_back(number)?;
        Ok(())
    }

    /// Sets the flags of a commit, which gets a node if it has none, and lets it wait.
    pub fn wait(&mut self, turn: Turn, flags: WalkFlags) -> Result<(), AllocError>
        ensures marked { OnOk result ((q : ObjectId) → flags_of self.new.nodes q
            ≡ (if same_id turn.id q then flags else flags_of self.old.nodes q)) }
        ensures queue { OnOk result (self.new.queue ≡ self.old.queue) }
        ensures joins { OnOk result (Joins true (turns_of self.old) turn (turns_of self.new)) }
        ensures once { OnOk result ((id : Id) → times_waiting (turns_of self.new) id
            ≤ times_waiting (turns_of self.old) id + times_in (turn.id ∷ []) id) }
        ensures behind { OnOk result (QueuesBehind self.old (turn.id ∷ []) self.new) }
    {
        let number = self.nodes.mark(turn.id, flags)?;
        self.waiting.put(turn.numbered(number))?;
        Ok(())
    }

    /// Takes what is queued first.
    pub fn take_queued(&mut self) -> Option<ObjectId>
        ensures nodes { self.new.nodes ≡ self.old.nodes }
        ensures first { IfSome result (λ id. self.old.queue ≡ id ∷ self.new.queue) }
        ensures none { IfNone result (self.old.queue ≡ []) }
        ensures emptied { IfNone result (self.new.queue ≡ []) }
        ensures turns { turns_of self.new ≡ turns_of self.old }
    {
        let number = self.queue.pop_front()?;
        self.nodes.id(number)
    }

    /// Takes the commit whose turn it is.
    pub fn take_turn(&mut self, order: CommitTimeOrder) -> Option<Turn>
        ensures nodes { self.new.nodes ≡ self.old.nodes }
        ensures queue { self.new.queue ≡ self.old.queue }
        ensures taken { IfSome result (λ turn. IsTaken order (turns_of self.old) turn
            (turns_of self.new)) }
        ensures none { IfNone result (turns_of self.old ≡ []) }
        ensures emptied { IfNone result (turns_of self.new ≡ []) }
        ensures order { self.new.order ≡ self.old.order }
    {
        let pending = self.waiting.take(order)?;
        let id = self.nodes.id(pending.number)?;
        Some(pending.named(id))
    }

    /// Queues all that wait, in the order in which they were queued.
    pub fn queue_waiting(&mut self, alloc: Global) -> Result<(), AllocError>
        ensures nodes { self.new.nodes ≡ self.old.nodes }
        ensures queued { OnOk result (self.new.queue ≡ self.old.queue ++ waited_of self.old) }
        ensures emptied { OnOk result (turns_of self.new ≡ []) }
    {
        let numbers = self.waiting.take_all(alloc)?;
        if let Err(error) = push_all(&mut self.queue, numbers.as_slice()) {
            self.queue.clear();
            return Err(error);
        }
        Ok(())
    }

    /// Returns whether nothing is queued or waits.
    pub fn is_idle(&self) -> bool
        ensures { (result ≡ true) ↔ ((self.now.queue ≡ []) × (turns_of self.now ≡ [])) }
    {
        self.queue.is_empty() && self.waiting.is_empty()
    }

    /// Nothing is queued or waits any more.
    pub fn clear(&mut self)
        ensures nodes { self.new.nodes ≡ self.old.nodes }
        ensures queue { self.new.queue ≡ [] }
        ensures turns { turns_of self.new ≡ [] }
    {
        self.queue.clear();
        self.waiting.clear();
    }

    /// The ids of the commits that have nodes, in the order in which they were met first.
    pub fn ids(&self, alloc: Global) -> Result<Vec<ObjectId>, AllocError>
        ensures { IfOk result (λ ids. ids.items ≡ ids_of self.now.nodes) }
    {
        self.nodes.ids(alloc)
    }
}
