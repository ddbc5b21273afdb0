//! `Waiting`, `Turn`: commits that wait by time; put in, taken newest or oldest first, or all; by id or number.

ghost use Rattle.std.specs.Prelude.{◌≡◌, ◌⊎◌, ◌≤◌, ◌+◌, ◌↔◌, Bool, [], ◌∷◌, ◌++◌, Contains, IfSome, IfNone, IfOk, OnErr, OnOk, true, if◌then◌else◌};
ghost use Rattle.std.specs.List.{count_by};
ghost use Rattle.gix_traverse_commit_known.specs.Waiting.{IsFirst, numbers_of, pendings, queued_by};

use crate::nodes::Number;
use gix_hash::ObjectId;
use gix_traverse_graph::sorting::CommitTimeOrder;
use std::alloc::{AllocError, Global};
use std::collections::BTreeMap;

/// A commit that waits, with its time.
#[derive(Debug, Clone, Copy, PartialEq, Eq)]
pub struct Turn {
    /// Its committer's seconds.
    pub time: i64,
    /// Its id.
    pub id: ObjectId,
}

impl Turn {
    /// The same, by the commit's number.
    pub fn numbered(self, number: Number) -> Pending
        ensures time { result.time ≡ self.time }
        ensures number { result.number ≡ number }
    {
        Pending {
            time: self.time,
            number,
        }
    }
}

/// A commit that waits, by its number. The older is the less, and of one time the one that was met
/// first.
#[derive(Debug, Clone, Copy, PartialEq, Eq, PartialOrd, Ord)]
pub struct Pending {
    /// Its committer's seconds.
    pub time: i64,
    /// Its number.
    pub number: Number,
}

impl Pending {
    /// The same, by the commit's id.
    pub fn named(self, id: ObjectId) -> Turn
        ensures time { result.time ≡ self.time }
        ensures id { result.id ≡ id }
    {
        Turn {
            time: self.time,
            id,
        }
    }
}

/// The commits that wait, and the order in which commits were queued: also of those whose turn has
/// come since.
#[derive(Drop)]
pub struct Waiting {
    turns: BTreeMap<Pending, usize>,
    order: Vec<Pending>,
}

impl Waiting {
    /// None waits.
    pub fn new(alloc: Global) -> Waiting
        ensures { pendings result ≡ [] }
    {
        Waiting {
            turns: BTreeMap::new(alloc),
            order: Vec::new(alloc),
        }
    }

    /// One more waits, and is queued last. If no memory is left, nothing changes.
    pub fn put(&mut self, pending: Pending) -> Result<(), AllocError>
        ensures joins { OnOk result ((p : Pending) → Contains (pendings self.new) p
            ↔ ((p ≡ pending) ⊎ Contains (pendings self.old) p)) }
        ensures once { OnOk result ((passes : Pending → Bool) → count_by passes (pendings self.new)
            ≤ count_by passes (pendings self.old) + (if passes pending then 1 else 0)) }
        ensures last { OnOk result (self.new.order.items ≡ self.old.order.items ++ pending ∷ []) }
        ensures failed { OnErr result (pendings self.new ≡ pendings self.old) }
    {
        let place = self.order.len();
        self.order.reserve(1)?;
        self.turns.insert(pending, place)?;
        self.order.push(pending)?;
        Ok(())
    }

    /// Takes the one whose turn it is.
    pub fn take(&mut self, order: CommitTimeOrder) -> Option<Pending>
        ensures taken { IfSome result (λ pending. IsFirst order (pendings self.old) pending
            (pendings self.new)) }
        ensures none { IfNone result (pendings self.old ≡ []) }
        ensures emptied { IfNone result (pendings self.new ≡ []) }
        ensures order { self.new.order.items ≡ self.old.order.items }
    {
        match order {
            CommitTimeOrder::NewestFirst => match self.turns.pop_last() {
                Some((pending, _)) => Some(pending),
                None => None,
            },
            CommitTimeOrder::OldestFirst => match self.turns.pop_first() {
                Some((pending, _)) => Some(pending),
                None => None,
            },
        }
    }

    /// Returns whether none waits.
    pub fn is_empty(&self) -> bool
        ensures { (result ≡ true) ↔ (pendings self.now ≡ []) }
    {
        self.turns.is_empty()
    }

    /// None waits any more.
    pub fn clear(&mut self)
        ensures { pendings self.new ≡ [] }
    {
        self.turns.clear();
        self.order.clear();
    }

    /// Takes all that wait, in the order in which they were queued. If no memory is left, all of
    /// them still wait.
    pub fn take_all(&mut self, alloc: Global) -> Result<Vec<Number>, AllocError>
        ensures emptied { OnOk result (pendings self.new ≡ []) }
        ensures queued { IfOk result (λ numbers. numbers.items ≡ numbers_of (queued_by self.old)) }
        ensures failed { OnErr result (pendings self.new ≡ pendings self.old) }
    {
        let mut numbers = Vec::new(alloc);
        'order: for pending in &self.order {
            if self.turns.contains_key(pending) {
                numbers.push(pending.number)?;
            }
        }
        self.clear();
        Ok(numbers)
    }
}
