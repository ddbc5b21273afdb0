//! `Ready`: commits whose children are all given: added, popped by date or topology, or cleared.

ghost use Rattle.std.specs.Prelude.{◌≡◌, OnOk, IfOk, IfSome, IfNone, [], ◌∷◌, IsPermutation};
ghost use Rattle.gix_traverse_topo.specs.Waiting.{waiting, Sorted, Joined, Popped};

use crate::Sorting;
use crate::known::Number;
use std::alloc::{AllocError, AllocFailed};
use std::collections::BinaryHeap;

/// A commit that waits for its turn. The newer is the greater, and of one time the one with the
/// greater number.
#[derive(Debug, Clone, Copy, PartialEq, Eq, PartialOrd, Ord)]
pub(crate) struct Pending {
    /// Its committer's seconds.
    pub time: i64,
    /// Its number.
    pub number: Number,
}

/// The commits that may be given next.
#[derive(Drop)]
pub(crate) enum Ready {
    /// The newest is given first.
    ByDate(BinaryHeap<Pending>),
    /// The one at the end is given first.
    Topological(Vec<Pending>),
}

impl Ready {
    /// Those that wait at first.
    pub fn new(sorting: Sorting, mut first: Vec<Pending>) -> Result<Ready, AllocError>
        ensures same { IfOk result (λ ready. IsPermutation first.items (waiting ready)) }
        ensures sorted { IfOk result (Sorted sorting) }
    {
        match sorting {
            Sorting::DateOrder => Ok(Ready::ByDate(BinaryHeap::from(first))),
            Sorting::TopoOrder => {
                first.sort()?;
                Ok(Ready::Topological(first))
            }
        }
    }

    /// One more waits. If no memory is left, the error holds it.
    pub fn push(&mut self, pending: Pending) -> Result<(), AllocFailed<Pending>>
        ensures { OnOk result (Joined self.old (pending ∷ []) self.new) }
    {
        match self {
            Ready::ByDate(heap) => heap.push(pending),
            Ready::Topological(stack) => stack.push(pending),
        }
    }

    /// The one whose turn it is.
    pub fn pop(&mut self) -> Option<Pending>
        ensures popped { IfSome result (λ pending. Popped self.old pending self.new) }
        ensures none { IfNone result (waiting self.old ≡ []) }
        ensures over { IfNone result (waiting self.new ≡ []) }
    {
        match self {
            Ready::ByDate(heap) => heap.pop(),
            Ready::Topological(stack) => stack.pop(),
        }
    }

    /// None waits any more.
    pub fn clear(&mut self)
        ensures { waiting self.new ≡ [] }
    {
        match self {
            Ready::ByDate(heap) => heap.clear(),
            Ready::Topological(stack) => stack.clear(),
        }
    }
}
