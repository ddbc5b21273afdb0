//! Looking a prefix up in a sorted list of ids.

ghost use Rattle.std.specs.Prelude.{◌≡◌, ◌<◌, ◌≤◌, ◌+◌, ◌*◌, ◌^◌, ℕ, length, take, ◌↔◌, true, false, IsTrue, not};
ghost use Rattle.std.specs.Ordering.{is_gt};
ghost use Rattle.std.specs.List.{slice_index_or};
ghost use Rattle.gix_hash.specs.Id.{id_of};
ghost use Rattle.gix_hash.specs.Order.{digits_cmp};
ghost use Rattle.gix_hash.specs.Beginnings.{IsBeginningOf};
ghost use Rattle.gix_hash.specs.Run.{IsAscending, HasEnoughDigits, IsMatchingRun, FallsAt, IsWithinTwiceDigits, against, comes_before};
ghost use Rattle.gix_hash.specs.declared.object_id.ObjectId.{ObjectId};

use crate::laws::order_of_views;
use crate::{ObjectId, Prefix};
use std::cmp::Ordering;

/// The ids of a sorted list that a prefix begins, and what finding them took.
#[derive(Debug, Clone, Copy, PartialEq, Eq)]
pub struct Run {
    /// The place of the first match, or the place where it would be inserted.
    pub first: usize,
    /// The place after the last match: `first` if there is none.
    pub past: usize,
    /// How often `Prefix::cmp_oid` was called.
    pub calls: usize,
}

// The two ends of the run.
#[derive(Clone, Copy)]
enum Edge {
    First,
    Past,
}

/// Returns the run of the ids that the prefix begins. The list must ascend by the ids' digits, and
/// each id must have at least as many digits as the prefix.
///
/// With the ids of the run `cmp_oid` compares the prefix as equal, with those before it as greater,
/// and with those after it as less. The search takes no memory, and calls `cmp_oid` at most twice
/// as often as the list's length has binary digits.
pub fn prefix_run(ids: &[ObjectId], prefix: &Prefix) -> Run
    requires ascending { IsAscending ids.now }
    requires enough { HasEnoughDigits ids.now prefix.now }
    ensures matches { IsMatchingRun ids.now prefix.now result.first result.past }
    ensures within { (result.first ≤ result.past) × (result.past ≤ length ids.now) }
    ensures order { FallsAt ids.now prefix.now result.first result.past }
    ensures calls { IsWithinTwiceDigits result.calls (length ids.now) }
{
    let mut calls = 0;
    let first = edge_of(ids, prefix, Edge::First, &mut calls);
    let past = edge_of(ids, prefix, Edge::Past, &mut calls);
    Run { first, past, calls }
}

/// Returns whether `prefix_run` may be called with these: the ids ascend by their digits, and have
/// at least as many as the prefix.
pub fn can_run(ids: &[ObjectId], prefix: &Prefix) -> bool
    ensures { IsTrue result ↔ (IsAscending ids.now × HasEnoughDigits ids.now prefix.now) }
{
    let hex_len = prefix.hex_len();
    'ids: for i in 0..ids.len() {
        if 2 * ids[i].as_slice().len() < hex_len {
            return false;
        }
        if i > 0 && !comes_no_later(&ids[i - 1], &ids[i]) {
            return false;
        }
    }
    true
}

// Returns whether the first id's digits come no later than the second's.
fn comes_no_later(first: &ObjectId, second: &ObjectId) -> bool
    ensures { result ≡ not (is_gt (digits_cmp (id_of first.now).digits (id_of second.now).digits)) }
{
    !order_of_views(first.as_oid(), second.as_oid()).is_gt()
}

// The number of ids before the edge.
fn edge_of(ids: &[ObjectId], prefix: &Prefix, edge: Edge, calls: &mut usize) -> usize
    requires ascending { IsAscending ids.now }
    requires enough { HasEnoughDigits ids.now prefix.now }
    requires room { calls.old ≤ 64 }
    ensures within { result ≤ length ids.now }
    ensures before { (i : ℕ) (id : ObjectId) → i < result
        → comes_before edge (against prefix.now (slice_index_or ids.now i id)) ≡ true }
    ensures after { (i : ℕ) (id : ObjectId) → result ≤ i → i < length ids.now
        → comes_before edge (against prefix.now (slice_index_or ids.now i id)) ≡ false }
    ensures calls { (k : ℕ) → length ids.now < 2 ^ k → calls.new ≤ calls.old + k }
{
    let mut low = 0;
    let mut size = ids.len();
    'halves: while size > 0 {
        let half = size / 2;
        let middle = low + half;
        if stands_before(edge, counted_cmp(prefix, &ids[middle], calls)) {
            low = middle + 1;
            size -= half + 1;
        } else {
            size = half;
        }
    }
    low
}

// Returns whether an id that compares so is before the edge.
fn stands_before(edge: Edge, order: Ordering) -> bool
    ensures { result ≡ comes_before edge order }
{
    match edge {
        Edge::First => order.is_gt(),
        Edge::Past => order.is_ge(),
    }
}

// The one call of `cmp_oid`, which it counts.
fn counted_cmp(prefix: &Prefix, id: &ObjectId, calls: &mut usize) -> Ordering
    requires enough { length prefix.now.digits ≤ length (id_of id.now).digits }
    requires room { calls.old < 1000 }
    ensures order { result ≡ against prefix.now id.now }
    ensures counted { calls.new ≡ calls.old + 1 }
{
    *calls += 1;
    prefix.cmp_oid(id.as_oid())
}
