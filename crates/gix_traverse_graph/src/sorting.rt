//! `Sorting`: a walk's order, by breadth or time; the test of a cutoff, and the time that is shown.

ghost use Rattle.std.specs.Prelude.{◌≡◌, unwrap_or, pos};
ghost use Rattle.gix_hash.specs.declared.object_id.ObjectId.{ObjectId};
ghost use Rattle.gix_traverse_graph.specs.Commits.{Commit};
ghost use Rattle.gix_traverse_graph.specs.Sorting.{IsTime, timing_of, in_time};
ghost use Rattle.gix_traverse_graph.specs.declared.sorting.CommitTimeOrder.TheVariants.{NewestFirst};
ghost use Rattle.gix_traverse_graph.specs.declared.sorting.Sorting.TheVariants.{BreadthFirst};

use crate::Parents;

/// Which of the commits that are queued comes first in an order by time.
#[derive(Debug, Clone, Copy, PartialEq, Eq)]
pub enum CommitTimeOrder {
    /// The newest.
    NewestFirst,
    /// The oldest.
    OldestFirst,
}

impl Default for CommitTimeOrder {
    ghost is_default = { λ order. order ≡ NewestFirst };

    fn default() -> CommitTimeOrder {
        CommitTimeOrder::NewestFirst
    }
}

/// The order of a walk.
#[derive(Debug, Clone, Copy, PartialEq, Eq)]
pub enum Sorting {
    /// First the tips in their order, then the parents of what came, in their order.
    BreadthFirst,
    /// By the committer's seconds, among the commits that are queued.
    ByCommitTime(CommitTimeOrder),
    /// The same without commits that are older than some seconds, past which the walk doesn't go.
    ByCommitTimeCutoff {
        /// Which commit comes first.
        order: CommitTimeOrder,
        /// The seconds since 1970 of the oldest commit that the walk may give.
        seconds: i64,
    },
}

impl Default for Sorting {
    ghost is_default = { λ sorting. sorting ≡ BreadthFirst };

    fn default() -> Sorting {
        Sorting::BreadthFirst
    }
}

/// An order by time, and the seconds of the oldest commit that comes.
#[derive(Debug, Clone, Copy, PartialEq, Eq)]
pub struct Timing {
    /// Which commit comes first.
    pub order: CommitTimeOrder,
    /// The cutoff, if there is one.
    pub since: Option<i64>,
}

/// The order by time, if a walk along these parents goes by time.
pub fn time_order(parents: Parents, sorting: Sorting) -> Option<Timing>
    ensures { result ≡ timing_of parents sorting }
{
    match (parents, sorting) {
        (Parents::First, _) => None,
        (Parents::All, Sorting::BreadthFirst) => None,
        (Parents::All, Sorting::ByCommitTime(order)) => Some(Timing { order, since: None }),
        (Parents::All, Sorting::ByCommitTimeCutoff { order, seconds }) => Some(Timing {
            order,
            since: Some(seconds),
        }),
    }
}

/// Returns whether a commit of this time is no older than the cutoff.
pub fn is_in_time(since: Option<i64>, time: i64) -> bool
    ensures { result ≡ in_time since time }
{
    match since {
        Some(seconds) => seconds <= time,
        None => true,
    }
}

/// The commit's time, if the walk goes by time.
pub fn shown_time(parents: Parents, sorting: Sorting, time: Option<i64>) -> Option<i64>
    ensures { (commit : Commit ObjectId) → unwrap_or time (pos 0) ≡ commit.time
        → IsTime (timing_of parents sorting) commit result }
{
    match time_order(parents, sorting) {
        Some(_) => Some(time.unwrap_or(0)),
        None => None,
    }
}
