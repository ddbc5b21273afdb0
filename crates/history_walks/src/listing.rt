//! Lists of commits on request (`Request`): in an order, by time with a cutoff, from tips past hidden commits.

ghost use Rattle.std.specs.Prelude.{◌≡◌, IfOk, IfErr, Some};
ghost use Rattle.gix_traverse_graph.specs.Sorting.{timing_of};
ghost use Rattle.gix_traverse_commit_known.specs.Told.{rows_of};
ghost use Rattle.gix_traverse_graph.specs.declared.parents.Parents.TheVariants.{All as AllParents};
ghost use Rattle.gix_traverse_topo.specs.Standing.{NoneReachesItself};
ghost use Rattle.history_walks.specs.Asking.{IsInOrder, OverTable, request_of};
ghost use Rattle.history_walks.specs.Faults.{WalkFault};

use crate::error::WalkError;
use crate::{simply, sorted};
use gix_hash::ObjectId;
use gix_object_lookup::FindInto;
use gix_traverse_commit::simple::{CommitTimeOrder, Sorting};
use gix_traverse_commit::{Graph, Parents};
use gix_traverse_topo as topo;
use std::alloc::Global;

/// In which order commits are listed, and along which parents.
#[derive(Clone, Copy)]
pub enum Order {
    /// First the tips in their order, then the parents of what came, in their order.
    Breadth(Parents),
    /// The newest of the tips and of the parents of what came is next.
    Newest {
        /// The seconds since 1970 of the oldest commit that is listed, if there is such a bound.
        since: Option<i64>,
    },
    /// The oldest of these is next.
    Oldest {
        /// The seconds since 1970 of the oldest commit that is listed, if there is such a bound.
        since: Option<i64>,
    },
    /// The newest commit whose children are all listed is next.
    Date(Parents),
    /// Each commit comes after all its children, and lines of history aren't mixed.
    Topological(Parents),
}

/// Which commits are listed: those that the tips reach, past all that the hidden commits reach.
#[derive(Drop)]
pub struct Request {
    /// In which order.
    pub order: Order,
    /// The tips.
    pub tips: Vec<ObjectId>,
    /// The hidden commits.
    pub hidden: Vec<ObjectId>,
}

/// Returns the requested commits, in their order, each once. A commit that has a row isn't looked
/// up in the store.
///
/// The error is `Failed` if a lookup failed, `Broken` if a commit that the tips or the hidden
/// commits reach has no row and isn't stored or can't be read, and `Memory` if no memory is left.
pub fn list_commits<S: FindInto>(
    alloc: Global,
    store: &S,
    rows: Option<Graph>,
    request: Request,
) -> Result<Vec<ObjectId>, WalkError>
    ensures lists { OverTable (S.is_honest store.now) (rows_of rows) (S.table store.now) (λ g.
        NoneReachesItself g (request_of request)
        → IfOk result (λ ids. IsInOrder request.order g (request_of request) ids.items)) }
    ensures refused { OverTable (S.is_honest store.now) (rows_of rows) (S.table store.now) (λ g.
        IfErr result (WalkFault (S.may_fail store.now) (rows_of rows) (S.table store.now) g
        request.tips.items request.hidden.items)) }
{
    let Request {
        order,
        tips,
        hidden,
    } = request;
    match order {
        Order::Breadth(parents) => {
            simply::listed(
                alloc,
                store,
                rows,
                tips,
                hidden,
                parents,
                Sorting::BreadthFirst,
            )
        }
        Order::Newest { since } => {
            let sorting = by_time(CommitTimeOrder::NewestFirst, since);
            simply::listed_by_time(alloc, store, rows, tips, hidden, sorting)
        }
        Order::Oldest { since } => {
            let sorting = by_time(CommitTimeOrder::OldestFirst, since);
            simply::listed_by_time(alloc, store, rows, tips, hidden, sorting)
        }
        Order::Date(parents) => {
            let sorting = topo::Sorting::DateOrder;
            sorted::listed(alloc, store, rows, &tips, &hidden, parents, sorting)
        }
        Order::Topological(parents) => {
            let sorting = topo::Sorting::TopoOrder;
            sorted::listed(alloc, store, rows, &tips, &hidden, parents, sorting)
        }
    }
}

// Returns the order by time with this cutoff, if there is one.
fn by_time(order: CommitTimeOrder, since: Option<i64>) -> Sorting
    ensures { timing_of AllParents result ≡ Some (record { order = order; since = since }) }
{
    match since {
        None => Sorting::ByCommitTime(order),
        Some(seconds) => Sorting::ByCommitTimeCutoff { order, seconds },
    }
}
