//! Lists in breadth order and by time: all that a `Simple` walk gives, by time over commits read first.

ghost use Rattle.std.specs.Prelude.{◌≡◌, true, IfOk, IfErr};
ghost use Rattle.gix_traverse_graph.specs.declared.parents.Parents.TheVariants.{All as AllParents};
ghost use Rattle.gix_traverse_commit_known.specs.Asked.{Answers, Asked, IsSure};
ghost use Rattle.gix_traverse_commit.specs.Simply.{IsMade, graph_of, objects_of};
ghost use Rattle.gix_traverse_commit_known.specs.Told.{rows_of};
ghost use Rattle.history_walks.specs.Asking.{OverTable};
ghost use Rattle.history_walks.specs.Faults.{WalkFault};
ghost use Rattle.history_walks.specs.Simply.{asked};

use crate::error::WalkError;
use crate::read_commits::ReadCommits;
use gix_hash::ObjectId;
use gix_object_lookup::FindInto;
use gix_traverse_commit::simple::Sorting;
use gix_traverse_commit::{All, Graph, Parents, Simple};
use std::alloc::{AllocError, Global};

// Returns the same rows again.
fn copied(rows: &Option<Graph>) -> Result<Option<Graph>, AllocError>
    ensures { IfOk result (λ copy. copy ≡ rows.now) }
{
    match rows {
        Some(graph) => Ok(Some(graph.try_clone()?)),
        None => Ok(None),
    }
}

/// Returns all commits of a walk by time.
///
/// If a lookup fails, such a walk takes the commit's time for 0 and goes on. So it goes over
/// commits that were read before. The errors are those of `list_commits`.
pub(crate) fn listed_by_time<S: FindInto>(
    alloc: Global,
    store: &S,
    rows: Option<Graph>,
    tips: Vec<ObjectId>,
    hidden: Vec<ObjectId>,
    sorting: Sorting,
) -> Result<Vec<ObjectId>, WalkError>
    ensures lists { OverTable (S.is_honest store.now) (rows_of rows) (S.table store.now) (λ g.
        IfOk result (λ ids. Answers g (asked tips.items hidden.items AllParents sorting)
        ids.items)) }
    ensures refused { OverTable (S.is_honest store.now) (rows_of rows) (S.table store.now) (λ g.
        IfErr result (WalkFault (S.may_fail store.now) (rows_of rows) (S.table store.now) g
        tips.items hidden.items)) }
{
    let commits = ReadCommits::reached(alloc, store, copied(&rows)?, &tips, &hidden, Parents::All)?;
    listed(alloc, commits, rows, tips, hidden, Parents::All, sorting)
}

/// Returns all commits of a walk in this order. The errors are those of `list_commits`.
pub(crate) fn listed<F: FindInto + Drop>(
    alloc: Global,
    store: F,
    rows: Option<Graph>,
    tips: Vec<ObjectId>,
    hidden: Vec<ObjectId>,
    parents: Parents,
    sorting: Sorting,
) -> Result<Vec<ObjectId>, WalkError>
    ensures lists { OverTable (F.is_honest store) (rows_of rows) (F.table store) (λ g.
        IsSure (F.may_fail store) (asked tips.items hidden.items parents sorting)
        → IfOk result (λ ids.
        Answers g (asked tips.items hidden.items parents sorting) ids.items)) }
    ensures refused { OverTable (F.is_honest store) (rows_of rows) (F.table store) (λ g.
        IsSure (F.may_fail store) (asked tips.items hidden.items parents sorting)
        → IfErr result (WalkFault (F.may_fail store) (rows_of rows) (F.table store) g tips.items
        hidden.items)) }
{
    let walk = Simple::new(tips, store)?
        .commit_graph(rows)
        .parents(parents)
        .hide(hidden)?;
    collect_ids(alloc, walk.sorting(sorting)?)
}

// Returns all commits of a walk. The errors are those of `list_commits`.
fn collect_ids<F: FindInto + Drop>(
    alloc: Global,
    walk: Simple<F, All>,
) -> Result<Vec<ObjectId>, WalkError>
    ensures lists { OverTable (F.is_honest (objects_of walk)) (rows_of (graph_of walk))
        (F.table (objects_of walk)) (λ g. (a : Asked)
        → IsSure (F.may_fail (objects_of walk)) a → IsMade (λ _ _. true) a walk
        → IfOk result (λ ids. Answers g a ids.items)) }
    ensures refused { OverTable (F.is_honest (objects_of walk)) (rows_of (graph_of walk))
        (F.table (objects_of walk)) (λ g. (a : Asked)
        → IsSure (F.may_fail (objects_of walk)) a → IsMade (λ _ _. true) a walk
        → IfErr result (WalkFault
        (F.may_fail (objects_of walk)) (rows_of (graph_of walk)) (F.table (objects_of walk)) g
        a.tips a.hidden)) }
{
    let mut ids = Vec::new(alloc);
    'walk: for info in walk {
        ids.push(info?.id)?;
    }
    Ok(ids)
}
