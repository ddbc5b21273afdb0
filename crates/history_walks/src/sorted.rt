//! Lists by date and in topological order, parents after children: all that a `Topo` walk gives.

ghost use Rattle.std.specs.Prelude.{◌≡◌, ◌⊎◌, true, [], List, Option, Some, IfOk, IfErr};
ghost use Rattle.gix_hash.specs.declared.object_id.ObjectId.{ObjectId};
ghost use Rattle.gix_traverse_graph.specs.Commits.{Commits};
ghost use Rattle.gix_traverse_commit_known.specs.Told.{rows_of};
ghost use Rattle.gix_traverse_graph.specs.declared.rows.Row.{Row};
ghost use Rattle.gix_traverse_topo.specs.Asking.{parents_of};
ghost use Rattle.gix_traverse_topo.specs.Giving.{HasGiven};
ghost use Rattle.gix_traverse_topo.specs.Standing.{Answers, NoneReachesItself, all_accepted, topo_request};
ghost use Rattle.gix_traverse_topo.specs.declared.init.Sorting.{Sorting};
ghost use Rattle.gix_traverse_topo.specs.declared.error.Error.{Error};
ghost use Rattle.history_walks.specs.Asking.{OverTable};
ghost use Rattle.history_walks.specs.Faults.{WalkFault, as_sorted};
ghost use Rattle.history_walks.specs.declared.error.WalkError.TheVariants.{Memory};
ghost use Rattle.history_walks.specs.Sorted.{StopsSorted};

use crate::error::WalkError;
use gix_hash::ObjectId;
use gix_object_lookup::FindInto;
use gix_traverse_commit::{All, Graph, Parents};
use gix_traverse_topo::{Builder, Sorting, Topo};
use std::alloc::Global;

/// Returns all commits of a walk whose commits each come after their children. The errors are those
/// of `list_commits`.
pub(crate) fn listed<S: FindInto>(
    alloc: Global,
    store: &S,
    rows: Option<Graph>,
    tips: &[ObjectId],
    hidden: &[ObjectId],
    parents: Parents,
    sorting: Sorting,
) -> Result<Vec<ObjectId>, WalkError>
    ensures lists { OverTable (S.is_honest store.now) (rows_of rows) (S.table store.now) (λ g.
        NoneReachesItself g (topo_request tips.now hidden.now parents all_accepted)
        → IfOk result (λ ids. Answers sorting g
        (topo_request tips.now hidden.now parents all_accepted) ids.items)) }
    ensures refused { OverTable (S.is_honest store.now) (rows_of rows) (S.table store.now) (λ g.
        IfErr result (WalkFault (S.may_fail store.now) (rows_of rows) (S.table store.now) g
        tips.now hidden.now)) }
{
    let builder = Builder::from_iters(alloc, store, tips, Some(hidden))?.with_commit_graph(rows);
    collect_ids(alloc, builder.parents(parents).sorting(sorting).build()?)
}

// Returns all commits of a walk. The errors are those of `list_commits`.
fn collect_ids(alloc: Global, walk: Topo<All>) -> Result<Vec<ObjectId>, WalkError>
    ensures lists { (sorting : Sorting) (rows : List Row) (faults : ObjectId → Option Error)
        (g : Commits ObjectId) (tips ends : List ObjectId)
        → HasGiven (λ _ _. true) walk sorting rows faults g tips ends []
        → NoneReachesItself g (topo_request tips ends (parents_of walk) all_accepted)
        → IfOk result (λ ids. Answers sorting g
        (topo_request tips ends (parents_of walk) all_accepted) ids.items) }
    ensures refused { (sorting : Sorting) (rows : List Row) (faults : ObjectId → Option Error)
        (g : Commits ObjectId) (tips ends : List ObjectId)
        → HasGiven (λ _ _. true) walk sorting rows faults g tips ends []
        → IfErr result (StopsSorted faults g tips ends (parents_of walk)) }
{
    let mut ids = Vec::new(alloc);
    'walk: for info in walk {
        ids.push(info?.id)?;
    }
    Ok(ids)
}
