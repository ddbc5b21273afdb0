//! `breadth_first`: the walk over rows alone; its queue, seen commits, parents and hidden commits; `WalkError`.

ghost use Rattle.std.specs.Prelude.{◌≡◌, List, [], ◌∷◌, ◌++◌, length, IfOk, IfErr, OnOk, OnErr, IfSome, IfNone, IsNone, IsSome, if◌then◌else◌, true};
ghost use Rattle.std.specs.HashSet.{contains};
ghost use Rattle.gix_hash.specs.declared.object_id.ObjectId.{ObjectId};
ghost use Rattle.gix_traverse_graph.specs.Numbered.{same_id};
ghost use Rattle.gix_traverse_graph.specs.Order.{IsBreadthFirst};
ghost use Rattle.gix_traverse_graph.specs.RowCommits.{commits_of};
ghost use Rattle.gix_traverse_graph.specs.Rows.{Holds};
ghost use Rattle.gix_traverse_graph.specs.Standing.{Walked, Reads, StandsAt, GoesTo, OfMissing, IsMissing, plain_request, ways};
ghost use Rattle.gix_traverse_graph.specs.Walks.{InBreadth};
ghost use Rattle.gix_traverse_graph.specs.declared.walk.WalkError.TheVariants.{Memory};

use crate::{Graph, Parents};
use gix_hash::ObjectId;
use std::alloc::{AllocError, Global};
use std::collections::{HashSet, VecDeque};
use thiserror::Error;

/// Why a walk over rows ends early.
#[derive(Debug, Clone, Copy, PartialEq, Eq, Error)]
pub enum WalkError {
    /// The walk came to this commit, which has no row.
    #[error("the commit {0} has no row")]
    Missing(ObjectId),
    /// There is no memory for the walk.
    #[error("there is no memory for the walk")]
    Memory,
}

impl From<AllocError> for WalkError {
    ghost from_gives = { λ _ error. error ≡ Memory };

    fn from(_error: AllocError) -> Self {
        WalkError::Memory
    }
}

/// The parents of a commit that a walk goes along, if it has a row.
fn parents_along<'g>(rows: &'g Graph, id: &ObjectId, parents: Parents) -> Option<&'g [ObjectId]>
    ensures stored { IsSome result → Holds rows.now id.now }
    ensures missing { IfNone result (¬ Holds rows.now id.now) }
    ensures names { IfSome result (λ names. names.now ≡ ways rows.now parents id.now) }
{
    let all = rows.parents_of(id)?;
    match parents {
        Parents::All => Some(all),
        Parents::First => {
            if all.is_empty() {
                Some(all)
            } else {
                Some(&all[..1])
            }
        }
    }
}

/// Keeps a commit as seen.
fn mark_seen(seen: &mut HashSet<ObjectId>, id: ObjectId) -> Result<(), AllocError>
    ensures { OnOk result ((q : ObjectId) → contains same_id seen.new q
        ≡ (if same_id id q then true else contains same_id seen.old q)) }
{
    seen.insert(id)?;
    Ok(())
}

/// Queues a commit that was not seen before.
pub(crate) fn meet(
    seen: &mut HashSet<ObjectId>,
    queue: &mut VecDeque<ObjectId>,
    id: ObjectId,
) -> Result<(), AllocError>
    ensures queued { OnOk result (queue.new.items
        ≡ (if contains same_id seen.old id then queue.old.items else queue.old.items ++ id ∷ [])) }
    ensures seen { OnOk result ((q : ObjectId) → contains same_id seen.new q
        ≡ (if same_id id q then true else contains same_id seen.old q)) }
{
    if seen.insert(id)? {
        queue.push_back(id)?;
    }
    Ok(())
}

/// Queues the parents of a commit, or says that it has no row.
fn queue_parents(
    rows: &Graph,
    parents: Parents,
    seen: &mut HashSet<ObjectId>,
    queue: &mut VecDeque<ObjectId>,
    id: ObjectId,
) -> Result<(), WalkError>
    ensures stored { OnOk result (Holds rows.now id) }
    ensures missing { IfErr result (OfMissing (λ x. (x ≡ id) × (¬ Holds rows.now id))) }
    ensures entered { OnOk result ((tips hides listed : List ObjectId)
        → Walked (ways rows.now parents) tips hides (λ q. contains same_id seen.old q)
        (listed ++ queue.old.items) (length listed) 0
        → Reads (listed ++ queue.old.items) (length listed) id
        → StandsAt rows.now parents (λ q. contains same_id seen.new q) queue.new.items tips hides
        listed) }
{
    let Some(names) = parents_along(rows, &id, parents) else {
        return Err(WalkError::Missing(id));
    };
    'parents: for parent in names {
        meet(seen, queue, *parent)?;
    }
    Ok(())
}

/// A walk, in breadth order.
#[derive(Drop)]
struct Walk<'g> {
    rows: &'g Graph,
    parents: Parents,
    seen: HashSet<ObjectId>,
    queue: VecDeque<ObjectId>,
}

impl<'g> Walk<'g> {
    /// A walk that lists nothing of `hides`, and passes through nothing of it.
    fn without(
        alloc: Global,
        rows: &'g Graph,
        tips: &[ObjectId],
        hides: &[ObjectId],
        parents: Parents,
    ) -> Result<Self, WalkError>
        ensures rows { IfOk result (λ walk. walk.rows.now ≡ rows.now) }
        ensures parents { IfOk result (λ walk. walk.parents ≡ parents) }
        ensures walked { IfOk result (λ walk. StandsAt rows.now parents
            (λ q. contains same_id walk.seen q) walk.queue.items tips.now hides.now []) }
        ensures failed { IfErr result (λ error. error ≡ Memory) }
    {
        let mut seen: HashSet<ObjectId> = HashSet::new(alloc);
        let mut queue: VecDeque<ObjectId> = VecDeque::new(alloc);
        'hides: for id in hides {
            mark_seen(&mut seen, *id)?;
        }
        'tips: for tip in tips {
            meet(&mut seen, &mut queue, *tip)?;
        }
        Ok(Walk {
            rows,
            parents,
            seen,
            queue,
        })
    }

    /// The next commit. After an error there is none.
    fn next(&mut self) -> Option<Result<ObjectId, WalkError>>
        ensures rows { self.new.rows.now ≡ self.old.rows.now }
        ensures parents { self.new.parents ≡ self.old.parents }
        ensures stored { IfSome result (λ r. IfOk r (λ id. Holds self.old.rows.now id)) }
        ensures more { IfSome result (λ r. IfOk r (λ id. (tips hides listed : List ObjectId)
            → StandsAt self.old.rows.now self.old.parents (λ q. contains same_id self.old.seen q)
            self.old.queue.items tips hides listed
            → StandsAt self.old.rows.now self.old.parents (λ q. contains same_id self.new.seen q)
            self.new.queue.items tips hides (listed ++ id ∷ []))) }
        ensures missing { IfSome result (λ r. IfErr r (OfMissing
            (λ id. (¬ Holds self.old.rows.now id) × ((tips hides listed : List ObjectId)
            → StandsAt self.old.rows.now self.old.parents (λ q. contains same_id self.old.seen q)
            self.old.queue.items tips hides listed
            → GoesTo self.old.rows.now self.old.parents tips hides id)))) }
        ensures end { IfNone result (self.old.queue.items ≡ []) }
        ensures failed { IfSome result (λ r. OnErr r (self.new.queue.items ≡ [])) }
        ensures ended { self.old.queue.items ≡ [] → IsNone result }
    {
        let id = self.queue.pop_front()?;
        match queue_parents(self.rows, self.parents, &mut self.seen, &mut self.queue, id) {
            Ok(()) => Some(Ok(id)),
            Err(error) => {
                self.queue.clear();
                Some(Err(error))
            }
        }
    }
}

/// Appends a commit to those that are listed.
fn append(listed: &mut Vec<ObjectId>, id: ObjectId) -> Result<(), AllocError>
    ensures { OnOk result (listed.new.items ≡ listed.old.items ++ id ∷ []) }
{
    listed.push(id)?;
    Ok(())
}

/// All that the tips reach past nothing of `hides`, in breadth order.
fn list_all(
    alloc: Global,
    rows: &Graph,
    tips: &[ObjectId],
    hides: &[ObjectId],
    parents: Parents,
) -> Result<Vec<ObjectId>, WalkError>
    ensures listed { IfOk result (λ out. IsBreadthFirst (ways rows.now parents) tips.now
        (GoesTo rows.now parents tips.now hides.now) out.items) }
    ensures missing { IfErr result (OfMissing (λ id. (¬ Holds rows.now id)
        × GoesTo rows.now parents tips.now hides.now id)) }
{
    let mut walk = Walk::without(alloc, rows, tips, hides, parents)?;
    let mut listed: Vec<ObjectId> = Vec::new(alloc);
    'walk: while let Some(item) = walk.next() {
        let id = item?;
        append(&mut listed, id)?;
    }
    Ok(listed)
}

/// What the tips reach along these parents and the hidden commits don't reach along any, in breadth
/// order, each once.
///
/// Returns `Missing` if a commit that the walk or a hidden commit comes to has no row, and `Memory`
/// if there is no memory for the walk.
pub fn breadth_first(
    alloc: Global,
    rows: &Graph,
    tips: &[ObjectId],
    hidden: &[ObjectId],
    parents: Parents,
) -> Result<Vec<ObjectId>, WalkError>
    ensures listed { IfOk result (λ out. InBreadth (commits_of rows.now)
        (plain_request tips.now hidden.now parents) out.items) }
    ensures missing { IfErr result (OfMissing
        (IsMissing rows.now (plain_request tips.now hidden.now parents))) }
{
    let hides = list_all(alloc, rows, hidden, &[], Parents::All)?;
    let listed = list_all(alloc, rows, tips, hides.as_slice(), parents)?;
    Ok(listed)
}
