//! `Builder`: sets tips, ends, order, parents, rows, predicate; `build` explores what ends and tips reach.

ghost use Rattle.std.specs.Prelude.{◌≡◌, ◌+◌, ◌≤◌, ◌++◌, [], length, IfOk, IfErr, IfSome, IfNone, IsOk, None};
ghost use Rattle.gix_hash.specs.declared.object_id.ObjectId.{ObjectId};
ghost use Rattle.gix_traverse_commit_known.specs.Fetching.{ReadsSame};
ghost use Rattle.gix_traverse_commit_known.specs.Meeting.{CountsAll};
ghost use Rattle.gix_traverse_graph.specs.Rows.{AllHeld, Holds};
ghost use Rattle.gix_traverse_commit_known.specs.Told.{rows_of};
ghost use Rattle.gix_traverse_graph.specs.declared.parents.Parents.TheVariants.{All as AllParents};
ghost use Rattle.gix_traverse_topo.specs.Asking.{asked_of, commits_of, lookups_of, parents_of, predicate_of};
ghost use Rattle.gix_traverse_topo.specs.Exploring.{IsPainted, IsExplored};
ghost use Rattle.gix_traverse_topo.specs.Faults.{IsBuildFault};
ghost use Rattle.gix_traverse_topo.specs.Giving.{BeginsAs};
ghost use Rattle.gix_traverse_topo.specs.declared.error.Error.TheVariants.{Memory};
ghost use Rattle.gix_traverse_topo.specs.declared.init.Sorting.TheVariants.{DateOrder};

use crate::known::{Known, hide_all};
use crate::ready::Ready;
use crate::{Error, Topo};
use gix_hash::ObjectId;
use gix_object_lookup::FindInto;
use gix_traverse_commit_known::fetch::Source;
use gix_traverse_commit_known::{Accept, All};
use gix_traverse_graph::{Graph, Parents};
use std::alloc::Global;

/// Which of the commits whose children are all given comes next.
#[derive(Debug, Clone, Copy, PartialEq, Eq)]
pub enum Sorting {
    /// The newest.
    DateOrder,
    /// The one whose child was given last, so that lines of history aren't mixed.
    TopoOrder,
}

impl Default for Sorting {
    ghost is_default = { λ sorting. sorting ≡ DateOrder };

    fn default() -> Sorting {
        Sorting::DateOrder
    }
}

/// What a walk is to list, and from where.
#[derive(Drop)]
pub struct Builder<F, P> {
    find: F,
    predicate: P,
    tips: Vec<ObjectId>,
    ends: Vec<ObjectId>,
    sorting: Sorting,
    parents: Parents,
    rows: Option<Graph>,
}

// These ids, with others after them.
fn with_more(mut ids: Vec<ObjectId>, more: &[ObjectId]) -> Result<Vec<ObjectId>, Error>
    ensures all { IfOk result (λ all. all.items ≡ ids.items ++ more.now) }
    ensures whole { more.now ≡ [] → IsOk result }
    ensures refused { IfErr result (λ error. error ≡ Memory) }
{
    ids.extend_from_slice(more)?;
    Ok(ids)
}

impl<F: FindInto + Drop> Builder<F, All> {
    /// A walk over the objects of this store, without tips or ends, by date and along all parents.
    pub fn new(alloc: Global, find: F) -> Builder<F, All>
        ensures objects { (asked_of result).objects ≡ find }
        ensures tips { (asked_of result).tips ≡ [] }
        ensures ends { (asked_of result).ends ≡ [] }
        ensures sorting { (asked_of result).sorting ≡ DateOrder }
        ensures parents { (asked_of result).parents ≡ AllParents }
        ensures graph { (asked_of result).graph ≡ None }
    {
        Builder {
            find,
            predicate: All,
            tips: Vec::new(alloc),
            ends: Vec::new(alloc),
            sorting: Sorting::DateOrder,
            parents: Parents::All,
            rows: None,
        }
    }

    /// A walk from these tips, without what the ends reach. Returns `Memory` if there is no memory
    /// for them.
    pub fn from_iters(
        alloc: Global,
        find: F,
        tips: &[ObjectId],
        ends: Option<&[ObjectId]>,
    ) -> Result<Builder<F, All>, Error>
        ensures objects { IfOk result (λ builder. (asked_of builder).objects ≡ find) }
        ensures tips { IfOk result (λ builder. (asked_of builder).tips ≡ tips.now) }
        ensures ends { IfSome ends.entry (λ ids. IfOk result (λ builder. (asked_of builder).ends
            ≡ ids.now)) }
        ensures no_ends { IfNone ends.entry (IfOk result (λ builder. (asked_of builder).ends
            ≡ [])) }
        ensures sorting { IfOk result (λ builder. (asked_of builder).sorting ≡ DateOrder) }
        ensures parents { IfOk result (λ builder. (asked_of builder).parents ≡ AllParents) }
        ensures graph { IfOk result (λ builder. (asked_of builder).graph ≡ None) }
        ensures refused { IfErr result (λ error. error ≡ Memory) }
    {
        let builder = Builder::new(alloc, find).with_tips(tips)?;
        match ends {
            Some(ends) => builder.with_ends(ends),
            None => Ok(builder),
        }
    }
}

impl<F: FindInto + Drop, P: Accept + Drop> Builder<F, P> {
    /// The same walk, which gives only the commits that the predicate accepts. It goes through the
    /// others all the same.
    pub fn with_predicate<Q: Accept + Drop>(self, predicate: Q) -> Builder<F, Q>
        ensures predicate { (asked_of result).predicate ≡ predicate }
        ensures objects { (asked_of result).objects ≡ (asked_of self).objects }
        ensures tips { (asked_of result).tips ≡ (asked_of self).tips }
        ensures ends { (asked_of result).ends ≡ (asked_of self).ends }
        ensures sorting { (asked_of result).sorting ≡ (asked_of self).sorting }
        ensures parents { (asked_of result).parents ≡ (asked_of self).parents }
        ensures graph { (asked_of result).graph ≡ (asked_of self).graph }
    {
        Builder {
            find: self.find,
            predicate,
            tips: self.tips,
            ends: self.ends,
            sorting: self.sorting,
            parents: self.parents,
            rows: self.rows,
        }
    }

    /// The same walk with further tips. Returns `Memory` if there is no memory for them; none takes
    /// none.
    pub fn with_tips(self, tips: &[ObjectId]) -> Result<Builder<F, P>, Error>
        ensures asked { IfOk result (λ builder. asked_of builder
            ≡ record (asked_of self) { tips = (asked_of self).tips ++ tips.now }) }
        ensures whole { tips.now ≡ [] → IsOk result }
        ensures refused { IfErr result (λ error. error ≡ Memory) }
    {
        Ok(Builder {
            tips: with_more(self.tips, tips)?,
            ..self
        })
    }

    /// The same walk with further ends. Returns `Memory` if there is no memory for them; none takes
    /// none.
    pub fn with_ends(self, ends: &[ObjectId]) -> Result<Builder<F, P>, Error>
        ensures asked { IfOk result (λ builder. asked_of builder
            ≡ record (asked_of self) { ends = (asked_of self).ends ++ ends.now }) }
        ensures whole { ends.now ≡ [] → IsOk result }
        ensures refused { IfErr result (λ error. error ≡ Memory) }
    {
        Ok(Builder {
            ends: with_more(self.ends, ends)?,
            ..self
        })
    }

    /// The same walk in this order.
    pub fn sorting(self, sorting: Sorting) -> Builder<F, P>
        ensures { asked_of result ≡ record (asked_of self) { sorting = sorting } }
    {
        Builder { sorting, ..self }
    }

    /// The same walk along these parents.
    pub fn parents(self, parents: Parents) -> Builder<F, P>
        ensures { asked_of result ≡ record (asked_of self) { parents = parents } }
    {
        Builder { parents, ..self }
    }

    /// The same walk, which takes commits from these rows if they have one.
    pub fn with_commit_graph(self, rows: Option<Graph>) -> Builder<F, P>
        ensures { asked_of result ≡ record (asked_of self) { graph = rows } }
    {
        Builder { rows, ..self }
    }

    /// The walk, which has read all its commits. Returns an error if there is no memory, and if a
    /// commit that the ends reach isn't read.
    pub fn build(self) -> Result<Topo<P>, Error>
        ensures predicate { IfOk result (λ walk. predicate_of walk ≡ (asked_of self).predicate) }
        ensures parents { IfOk result (λ walk. parents_of walk ≡ (asked_of self).parents) }
        ensures begins { IfOk result (BeginsAs P.accepts (F.is_honest (asked_of self).objects)
            (F.may_fail (asked_of self).objects) (F.table (asked_of self).objects) (asked_of
            self)) }
        ensures counted { IfOk result (λ walk. lookups_of walk ≤ length (commits_of walk)) }
        ensures each { (asked_of self).graph ≡ None
            → IfOk result (λ walk. lookups_of walk ≡ length (commits_of walk)) }
        ensures asked { IfOk result (λ walk. CountsAll (rows_of (asked_of self).graph)
            (commits_of walk) 0 (lookups_of walk)) }
        ensures rowed { AllHeld (rows_of (asked_of self).graph) (asked_of self).tips
            → AllHeld (rows_of (asked_of self).graph) (asked_of self).ends
            → IfOk result (λ walk. lookups_of walk ≡ 0) }
        ensures refused { IfErr result (IsBuildFault (F.is_honest (asked_of self).objects)
            (F.may_fail (asked_of self).objects) (rows_of (asked_of self).graph)
            (F.table (asked_of self).objects) (asked_of self).ends) }
    {
        let alloc: Global = *self.tips.allocator();
        let mut source = Source {
            objects: self.find,
            rows: self.rows,
            buffer: Vec::new(alloc),
            lookups: 0,
        };
        let known = explore(
            alloc,
            &mut source,
            self.tips.as_slice(),
            self.ends.as_slice(),
            self.parents,
        )?;
        let ready = Ready::new(self.sorting, known.without_children(alloc)?)?;
        Ok(Topo {
            predicate: self.predicate,
            known,
            ready,
            parents: self.parents,
            lookups: source.lookups,
        })
    }
}

// All that the ends reach.
fn explore_ends<F: FindInto>(
    alloc: Global,
    source: &mut Source<F>,
    ends: &[ObjectId],
) -> Result<Known, Error>
    ensures same { ReadsSame source.old source.new }
    ensures painted { IfOk result (IsPainted (F.is_honest source.old.objects)
        (F.may_fail source.old.objects) (rows_of source.old.rows) (F.table source.old.objects)
        ends.now) }
    ensures counted { IfOk result (λ known. source.new.lookups
        ≤ source.old.lookups + length known.ids.keys) }
    ensures rowed { AllHeld (rows_of source.old.rows) ends.now
        → IfOk result (λ known. AllHeld (rows_of source.old.rows) known.ids.keys
        × (source.new.lookups ≡ source.old.lookups)) }
    ensures each { ((x : ObjectId) → ¬ Holds (rows_of source.old.rows) x) → source.old.lookups ≡ 0
        → IfOk result (λ known. source.new.lookups ≡ length known.ids.keys) }
    ensures asked { IfOk result (λ known. CountsAll (rows_of source.old.rows) known.ids.keys
        source.old.lookups source.new.lookups) }
    ensures refused { IfErr result (IsBuildFault (F.is_honest source.old.objects)
        (F.may_fail source.old.objects) (rows_of source.old.rows) (F.table source.old.objects)
        ends.now) }
{
    let mut known = Known::new(alloc);
    known.walk(source, ends, Parents::All)?;
    match known.first_fault() {
        Some(error) => Err(error),
        None => {
            hide_all(&mut known.nodes);
            Ok(known)
        }
    }
}

// All that the ends reach, and after it all that the tips reach past it, with the counts of names.
fn explore<F: FindInto>(
    alloc: Global,
    source: &mut Source<F>,
    tips: &[ObjectId],
    ends: &[ObjectId],
    parents: Parents,
) -> Result<Known, Error>
    ensures explored { IfOk result (IsExplored (F.is_honest source.old.objects)
        (F.may_fail source.old.objects) (rows_of source.old.rows) (F.table source.old.objects)
        tips.now ends.now parents) }
    ensures counted { IfOk result (λ known. source.new.lookups
        ≤ source.old.lookups + length known.ids.keys) }
    ensures rowed { AllHeld (rows_of source.old.rows) tips.now
        → AllHeld (rows_of source.old.rows) ends.now
        → IfOk result (λ _. source.new.lookups ≡ source.old.lookups) }
    ensures each { ((x : ObjectId) → ¬ Holds (rows_of source.old.rows) x) → source.old.lookups ≡ 0
        → IfOk result (λ known. source.new.lookups ≡ length known.ids.keys) }
    ensures asked { IfOk result (λ known. CountsAll (rows_of source.old.rows) known.ids.keys
        source.old.lookups source.new.lookups) }
    ensures refused { IfErr result (IsBuildFault (F.is_honest source.old.objects)
        (F.may_fail source.old.objects) (rows_of source.old.rows) (F.table source.old.objects)
        ends.now) }
{
    let mut known = explore_ends(alloc, source, ends)?;
    known.walk(source, tips, parents)?;
    Ok(known)
}
