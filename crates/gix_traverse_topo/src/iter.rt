//! `Topo`: gives the next accepted commit, counts it off its parents, of which some get ready; lookups.

ghost use Rattle.std.specs.Prelude.{true, false, ◌≡◌, ◌+◌, ◌<◌, ◌≤◌, [], ℕ, List, OnOk, IfOk, IfErr, OnErr, IfSome, IfNone, IsNone, Option, Some, ◌⊎◌, length};
ghost use Rattle.std.specs.Iterator.{at_most};
ghost use Rattle.gix_hash.specs.declared.object_id.ObjectId.{ObjectId};
ghost use Rattle.gix_traverse_graph.specs.Commits.{Commits, asked};
ghost use Rattle.gix_traverse_graph.specs.Order.{At};
ghost use Rattle.gix_traverse_graph.specs.declared.rows.Row.{Row};
ghost use Rattle.gix_traverse_topo.specs.declared.init.Sorting.{Sorting};
ghost use Rattle.gix_traverse_topo.specs.Nodes.{all_facts, counts, hidden_in, IsOnce};
ghost use Rattle.gix_traverse_topo.specs.Asking.{lookups_of};
ghost use Rattle.gix_traverse_topo.specs.Giving.{GivesNext, answers_left};
ghost use Rattle.gix_traverse_topo.specs.Standing.{CountsOff, Gives, GoesOff, IsTurnOf, NotCounted, RowOff, StepsOn, weight};
ghost use Rattle.gix_traverse_topo.specs.Waiting.{waiting};
ghost use Rattle.gix_hash.specs.Id.{id_of};
ghost use Rattle.gix_traverse_topo.specs.declared.known.Facts.{Facts};
ghost use Rattle.gix_traverse_topo.specs.declared.error.Error.{Error};
ghost use Rattle.gix_traverse_topo.specs.declared.error.Error.TheVariants.{Memory};

use crate::Error;
use crate::known::{Known, Number, take_name};
use crate::ready::Ready;
use gix_hash::ObjectId;
use gix_traverse_commit_known::Accept;
use gix_traverse_graph::{Info, Parents};

/// A walk in which each commit comes after all its children.
///
/// After an error it gives nothing more.
#[derive(Drop)]
pub struct Topo<P> {
    pub(crate) predicate: P,
    pub(crate) known: Known,
    pub(crate) ready: Ready,
    pub(crate) parents: Parents,
    pub(crate) lookups: usize,
}

// Counts a name of a commit off, unless it has no number or the ends reach it. If that was the
// last, the commit waits.
fn count_off(known: &mut Known, ready: &mut Ready, id: &ObjectId) -> Result<(), Error>
    ensures ids { known.new.ids ≡ known.old.ids }
    ensures hidden { hidden_in known.new.nodes.items ≡ hidden_in known.old.nodes.items }
    ensures as_many { length known.new.nodes.items ≡ length known.old.nodes.items }
    ensures all_facts { all_facts known.new.nodes.items ≡ all_facts known.old.nodes.items }
    ensures counted { OnOk result (CountsOff (hidden_in known.old.nodes.items) known.old.ids.keys
        (all_facts known.old.nodes.items) (counts known.old.nodes.items) ready.old id.now
        (counts known.new.nodes.items) ready.new) }
    ensures refused { IfErr result (λ error. (error ≡ Memory)
        ⊎ NotCounted (hidden_in known.old.nodes.items) known.old.ids.keys
        (counts known.old.nodes.items) id.now) }
    ensures falls { OnOk result (weight known.new ready.new ≤ weight known.old ready.old) }
{
    let Some(number) = known.number_of(id) else {
        return Ok(());
    };
    if take_name(&mut known.nodes, number)? {
        let pending = known.pending(number).ok_or(Error::MissingStateUnexpected)?;
        ready.push(pending)?;
    }
    Ok(())
}

// Counts the names off that a commit gives its parents.
fn count_row_off(
    known: &mut Known,
    ready: &mut Ready,
    number: Number,
    along: Parents,
) -> Result<(), Error>
    ensures ids { known.new.ids ≡ known.old.ids }
    ensures hidden { hidden_in known.new.nodes.items ≡ hidden_in known.old.nodes.items }
    ensures as_many { length known.new.nodes.items ≡ length known.old.nodes.items }
    ensures all_facts { all_facts known.new.nodes.items ≡ all_facts known.old.nodes.items }
    ensures off { (way : ObjectId → List ObjectId) (h : Commits ObjectId)
        (before hs xs : List ObjectId) (facts : Facts)
        → At (all_facts known.old.nodes.items) number.0 facts
        → GoesOff way h before (asked along facts.parents.items) hs xs known.old → IsOnce xs
        → OnOk result ((m : ℕ) × (length (asked along facts.parents.items) ≤ m)
        × RowOff (hidden_in known.old.nodes.items) known.old.ids.keys way h before
        (asked along facts.parents.items) xs ready.old m (counts known.new.nodes.items)
        ready.new) }
    ensures refused { IfErr result (λ error. (way : ObjectId → List ObjectId) (h : Commits ObjectId)
        (before hs xs : List ObjectId) (facts : Facts)
        → At (all_facts known.old.nodes.items) number.0 facts
        → GoesOff way h before (asked along facts.parents.items) hs xs known.old → IsOnce xs
        → error ≡ Memory) }
    ensures falls { OnOk result (weight known.new ready.new ≤ weight known.old ready.old) }
{
    let mut index: usize = 0;
    'row: while let Some(parent) = known.parent(number, index, along) {
        count_off(known, ready, &parent)?;
        index += 1;
    }
    Ok(())
}

// Gives the commit of this number.
fn give(known: &mut Known, ready: &mut Ready, number: Number, along: Parents) -> Result<Info, Error>
    ensures ids { known.new.ids ≡ known.old.ids }
    ensures hidden { hidden_in known.new.nodes.items ≡ hidden_in known.old.nodes.items }
    ensures gives { IfOk result (Gives number.0 along known.old ready.old known.new ready.new) }
    ensures refused { IfErr result (λ error. (way : ObjectId → List ObjectId) (h : Commits ObjectId)
        (before hs xs : List ObjectId) (facts : Facts)
        → At (all_facts known.old.nodes.items) number.0 facts
        → GoesOff way h before (asked along facts.parents.items) hs xs known.old → IsOnce xs
        → (error ≡ Memory) ⊎ (facts.fault ≡ Some error)) }
    ensures falls { OnOk result (weight known.new ready.new ≤ weight known.old ready.old) }
{
    known.check(number)?;
    count_row_off(known, ready, number, along)?;
    known.take(number)
}

// This commit, if the predicate accepts it.
fn accepted<P: Accept>(predicate: &mut P, info: Info) -> Option<Info>
    ensures kept { IfSome result (λ given. (given ≡ info)
        × (P.accepts predicate.old (id_of info.id) ≡ true)) }
    ensures passed { IfNone result (P.accepts predicate.old (id_of info.id) ≡ false) }
    ensures accepts { P.accepts predicate.new ≡ P.accepts predicate.old }
    ensures asked { P.goes predicate.old (id_of info.id) predicate.new }
{
    if predicate.accept(info.id.as_oid()) {
        Some(info)
    } else {
        None
    }
}

impl<P: Accept + Drop> Topo<P> {
    /// How many objects the walk looked up.
    pub fn lookups(&self) -> usize
        ensures { result ≡ lookups_of self.now }
    {
        self.lookups
    }

    // The commit whose turn it is, whether it is accepted or not.
    fn turn(&mut self) -> Option<Result<Info, Error>>
        ensures ids { self.new.known.ids ≡ self.old.known.ids }
        ensures hidden { hidden_in self.new.known.nodes.items
            ≡ hidden_in self.old.known.nodes.items }
        ensures parents { self.new.parents ≡ self.old.parents }
        ensures predicate { self.new.predicate ≡ self.old.predicate }
        ensures lookups { self.new.lookups ≡ self.old.lookups }
        ensures stood { IfSome result (λ given. IfOk given (StepsOn self.old.parents
            self.old.known self.old.ready self.new.known self.new.ready)) }
        ensures end { IfNone result (waiting self.old.ready ≡ []) }
        ensures refused { IfSome result (λ given. IfErr given
            (λ error. (sorting : Sorting) (rows : List Row) (tips finished : List ObjectId)
            → IsTurnOf sorting rows tips self.old.parents finished self.old.known self.old.ready
            error)) }
        ensures failed { IfSome result (λ given. OnErr given (waiting self.new.ready ≡ [])) }
        ensures over { IfNone result (waiting self.new.ready ≡ []) }
        ensures ended { waiting self.old.ready ≡ [] → IsNone result }
        ensures falls { IfSome result (λ given. OnOk given (weight self.new.known self.new.ready
            < weight self.old.known self.old.ready)) }
    {
        let pending = self.ready.pop()?;
        match give(
            &mut self.known,
            &mut self.ready,
            pending.number,
            self.parents,
        ) {
            Ok(info) => Some(Ok(info)),
            Err(error) => {
                self.ready.clear();
                Some(Err(error))
            }
        }
    }
}

impl<P: Accept + Drop> Iterator for Topo<P> {
    type Item = Result<Info, Error>;

    ghost next_gives = { λ before item after. GivesNext P.accepts P.goes before item after };

    ghost remaining = { λ walk. at_most (answers_left walk) };

    /// The next commit; `None` if all are given, or an error was. Returns an error if the commit
    /// isn't read, and if no memory is left.
    fn next(&mut self) -> Option<Result<Info, Error>> {
        'turns: while let Some(given) = self.turn() {
            let info = match given {
                Ok(info) => info,
                Err(error) => return Some(Err(error)),
            };
            if let Some(info) = accepted(&mut self.predicate, info) {
                return Some(Ok(info));
            }
        }
        None
    }
}
