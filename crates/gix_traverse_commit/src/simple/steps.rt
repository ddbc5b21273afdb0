//! Steps of `Simple`: begins, or anew; queues tips; takes and reads the next commit, queues its parents; ends.

ghost use Rattle.std.specs.Prelude.{◌≡◌, List, [], ◌∷◌, ◌++◌, IfOk, IfErr, IfSome, IfNone, IsNone, IsOk, OnOk, true};
ghost use Rattle.gix_hash.specs.Id.{Id};
ghost use Rattle.gix_hash.specs.declared.object_id.ObjectId.{ObjectId};
ghost use Rattle.gix_traverse_graph.specs.Commits.{asked_parents};
ghost use Rattle.gix_traverse_commit_known.specs.Known.{turns_of};
ghost use Rattle.gix_traverse_commit_known.specs.Meeting.{IsFresh};
ghost use Rattle.gix_traverse_commit_known.specs.Asked.{Asked, IsKnown, IsSure};
ghost use Rattle.gix_traverse_commit_known.specs.Fetching.{LooksUpAtMost, ReadsSame};
ghost use Rattle.gix_traverse_commit.specs.Awaited.{times_of};
ghost use Rattle.gix_traverse_commit.specs.Simply.{HasAhead, IsGathered, IsMade, IsPaintedFor, IsUnderWay, IsAtTurn, IsOver, KeepsStore, Stands, GainsNone, content_of};
ghost use Rattle.gix_traverse_commit.specs.Giving.{Begins, Comes, FailsToCome, FailsUnbegun, HasEnded, InRows, IsInfo, IsUnmet, KeepsOn, LetsMetWait, LinesUp, MeetsAll, ReadsTips, Takes};
ghost use Rattle.gix_traverse_commit_known.specs.Faults.{TipFault};
ghost use Rattle.gix_traverse_graph.specs.declared.parents.Parents.TheVariants.{All as AllParents};
ghost use Rattle.gix_traverse_graph.specs.Sorting.{timing_of};
ghost use Rattle.gix_traverse_commit_known.specs.Timely.{LetsWaitIn};
ghost use Rattle.gix_traverse_commit_known.specs.Told.{OverTold, rows_of};

use crate::paint::paint;
use crate::simple::timed::{await_parents, await_tips, read_times};
use crate::simple::{Error, Simple};
use gix_hash::ObjectId;
use gix_object_lookup::FindInto;
use gix_traverse_commit_known::Accept;
use gix_traverse_commit_known::anew::{take_all, unpaint};
use gix_traverse_commit_known::faults::of_painting;
use gix_traverse_commit_known::meet::{meet_parents, queue_tips};
use gix_traverse_graph::sorting::{Sorting, shown_time, time_order};
use gix_traverse_graph::{Info, Parents};
use std::alloc::{AllocError, Global};
use std::mem;

impl<F: FindInto + Drop, P: Accept + Drop> Simple<F, P> {
    // Lets the rest of a walk that has begun begin anew from what is queued.
    pub(crate) fn begin_anew(&mut self)
        ensures stays { self.new ≡ record self.old {
          tips = self.new.tips;
          begun = self.new.begun;
        } }
        ensures ahead { (a : Asked) → HasAhead P.accepts a self.old → IsMade P.accepts a self.new }
        ensures over { IsOver self.old → IsOver self.new × (self.new.tips.items ≡ []) }
    {
        if !self.begun {
            return;
        }
        self.tips.clear();
        self.begun = self.known.is_idle();
    }

    // Reads the times of the tips, except those that the predicate refused, if the order goes by
    // time.
    pub(crate) fn read_tips(&mut self, sorting: Sorting) -> Result<(), Error>
        ensures reads { LooksUpAtMost (times_of (timing_of AllParents sorting) self.old.tips.items)
            self.old.source self.new.source }
        ensures stays { self.new ≡ record self.old { source = self.new.source } }
        ensures times { OnOk result (ReadsTips (F.is_honest self.old.source.objects)
            (F.table self.old.source.objects) sorting self.old self.new) }
        ensures refused { IfErr result (TipFault (F.is_honest self.old.source.objects)
            (F.may_fail self.old.source.objects) (rows_of self.old.source.rows)
            (F.table self.old.source.objects) self.old.tips.items (IsUnmet self.old.known.nodes)) }
        ensures whole { self.old.tips.items ≡ [] → IsOk result }
    {
        if time_order(Parents::All, sorting).is_none() {
            return Ok(());
        }
        let alloc: Global = *self.tips.allocator();
        let content = mem::replace(&mut self.source.buffer, Vec::new(alloc));
        read_times(&mut self.source, &self.known, self.tips.as_slice())?;
        self.source.buffer = content;
        Ok(())
    }

    // Makes tips of what is queued, in its order, and takes the flags of hidden commits away. A walk
    // that has not begun has nothing queued.
    pub(crate) fn make_tips(&mut self) -> Result<(), AllocError>
        ensures stays { self.new ≡ record self.old {
          tips = self.new.tips;
          known = self.new.known;
        } }
        ensures same { self.old.known.queue ≡ [] → turns_of self.old.known ≡ []
            → (self.new ≡ self.old) × IsOk result }
        ensures made { (a : Asked) → IsMade P.accepts a self.old
            → OnOk result (IsGathered P.accepts a self.old self.new) }
        ensures left { OnOk result (GainsNone self.old self.new) }
        ensures rowed { InRows self.old → OnOk result (InRows self.new) }
    {
        if self.known.is_idle() {
            return Ok(());
        }
        let alloc: Global = *self.tips.allocator();
        self.known.queue_waiting(alloc)?;
        unpaint(alloc, &mut self.known)?;
        take_all(&mut self.tips, &mut self.known)?;
        Ok(())
    }

    // Queues the tips of a walk whose hidden commits are painted.
    fn line_up(&mut self) -> Result<(), AllocError>
        ensures reads { LooksUpAtMost (times_of (timing_of self.old.parents self.old.sorting)
            self.old.tips.items) self.old.source self.new.source }
        ensures stays { self.new ≡ record self.old {
          source = self.new.source;
          known = self.new.known;
          begun = self.new.begun;
        } }
        ensures going { OverTold F.is_honest F.table self.old.source
            (λ g. (ids : List Id) (a : Asked) → IsSure (F.may_fail self.old.source.objects) a
            → IsPaintedFor P.accepts g a self.old
            → OnOk result (IsUnderWay P.accepts ids g a [] self.new)) }
        ensures awaits { OnOk result (OverTold F.is_honest F.table self.old.source
            (λ g. LetsWaitIn (timing_of self.old.parents self.old.sorting)
            (F.may_fail self.old.source.objects) g
            (IsFresh self.old.known.nodes self.old.tips.items)
            (turns_of self.old.known) (turns_of self.new.known))) }
        ensures lines { OnOk result (LinesUp self.old self.new) }
    {
        let Some(timing) = time_order(self.parents, self.sorting) else {
            queue_tips(&mut self.known, self.tips.as_slice())?;
            self.begun = true;
            return Ok(());
        };
        await_tips(
            &mut self.source,
            &mut self.known,
            timing.since,
            self.tips.as_slice(),
        )?;
        self.begun = true;
        Ok(())
    }

    // Begins the walk unless that was done already: paints what is hidden, and queues the tips; if
    // the walk was begun before, what was queued then.
    pub(crate) fn begin(&mut self) -> Result<(), Error>
        ensures store { KeepsStore self.old self.new }
        ensures same { self.old.begun ≡ true → IsOk result × (self.new ≡ self.old) }
        ensures going { OverTold F.is_honest F.table self.old.source
            (λ g. (a : Asked) (listed : List ObjectId)
            → IsSure (F.may_fail self.old.source.objects) a
            → Stands P.accepts (F.ids self.old.source.objects) g a listed self.old
            → OnOk result (IsUnderWay P.accepts (F.ids self.old.source.objects) g a listed
            self.new)) }
        ensures begins { (a : Asked) → IsMade P.accepts a self.old → OnOk result (Begins P.accepts
            (F.is_honest self.old.source.objects) (F.may_fail self.old.source.objects)
            (F.table self.old.source.objects) (F.ids self.old.source.objects) a self.old self.new) }
        ensures fails { (a : Asked) → IsMade P.accepts a self.old
            → IfErr result (λ error. FailsUnbegun (F.is_honest self.old.source.objects)
            (F.may_fail self.old.source.objects) (F.table self.old.source.objects) a self.old error
            self.new) }
        ensures keeps { OnOk result (KeepsOn self.old self.new) }
    {
        if self.begun {
            return Ok(());
        }
        self.make_tips()?;
        let alloc: Global = *self.tips.allocator();
        let content = mem::replace(&mut self.source.buffer, Vec::new(alloc));
        if let Err(error) = paint(&mut self.source, &mut self.known, self.hidden.as_slice()) {
            return Err(of_painting(error));
        }
        self.line_up()?;
        self.source.buffer = content;
        Ok(())
    }

    // Ends the walk.
    pub(crate) fn finish(&mut self)
        ensures stays { self.new ≡ record self.old { begun = true; known = self.new.known } }
        ensures over { IsOver self.new }
    {
        self.begun = true;
        self.known.clear();
    }

    // Ends the walk after an error.
    pub(crate) fn stop(&mut self)
        ensures store { KeepsStore self.old self.new }
        ensures lookups { self.new.source.lookups ≡ self.old.source.lookups }
        ensures emptied { content_of self.new ≡ [] }
        ensures over { IsOver self.new }
    {
        self.finish();
        self.source.buffer.clear();
    }

    // Takes the commit whose turn it is.
    pub(crate) fn take(&mut self) -> Option<ObjectId>
        ensures stays { self.new ≡ record self.old { known = self.new.known } }
        ensures takes { IfSome result (λ id. Takes P.accepts self.old id self.new) }
        ensures ends { IfNone result (HasEnded P.accepts self.old) }
        ensures ended { IsOver self.old → IsNone result }
    {
        let Some(timing) = time_order(self.parents, self.sorting) else {
            let id = self.known.take_queued()?;
            return Some(id);
        };
        let turn = self.known.take_turn(timing.order)?;
        Some(turn.id)
    }

    // Queues the parents of a commit.
    fn meet_all(&mut self, parents: &[ObjectId]) -> Result<(), AllocError>
        ensures reads { LooksUpAtMost (times_of (timing_of self.old.parents self.old.sorting)
            parents.now) self.old.source self.new.source }
        ensures stays { self.new ≡ record self.old {
          source = self.new.source;
          known = self.new.known;
          predicate = self.new.predicate;
        } }
        ensures going { OnOk result (OverTold F.is_honest F.table self.old.source
            (λ g. (ids : List Id) (a : Asked) (listed : List ObjectId) (id : ObjectId)
            → IsSure (F.may_fail self.old.source.objects) a
            → parents.now ≡ asked_parents a.parents g id
            → IsKnown (rows_of self.old.source.rows) ids id
            → IsAtTurn P.accepts ids g a listed id self.old
            → IsUnderWay P.accepts ids g a (listed ++ id ∷ []) self.new)) }
        ensures awaits { OnOk result (OverTold F.is_honest F.table self.old.source
            (λ g. LetsMetWait P.accepts (F.may_fail self.old.source.objects) g self.old parents.now
            self.new)) }
        ensures meets { OnOk result (MeetsAll P.accepts P.goes self.old parents.now self.new) }
    {
        let Some(timing) = time_order(self.parents, self.sorting) else {
            meet_parents(&mut self.known, &mut self.predicate, parents)?;
            return Ok(());
        };
        await_parents(
            &mut self.source,
            &mut self.known,
            &mut self.predicate,
            timing.since,
            parents,
        )?;
        Ok(())
    }

    // What the commit is, with its parents queued.
    pub(crate) fn enter(&mut self, id: ObjectId) -> Result<Info, Error>
        ensures same { ReadsSame self.old.source self.new.source }
        ensures told { OverTold F.is_honest F.table self.old.source
            (λ g. IfOk result (IsInfo g (rows_of self.old.source.rows) self.old.parents
            self.old.sorting)) }
        ensures going { OnOk result (OverTold F.is_honest F.table self.old.source
            (λ g. (a : Asked) (listed : List ObjectId)
            → IsSure (F.may_fail self.old.source.objects) a
            → IsAtTurn P.accepts (F.ids self.old.source.objects) g a listed id self.old
            → IsUnderWay P.accepts (F.ids self.old.source.objects) g a (listed ++ id ∷ [])
            self.new)) }
        ensures awaits { OverTold F.is_honest F.table self.old.source
            (λ g. IfOk result (λ info. LetsMetWait P.accepts (F.may_fail self.old.source.objects) g
            self.old info.parent_ids.items self.new)) }
        ensures comes { IfOk result (λ info. Comes P.accepts P.goes
            (F.is_honest self.old.source.objects) (F.table self.old.source.objects)
            (F.ids self.old.source.objects) self.old id info self.new) }
        ensures fails { IfErr result (λ error. FailsToCome (F.is_honest self.old.source.objects)
            (F.may_fail self.old.source.objects) (F.table self.old.source.objects) self.old id error
            self.new) }
    {
        let commit = self.source.fetch(&id, self.parents)?;
        let alloc: Global = *self.tips.allocator();
        let content = mem::replace(&mut self.source.buffer, Vec::new(alloc));
        self.meet_all(commit.parents.as_slice())?;
        self.source.buffer = content;
        self.kind = id.kind();
        Ok(Info {
            id,
            parent_ids: commit.parents,
            generation: commit.generation,
            commit_time: shown_time(self.parents, self.sorting, commit.time),
        })
    }
}
