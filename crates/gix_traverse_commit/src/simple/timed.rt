//! `Simple` by time: reads tips' times, and lets tips and parents wait, each once, up to the cutoff.

ghost use Rattle.std.specs.Prelude.{◌≡◌, ◌∷◌, List, true, length, if◌then◌else◌, [], false, Contains, IfOk, IfErr, IsOk, OnOk};
ghost use Rattle.gix_hash.specs.declared.object_id.ObjectId.{ObjectId};
ghost use Rattle.gix_traverse_commit_known.specs.Fetching.{TimeIsTold};
ghost use Rattle.gix_traverse_commit_known.specs.Known.{turns_of};
ghost use Rattle.gix_traverse_commit_known.specs.Meeting.{CountsAll, CountsOne, IsFresh, MarksAll, MarksMet, accepted, fresh, unmet};
ghost use Rattle.gix_traverse_commit_known.specs.Nodes.{has, is_met, is_hidden};
ghost use Rattle.gix_traverse_graph.specs.Numbered.{same_id};
ghost use Rattle.gix_traverse_graph.specs.Order.{IsListOf};
ghost use Rattle.gix_traverse_commit_known.specs.Fetching.{LooksUpAtMost};
ghost use Rattle.gix_traverse_commit.specs.Awaited.{AsksTimes, AwaitsSome, MeetsToo};
ghost use Rattle.gix_traverse_commit.specs.Giving.{IsUnmet};
ghost use Rattle.gix_traverse_commit_known.specs.Faults.{TipFault};
ghost use Rattle.gix_traverse_commit_known.specs.Timely.{CountsAs, LetsWait};
ghost use Rattle.gix_traverse_commit_known.specs.Told.{OverTold, rows_of};
ghost use Rattle.gix_hash.specs.Id.{id_of};
ghost use Rattle.gix_traverse_commit_known.specs.declared.nodes.TheConstants.WalkFlags.{UNINTERESTING};

use crate::simple::Error;
use bitflags::Flags;
use gix_hash::ObjectId;
use gix_object_lookup::FindInto;
use gix_traverse_commit_known::Accept;
use gix_traverse_commit_known::fetch::{FetchError, Source};
use gix_traverse_commit_known::known::Known;
use gix_traverse_commit_known::meet::mark_met;
use gix_traverse_commit_known::nodes::WalkFlags;
use gix_traverse_commit_known::waiting::Turn;
use gix_traverse_graph::sorting::is_in_time;
use std::alloc::AllocError;

// The committer's seconds, and 0 if they aren't read, unless no memory is left.
fn seconds_or_zero<F: FindInto>(source: &mut Source<F>, id: &ObjectId) -> Result<i64, AllocError>
    ensures reads { LooksUpAtMost 1 source.old source.new }
    ensures one { CountsOne (rows_of source.old.rows) id.now source.old.lookups source.new.lookups }
    ensures counted_as { OverTold F.is_honest F.table source.old
        (λ g. IfOk result (CountsAs (F.may_fail source.old.objects) g id.now)) }
{
    match source.seconds(id) {
        Ok(seconds) => Ok(seconds),
        Err(FetchError::Memory) => Err(AllocError),
        Err(_) => Ok(0),
    }
}

/// Reads the times of these tips, except those that the predicate refused. Fails with the fault of
/// the first that can't be read.
pub fn read_times<F: FindInto>(
    source: &mut Source<F>,
    known: &Known,
    tips: &[ObjectId],
) -> Result<(), Error>
    ensures reads { LooksUpAtMost (length tips.now) source.old source.new }
    ensures each { OnOk result (CountsAll (rows_of source.old.rows) (unmet known.now.nodes tips.now)
        source.old.lookups source.new.lookups) }
    ensures told { F.is_honest source.old.objects → OnOk result ((x : ObjectId)
        → Contains tips.now x → IsUnmet known.now.nodes x
        → TimeIsTold (rows_of source.old.rows) (F.table source.old.objects) x) }
    ensures refused { IfErr result (TipFault (F.is_honest source.old.objects)
        (F.may_fail source.old.objects) (rows_of source.old.rows) (F.table source.old.objects)
        tips.now (IsUnmet known.now.nodes)) }
    ensures whole { tips.now ≡ [] → IsOk result }
{
    'tips: for tip in tips {
        if known.flags(tip).contains(WalkFlags::SEEN) {
            continue;
        }
        source.seconds(tip)?;
    }
    Ok(())
}

// Marks a commit as met, and lets it wait if it is no older than the cutoff.
fn wait<F: FindInto>(
    source: &mut Source<F>,
    known: &mut Known,
    since: Option<i64>,
    id: ObjectId,
    flags: WalkFlags,
) -> Result<(), AllocError>
    ensures reads { LooksUpAtMost 1 source.old source.new }
    ensures one { CountsOne (rows_of source.old.rows) id source.old.lookups source.new.lookups }
    ensures met { OnOk result (MeetsToo known.old.nodes id known.new.nodes) }
    ensures some { is_met known.old.nodes id ≡ false
        → is_hidden known.old.nodes id ≡ has flags UNINTERESTING
        → OnOk result (AwaitsSome known.old (id ∷ []) known.new) }
    ensures awaits { OnOk result (OverTold F.is_honest F.table source.old
        (λ g. LetsWait (F.may_fail source.old.objects) since g (Contains (id ∷ []))
        (turns_of known.old) (turns_of known.new))) }
{
    let time = seconds_or_zero(source, &id)?;
    if !is_in_time(since, time) {
        mark_met(known, id, flags)?;
        return Ok(());
    }
    known.wait(Turn { time, id }, flags.as_met())?;
    Ok(())
}

// Lets a tip wait that is not hidden and was not met.
fn await_tip<F: FindInto>(
    source: &mut Source<F>,
    known: &mut Known,
    since: Option<i64>,
    id: ObjectId,
) -> Result<(), AllocError>
    ensures reads { LooksUpAtMost 1 source.old source.new }
    ensures met { OnOk result (MeetsToo known.old.nodes id known.new.nodes) }
    ensures some { OnOk result (AwaitsSome known.old (id ∷ []) known.new) }
    ensures awaits { OnOk result (OverTold F.is_honest F.table source.old
        (λ g. LetsWait (F.may_fail source.old.objects) since g (Contains (fresh known.old.nodes id))
        (turns_of known.old) (turns_of known.new))) }
    ensures timed { OnOk result (CountsAll (rows_of source.old.rows) (fresh known.old.nodes id)
        source.old.lookups source.new.lookups) }
{
    let flags = known.flags(&id);
    if flags.contains(WalkFlags::SEEN) {
        return Ok(());
    }
    if !flags.contains(WalkFlags::UNINTERESTING) {
        wait(source, known, since, id, flags)?;
        return Ok(());
    }
    mark_met(known, id, flags)?;
    Ok(())
}

/// Lets the tips wait that are accepted, not hidden and no older than the cutoff, each once.
pub fn await_tips<F: FindInto>(
    source: &mut Source<F>,
    known: &mut Known,
    since: Option<i64>,
    tips: &[ObjectId],
) -> Result<(), AllocError>
    ensures reads { LooksUpAtMost (length tips.now) source.old source.new }
    ensures met { OnOk result (MarksAll known.old.nodes tips.now known.new.nodes) }
    ensures some { OnOk result (AwaitsSome known.old tips.now known.new) }
    ensures awaits { OnOk result (OverTold F.is_honest F.table source.old
        (λ g. LetsWait (F.may_fail source.old.objects) since g (IsFresh known.old.nodes tips.now)
        (turns_of known.old) (turns_of known.new))) }
    ensures timed { OnOk result ((timed : List ObjectId)
        × IsListOf (IsFresh known.old.nodes tips.now) timed
        × CountsAll (rows_of source.old.rows) timed source.old.lookups source.new.lookups) }
{
    'tips: for tip in tips {
        await_tip(source, known, since, *tip)?;
    }
    Ok(())
}

// Lets a commit wait that was not met, is not hidden, is accepted and is no older than the cutoff.
fn await_parent<F: FindInto, P: Accept>(
    source: &mut Source<F>,
    known: &mut Known,
    predicate: &mut P,
    since: Option<i64>,
    id: ObjectId,
) -> Result<(), AllocError>
    ensures reads { LooksUpAtMost 1 source.old source.new }
    ensures met { OnOk result ((q : ObjectId) → is_met known.new.nodes q
        ≡ (if is_hidden known.old.nodes id
        then is_met known.old.nodes q else
        (if same_id id q then true else is_met known.old.nodes q))) }
    ensures some { OnOk result (AwaitsSome known.old (id ∷ []) known.new) }
    ensures awaits { OnOk result (OverTold F.is_honest F.table source.old
        (λ g. LetsWait (F.may_fail source.old.objects) since g
        (Contains (accepted (P.accepts predicate.old) (fresh known.old.nodes id)))
        (turns_of known.old) (turns_of known.new))) }
    ensures asked { OnOk result (AsksTimes P.accepts P.goes (rows_of source.old.rows)
        (fresh known.old.nodes id) predicate.old source.old.lookups predicate.new
        source.new.lookups) }
{
    let flags = known.flags(&id);
    if flags.contains(WalkFlags::UNINTERESTING) {
        return Ok(());
    }
    if flags.contains(WalkFlags::SEEN) {
        return Ok(());
    }
    if predicate.accept(id.as_oid()) {
        wait(source, known, since, id, flags)?;
        return Ok(());
    }
    mark_met(known, id, flags)?;
    Ok(())
}

/// Lets the parents of a commit wait that were not met, are not hidden, are accepted and are no
/// older than the cutoff.
pub fn await_parents<F: FindInto, P: Accept>(
    source: &mut Source<F>,
    known: &mut Known,
    predicate: &mut P,
    since: Option<i64>,
    parents: &[ObjectId],
) -> Result<(), AllocError>
    ensures reads { LooksUpAtMost (length parents.now) source.old source.new }
    ensures met { OnOk result (MarksMet known.old.nodes parents.now known.new.nodes) }
    ensures some { OnOk result (AwaitsSome known.old parents.now known.new) }
    ensures awaits { OnOk result (OverTold F.is_honest F.table source.old
        (λ g. LetsWait (F.may_fail source.old.objects) since g
        (λ x. IsFresh known.old.nodes parents.now x × (P.accepts predicate.old (id_of x) ≡ true))
        (turns_of known.old) (turns_of known.new))) }
    ensures asked { OnOk result ((met : List ObjectId)
        × IsListOf (IsFresh known.old.nodes parents.now) met
        × AsksTimes P.accepts P.goes (rows_of source.old.rows) met predicate.old source.old.lookups
        predicate.new source.new.lookups) }
{
    'parents: for parent in parents {
        await_parent(source, known, predicate, since, *parent)?;
    }
    Ok(())
}
