//! Meeting commits in breadth order: marks them as met, calls the predicate, queues tips and parents once.

ghost use Rattle.std.specs.Prelude.{◌≡◌, List, true, false, not, ◌&&◌, [], ◌∷◌, ◌++◌, if◌then◌else◌, Contains, OnOk};
ghost use Rattle.gix_hash.specs.Id.{id_of};
ghost use Rattle.gix_hash.specs.declared.object_id.ObjectId.{ObjectId};
ghost use Rattle.gix_traverse_commit_known.specs.Keeping.{QueuesAlone, QueuesParents, QueuesTips, StaysHeld};
ghost use Rattle.gix_traverse_commit_known.specs.Meeting.{Asks, AsksOnce, IsFresh, MarksAll, MarksMet, fresh};
ghost use Rattle.gix_traverse_commit_known.specs.Known.{turns_of};
ghost use Rattle.gix_traverse_commit_known.specs.Nodes.{has, is_asked, is_met, is_hidden};
ghost use Rattle.gix_traverse_graph.specs.Numbered.{same_id};
ghost use Rattle.gix_traverse_commit_known.specs.Queueing.{QueuesBehind};
ghost use Rattle.gix_traverse_commit_known.specs.Asked.{AreAsked, AreRefused};
ghost use Rattle.gix_traverse_commit_known.specs.declared.nodes.TheConstants.WalkFlags.{ASKED, SEEN, UNINTERESTING};

use crate::Accept;
use crate::known::Known;
use crate::nodes::WalkFlags;
use bitflags::Flags;
use gix_hash::ObjectId;
use std::alloc::AllocError;

// The flags of a tip for which the predicate was called: it's met if that refuses it.
fn after_asking(flags: WalkFlags, accepted: bool) -> WalkFlags
    ensures asked { has result ASKED ≡ true }
    ensures met { has result SEEN ≡ not accepted }
    ensures hidden { has result UNINTERESTING ≡ has flags UNINTERESTING }
{
    let asked = flags.as_asked();
    if accepted {
        asked.as_unmet()
    } else {
        asked.as_met()
    }
}

// Calls the predicate for a tip, unless it was called for it.
fn ask_tip<P: Accept>(known: &mut Known, predicate: &mut P, tip: ObjectId) -> Result<(), AllocError>
    ensures accepts { P.accepts predicate.new ≡ P.accepts predicate.old }
    ensures asked { OnOk result ((tips : List ObjectId)
        → AreAsked (P.accepts predicate.old) tips known.old.nodes
        → AreAsked (P.accepts predicate.old) (tips ++ tip ∷ []) known.new.nodes) }
    ensures queue { OnOk result (known.new.queue ≡ known.old.queue) }
    ensures turns { OnOk result (turns_of known.new ≡ turns_of known.old) }
    ensures marked { OnOk result ((q : ObjectId) → is_asked known.new.nodes q
        ≡ (if same_id tip q then true else is_asked known.old.nodes q)) }
    ensures once { OnOk result (Asks P.goes (if is_asked known.old.nodes tip then [] else tip ∷ [])
        predicate.old predicate.new) }
{
    let flags = known.flags(&tip);
    if flags.contains(WalkFlags::ASKED) {
        return Ok(());
    }
    let accepted = predicate.accept(tip.as_oid());
    known.mark(tip, after_asking(flags, accepted))?;
    Ok(())
}

/// Calls the predicate for each tip once, and marks those that it refuses.
pub fn ask_tips<P: Accept>(
    known: &mut Known,
    predicate: &mut P,
    tips: &[ObjectId],
) -> Result<(), AllocError>
    ensures accepts { P.accepts predicate.new ≡ P.accepts predicate.old }
    ensures asked { OnOk result (AreAsked (P.accepts predicate.old) [] known.old.nodes
        → AreRefused (P.accepts predicate.old) tips.now known.new.nodes) }
    ensures queue { OnOk result (known.new.queue ≡ known.old.queue) }
    ensures turns { OnOk result (turns_of known.new ≡ turns_of known.old) }
    ensures once { OnOk result (((x : ObjectId) → is_asked known.old.nodes x ≡ false)
        → AsksOnce P.goes (Contains tips.now) predicate.old predicate.new) }
{
    'tips: for tip in tips {
        ask_tip(known, predicate, *tip)?;
    }
    Ok(())
}

/// Marks a commit as met.
pub fn mark_met(known: &mut Known, id: ObjectId, flags: WalkFlags) -> Result<(), AllocError>
    ensures met { OnOk result ((q : ObjectId) → is_met known.new.nodes q
        ≡ (if same_id id q then true else is_met known.old.nodes q)) }
    ensures hidden { OnOk result (is_hidden known.old.nodes id ≡ has flags UNINTERESTING
        → (q : ObjectId) → is_hidden known.new.nodes q ≡ is_hidden known.old.nodes q) }
    ensures queue { OnOk result (known.new.queue ≡ known.old.queue) }
    ensures turns { OnOk result (turns_of known.new ≡ turns_of known.old) }
    ensures behind { OnOk result (QueuesBehind known.old [] known.new) }
{
    known.mark(id, flags.as_met())?;
    Ok(())
}

// Marks a commit as met, and queues it last.
fn queue_met(known: &mut Known, id: ObjectId, flags: WalkFlags) -> Result<(), AllocError>
    ensures met { OnOk result ((q : ObjectId) → is_met known.new.nodes q
        ≡ (if same_id id q then true else is_met known.old.nodes q)) }
    ensures turns { OnOk result (turns_of known.new ≡ turns_of known.old) }
    ensures hidden { OnOk result (is_hidden known.old.nodes id ≡ has flags UNINTERESTING
        → (q : ObjectId) → is_hidden known.new.nodes q ≡ is_hidden known.old.nodes q) }
    ensures queued { OnOk result (known.new.queue ≡ known.old.queue ++ id ∷ []) }
{
    known.enqueue(id, flags.as_met())?;
    Ok(())
}

// Queues a tip that is not hidden and was not met.
fn queue_tip(known: &mut Known, id: ObjectId) -> Result<(), AllocError>
    ensures met { OnOk result ((q : ObjectId) → is_met known.new.nodes q
        ≡ (if same_id id q then true else is_met known.old.nodes q)) }
    ensures turns { OnOk result (turns_of known.new ≡ turns_of known.old) }
    ensures hidden { OnOk result ((q : ObjectId) → is_hidden known.new.nodes q
        ≡ is_hidden known.old.nodes q) }
    ensures queued { OnOk result (known.new.queue
        ≡ (if is_met known.old.nodes id then known.old.queue
        else (if not (is_hidden known.old.nodes id) then known.old.queue ++ id ∷ []
        else known.old.queue))) }
{
    let flags = known.flags(&id);
    if flags.contains(WalkFlags::SEEN) {
        return Ok(());
    }
    if !flags.contains(WalkFlags::UNINTERESTING) {
        return queue_met(known, id, flags);
    }
    mark_met(known, id, flags)
}

/// Queues the tips that are accepted and not hidden, each once.
pub fn queue_tips(known: &mut Known, tips: &[ObjectId]) -> Result<(), AllocError>
    ensures alone { OnOk result (QueuesAlone known.old known.new) }
    ensures met { OnOk result (MarksAll known.old.nodes tips.now known.new.nodes) }
    ensures rowed { OnOk result (StaysHeld known.old.queue tips.now known.new.queue) }
    ensures walked { OnOk result (QueuesTips tips.now known.old known.new) }
{
    'tips: for tip in tips {
        queue_tip(known, *tip)?;
    }
    Ok(())
}

// Queues a commit that was not met, is not hidden and is accepted.
fn meet<P: Accept>(known: &mut Known, predicate: &mut P, id: ObjectId) -> Result<(), AllocError>
    ensures accepts { P.accepts predicate.new ≡ P.accepts predicate.old }
    ensures met { OnOk result ((q : ObjectId) → is_met known.new.nodes q
        ≡ (if is_hidden known.old.nodes id
        then is_met known.old.nodes q else
        (if same_id id q then true else is_met known.old.nodes q))) }
    ensures turns { OnOk result (turns_of known.new ≡ turns_of known.old) }
    ensures hidden { OnOk result ((q : ObjectId) → is_hidden known.new.nodes q
        ≡ is_hidden known.old.nodes q) }
    ensures queued { OnOk result (known.new.queue ≡
        (if is_met known.old.nodes id then known.old.queue
        else (if not (is_hidden known.old.nodes id) && P.accepts predicate.old (id_of id)
        then known.old.queue ++ id ∷ [] else known.old.queue))) }
    ensures asked { OnOk result (Asks P.goes
        (fresh known.old.nodes id) predicate.old predicate.new) }
{
    let flags = known.flags(&id);
    if flags.contains(WalkFlags::UNINTERESTING) {
        return Ok(());
    }
    if flags.contains(WalkFlags::SEEN) {
        return Ok(());
    }
    if predicate.accept(id.as_oid()) {
        return queue_met(known, id, flags);
    }
    mark_met(known, id, flags)
}

/// Queues the parents of a commit that were not met, are not hidden and are accepted.
pub fn meet_parents<P: Accept>(
    known: &mut Known,
    predicate: &mut P,
    parents: &[ObjectId],
) -> Result<(), AllocError>
    ensures accepts { P.accepts predicate.new ≡ P.accepts predicate.old }
    ensures alone { OnOk result (QueuesAlone known.old known.new) }
    ensures flags { OnOk result (MarksMet known.old.nodes parents.now known.new.nodes) }
    ensures rowed { OnOk result (StaysHeld known.old.queue parents.now known.new.queue) }
    ensures walked { OnOk result (QueuesParents (P.accepts predicate.old) parents.now known.old
        known.new) }
    ensures asked { OnOk result (AsksOnce P.goes (IsFresh known.old.nodes parents.now) predicate.old
        predicate.new) }
{
    'parents: for parent in parents {
        meet(known, predicate, *parent)?;
    }
    Ok(())
}
