//! Painting: the hidden commits, and all parents that they reach, are marked as hidden.

ghost use Rattle.std.specs.Prelude.{◌≡◌, ℕ, List, true, ◌∷◌, ◌++◌, [], if◌then◌else◌, IfErr, OnOk};
ghost use Rattle.gix_hash.specs.declared.object_id.ObjectId.{ObjectId};
ghost use Rattle.gix_traverse_commit_known.specs.Fetching.{ReadsSame};
ghost use Rattle.gix_traverse_commit_known.specs.Keeping.{Kept, KeptAll, StaysHeld};
ghost use Rattle.gix_traverse_commit_known.specs.Nodes.{is_hidden};
ghost use Rattle.gix_traverse_commit.specs.Awaited.{PaintsOnly};
ghost use Rattle.gix_traverse_graph.specs.Numbered.{same_id};
ghost use Rattle.gix_traverse_graph.specs.Order.{At, IsListOf};
ghost use Rattle.gix_traverse_commit_known.specs.Painting.{CountsUnpainted, IsPainted, IsUnpainted, Paints, PaintFault, ReachedFrom, every};
ghost use Rattle.gix_traverse_graph.specs.Rows.{AllHeld};
ghost use Rattle.gix_traverse_commit_known.specs.Meeting.{CountsAll};
ghost use Rattle.gix_traverse_graph.specs.Standing.{Reads};
ghost use Rattle.gix_traverse_commit_known.specs.Told.{OverTold, rows_of};

use bitflags::Flags;
use gix_hash::ObjectId;
use gix_object_lookup::FindInto;
use gix_traverse_commit_known::fetch::{FetchError, Source};
use gix_traverse_commit_known::known::Known;
use gix_traverse_commit_known::nodes::WalkFlags;
use gix_traverse_graph::Parents;
use std::alloc::{AllocError, Global};

// Paints a commit that was not painted before.
fn paint_one(known: &mut Known, painted: &mut Vec<ObjectId>, id: ObjectId) -> Result<(), AllocError>
    ensures only { OnOk result (PaintsOnly known.old known.new) }
    ensures marked { OnOk result ((q : ObjectId) → is_hidden known.new.nodes q
        ≡ (if same_id id q then true else is_hidden known.old.nodes q)) }
    ensures queued { OnOk result (painted.new.items
        ≡ (if is_hidden known.old.nodes id then painted.old.items else painted.old.items ++ id ∷
        [])) }
{
    let flags = known.flags(&id);
    if flags.contains(WalkFlags::UNINTERESTING) {
        return Ok(());
    }
    known.mark(id, flags.as_hidden())?;
    painted.push(id)?;
    Ok(())
}

// Paints the hidden commits that were given.
fn paint_tips(
    known: &mut Known,
    painted: &mut Vec<ObjectId>,
    hidden: &[ObjectId],
) -> Result<(), AllocError>
    ensures only { OnOk result (PaintsOnly known.old known.new) }
    ensures painted { OnOk result (IsPainted known.old.nodes painted.old.items
        → IsPainted known.new.nodes painted.new.items) }
    ensures rowed { OnOk result (StaysHeld painted.old.items hidden.now painted.new.items) }
    ensures walked { OnOk result ((along : ObjectId → List ObjectId)
        → Kept along hidden.now every (is_hidden known.old.nodes) painted.old.items 0 0
        → KeptAll along hidden.now every (is_hidden known.new.nodes) painted.new.items 0) }
{
    'tips: for id in hidden {
        paint_one(known, painted, *id)?;
    }
    Ok(())
}

// Paints the parents of the commit just before place `read`.
fn paint_parents(
    known: &mut Known,
    painted: &mut Vec<ObjectId>,
    parents: &[ObjectId],
) -> Result<(), AllocError>
    ensures only { OnOk result (PaintsOnly known.old known.new) }
    ensures painted { OnOk result (IsPainted known.old.nodes painted.old.items
        → IsPainted known.new.nodes painted.new.items) }
    ensures rowed { OnOk result (StaysHeld painted.old.items parents.now painted.new.items) }
    ensures longer { OnOk result ((k : ℕ) (x : ObjectId) → At painted.old.items k x
        → At painted.new.items k x) }
    ensures walked { OnOk result ((along : ObjectId → List ObjectId) (tips : List ObjectId)
        (id : ObjectId) (p : ℕ) → parents.now ≡ along id
        → Kept along tips every (is_hidden known.old.nodes) painted.old.items p 0
        → Reads painted.old.items p id → KeptAll along tips every (is_hidden known.new.nodes)
        painted.new.items p) }
{
    'parents: for parent in parents {
        paint_one(known, painted, *parent)?;
    }
    Ok(())
}

/// Marks as hidden all that these commits reach, until nothing is left to paint. Fails with the
/// fault of one that can't be read.
pub fn paint<F: FindInto>(
    source: &mut Source<F>,
    known: &mut Known,
    hidden: &[ObjectId],
) -> Result<(), FetchError>
    ensures same { ReadsSame source.old source.new }
    ensures only { OnOk result (PaintsOnly known.old known.new) }
    ensures painted { OnOk result (IsUnpainted known.old.nodes
        → OverTold F.is_honest F.table source.old (λ g. Paints g hidden.now known.new.nodes)) }
    ensures rowed { OnOk result (AllHeld (rows_of source.old.rows) hidden.now
        → source.new.lookups ≡ source.old.lookups) }
    ensures counted { OnOk result ((asked : List ObjectId)
        × CountsAll (rows_of source.old.rows) asked source.old.lookups source.new.lookups
        × (IsUnpainted known.old.nodes → OverTold F.is_honest F.table source.old
        (λ g. IsListOf (ReachedFrom g hidden.now) asked))) }
    ensures counted_fault { IsUnpainted known.old.nodes → IfErr result (CountsUnpainted
        (F.is_honest source.old.objects) (rows_of source.old.rows) (F.table source.old.objects)
        hidden.now source.old.lookups source.new.lookups) }
    ensures refused { IsUnpainted known.old.nodes
        → IfErr result (PaintFault (F.is_honest source.old.objects) (F.may_fail source.old.objects)
        (rows_of source.old.rows) (F.table source.old.objects) hidden.now) }
{
    let alloc: Global = *source.buffer.allocator();
    let mut painted: Vec<ObjectId> = Vec::new(alloc);
    paint_tips(known, &mut painted, hidden)?;
    let mut read = 0usize;
    'painted: while read < painted.len() {
        let id = painted[read];
        let commit = source.fetch(&id, Parents::All)?;
        paint_parents(known, &mut painted, commit.parents.as_slice())?;
        read += 1;
    }
    Ok(())
}
