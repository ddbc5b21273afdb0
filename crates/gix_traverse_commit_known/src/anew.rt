//! Beginning anew, over `Known`: takes the flags of hidden commits away, and makes tips of what is queued.

ghost use Rattle.std.specs.Prelude.{◌≡◌, ◌⊎◌, true, false, [], ◌++◌, Contains, OnOk};
ghost use Rattle.gix_hash.specs.declared.object_id.ObjectId.{ObjectId};
ghost use Rattle.gix_traverse_commit_known.specs.Known.{turns_of};
ghost use Rattle.gix_traverse_commit_known.specs.Nodes.{is_hidden, is_met};
ghost use Rattle.gix_traverse_commit_known.specs.Painting.{IsUnpainted};

use crate::known::Known;
use gix_hash::ObjectId;
use std::alloc::{AllocError, Global};

/// Takes the flags of hidden commits away.
pub fn unpaint(alloc: Global, known: &mut Known) -> Result<(), AllocError>
    ensures unpainted { OnOk result (IsUnpainted known.new.nodes) }
    ensures queue { OnOk result (known.new.queue ≡ known.old.queue) }
    ensures turns { OnOk result (turns_of known.new ≡ turns_of known.old) }
    ensures met { OnOk result ((q : ObjectId) → is_met known.new.nodes q
        ≡ is_met known.old.nodes q) }
{
    let ids = known.ids(alloc)?;
    'ids: for id in &ids {
        let flags = known.flags(id);
        known.mark(*id, flags.as_shown())?;
    }
    Ok(())
}

/// Makes tips of what is queued, in its order, so that it may be met again.
pub fn take_all(tips: &mut Vec<ObjectId>, known: &mut Known) -> Result<(), AllocError>
    ensures tips { OnOk result (tips.new.items ≡ tips.old.items ++ known.old.queue) }
    ensures emptied { OnOk result (known.new.queue ≡ []) }
    ensures turns { OnOk result (turns_of known.new ≡ turns_of known.old) }
    ensures hidden { OnOk result ((q : ObjectId) → is_hidden known.new.nodes q
        ≡ is_hidden known.old.nodes q) }
    ensures met { OnOk result ((q : ObjectId) → is_met known.new.nodes q ≡ true
        → (is_met known.old.nodes q ≡ true) × (¬ Contains known.old.queue q)) }
    ensures unmet { OnOk result ((q : ObjectId) → is_met known.new.nodes q ≡ false
        → (is_met known.old.nodes q ≡ false) ⊎ Contains known.old.queue q) }
{
    'queued: while let Some(id) = known.take_queued() {
        let flags = known.flags(&id);
        known.mark(id, flags.as_asked().as_unmet())?;
        tips.push(id)?;
    }
    Ok(())
}
