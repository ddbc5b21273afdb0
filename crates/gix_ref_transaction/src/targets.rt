//! Laws: each target of an edit is read back as it is written.

ghost use Rattle.gix_ref_transaction.specs.Reads.{AllGiveKind, AllReadBack, GivesKind, IsOfKind, IsReadBack};
ghost use Rattle.gix_ref_name.specs.Targets.{target_view};
ghost use Rattle.gix_ref_format.specs.Loose.{loose_target, loose_text};
ghost use Rattle.std.specs.Prelude.{◌≡◌, Some};

use gix_hash::Kind;
use gix_ref_edit::{Change, RefEdit};
use gix_ref_format::laws::{written_id_is_read, written_name_is_read};
use gix_ref_name::Target;

// If the ids of edits are of this hash function, each target is read as it is written.
pub(crate) fn targets_are_read(edits: &[RefEdit], kind: Kind)
    ensures { AllGiveKind kind edits.now → AllReadBack kind edits.now }
{
    for edit in edits {
        edit_is_read(edit, kind);
    }
}

fn edit_is_read(edit: &RefEdit, kind: Kind)
    ensures { GivesKind kind edit.now.change → IsReadBack kind edit.now.change }
{
    match &edit.change {
        Change::Update { new, .. } => target_is_read(new, kind),
        Change::Delete { .. } => (),
    }
}

fn target_is_read(target: &Target, kind: Kind)
    ensures { IsOfKind kind (target_view target.now)
        → loose_target kind (loose_text (target_view target.now)) ≡ Some (target_view target.now) }
{
    match target {
        Target::Object(id) => written_id_is_read(id),
        Target::Symbolic(name) => written_name_is_read(name.as_ref(), kind),
    }
}
