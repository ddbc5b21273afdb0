//! Whether the names in edits are as the store knows them: composed (precomposed Unicode).

ghost use Rattle.std.specs.Prelude.{◌≡◌, IfOk};
ghost use Rattle.gix_ref_name.specs.Targets.{target_view};
ghost use Rattle.gix_ref_store.specs.Known as known;
ghost use Rattle.gix_ref_transaction.specs.Locking as spec;

use gix_ref_edit::{Change, RefEdit};
use gix_ref_name::Target;
use gix_ref_name::compose::precompose_unicode;
use std::alloc::{AllocError, Global};

// Returns whether the names of the edits, and those that they write, are as a store knows them that
// composes names or doesn't. What isn't couldn't be found afterwards.
pub(crate) fn are_known(
    alloc: Global,
    composes: bool,
    edits: &[RefEdit],
) -> Result<bool, AllocError>
    ensures { IfOk result (λ known. known ≡ spec.are_known composes edits.now) }
{
    let mut rest = edits;
    'edits: while let Some((edit, others)) = rest.split_first() {
        if !is_known_edit(alloc, composes, edit)? {
            return Ok(false);
        }
        rest = others;
    }
    Ok(true)
}

fn is_known_edit(alloc: Global, composes: bool, edit: &RefEdit) -> Result<bool, AllocError>
    ensures { IfOk result (λ known. known ≡ spec.is_known_edit composes edit.now) }
{
    if !is_known(alloc, composes, edit.name.to_path())? {
        return Ok(false);
    }
    match &edit.change {
        Change::Update { new, .. } => is_known_target(alloc, composes, new),
        Change::Delete { .. } => Ok(true),
    }
}

fn is_known_target(alloc: Global, composes: bool, target: &Target) -> Result<bool, AllocError>
    ensures { IfOk result (λ known. known ≡ spec.is_known_target composes (target_view target.now)) }
{
    match target {
        Target::Object(_) => Ok(true),
        Target::Symbolic(name) => is_known(alloc, composes, name.to_path()),
    }
}

fn is_known(alloc: Global, composes: bool, name: &[u8]) -> Result<bool, AllocError>
    ensures { IfOk result (λ found. found ≡ known.is_known composes name.now) }
{
    if !composes {
        return Ok(true);
    }
    let composed = precompose_unicode(alloc, name)?;
    Ok(composed.as_bytes() == name)
}
