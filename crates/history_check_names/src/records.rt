//! Tests the records of `packed-refs`: the ids that they hold, peeled ids, and collisions with other names.

ghost use Rattle.std.specs.Prelude.{◌≡◌, IfErr, OnOk, map};
ghost use Rattle.std.specs.List.{Contains};
ghost use Rattle.gix_ref_file.specs.Calls.{Finds};
ghost use Rattle.gix_ref_format.specs.Packed.{record_of};
ghost use Rattle.history_check_names.specs.Causes.{HasCause};
ghost use Rattle.history_check_names.specs.PackedRead.{ReadsPacked};
ghost use Rattle.history_check_names.specs.Sound.{AreSoundRecords, IsSoundRecord};
ghost use Rattle.history_check_names.specs.Stored.{is_well_peeled};
ghost use Rattle.history_check_objects.specs.Stored.{facts_in};

use crate::file::{is_file, is_private, test_apart, test_held};
use crate::packed::Packed;
use gix_hash::Kind;
use gix_ref_file::Files;
use gix_ref_format::packed::Reference;
use history_check_objects::Stored;
use history_texts::OpenError;
use std::alloc::Global;

/// Tests that each record is one that a repository has: of a name that is no worktree's own and
/// collides with no other; with the id of a stored commit or tag, unless the name has a file; and
/// with no peeled id but that of its tag's commit. Otherwise returns a cause that holds.
pub(crate) fn test_records<F: Files>(
    alloc: Global,
    files: &F,
    kind: Kind,
    stored: &Stored,
    packed: &Packed<'_>,
) -> Result<(), OpenError>
    requires { Finds F.is_honest F.history files.now (ReadsPacked kind packed.now) }
    ensures sound { Finds F.is_honest F.history files.now
        (λ tree. OnOk result (AreSoundRecords kind (facts_in stored.now) tree)) }
    ensures wrong { Finds F.is_honest F.history files.now
        (λ tree. IfErr result (HasCause F.reading_may_fail kind (facts_in stored.now) tree)) }
{
    for entry in &packed.records {
        test_record(alloc, files, kind, stored, packed, entry)?;
    }
    Ok(())
}

// Tests one record.
fn test_record<F: Files>(
    alloc: Global,
    files: &F,
    kind: Kind,
    stored: &Stored,
    packed: &Packed<'_>,
    entry: &Reference<'_>,
) -> Result<(), OpenError>
    requires packed { Finds F.is_honest F.history files.now (ReadsPacked kind packed.now) }
    requires among { Contains (map record_of packed.now.records.items) (record_of entry.now) }
    ensures sound { Finds F.is_honest F.history files.now
        (λ tree. OnOk result
        (IsSoundRecord kind (facts_in stored.now) tree (record_of entry.now))) }
    ensures wrong { Finds F.is_honest F.history files.now
        (λ tree. IfErr result (HasCause F.reading_may_fail kind (facts_in stored.now) tree)) }
{
    let name = entry.name.to_path();
    if is_private(name) {
        return Err(OpenError::PrivateName(Vec::from_slice(alloc, name)?));
    }
    test_apart(alloc, files, packed, name)?;
    if !is_file(files, name)? {
        test_held(stored, entry.target, Vec::from_slice(alloc, name)?)?;
    }
    if is_well_peeled(stored, entry) {
        return Ok(());
    }
    Err(OpenError::BadPeeled(Vec::from_slice(alloc, name)?))
}

// Returns whether the record has no peeled id, or that of the commit of a stored tag that it holds.
fn is_well_peeled(stored: &Stored, entry: &Reference<'_>) -> bool
    ensures { result ≡ is_well_peeled (facts_in stored.now) (record_of entry.now) }
{
    let Some(commit) = entry.object else {
        return true;
    };
    match stored.commit_of(&entry.target) {
        Some(target) => commit == target,
        None => false,
    }
}
