//! Removes files that are left over, and then folders below `refs` and `logs` that are empty, the deepest first.
ghost use Rattle.std.specs.Prelude.{◌≡◌, ◌||◌, codes, OnOk, IsErrOf, IsTrue};
ghost use Rattle.gix_ref_file.specs.Calls.{HasFault, Passes};
ghost use Rattle.gix_ref_file.specs.Tree.{node_at, is_folder};
ghost use Rattle.gix_ref_file.specs.Changes.{is_file_at};
ghost use Rattle.gix_ref_file.specs.declared.files.FileError.TheVariants.{Failed, Memory};
ghost use Rattle.history_model.specs.FileMap.{is_below};
ghost use Rattle.gix_hash.specs.declared.kind.Kind.{Kind};
ghost use Rattle.history_recovery.specs.Clearing.{Tells, Clears, IsKept, AreKeptBelow};
ghost use Rattle.history_recovery.specs.Changes.{ChangesHonestly};

use crate::packed::Packed;
use gix_ref_file::paths::{is_deeper, joined};
use gix_ref_file::{FileError, Files, Place};
use std::alloc::Global;

/// Removes the leftovers below a folder, whose path is empty at the root, and the folders below it
/// that are then deserted, the deepest first.
pub(crate) fn clear_below<F: Files>(
    alloc: Global,
    files: &mut F,
    packed: &Packed,
    folder: &[u8],
) -> Result<(), FileError>
    ensures keeps { ChangesHonestly F.Files Memory files.old files.new result }
    ensures clears { (kind : Kind) → Tells kind (F.history files.old).tree packed.now
        → Passes F.is_honest F.history files.old files.new (Clears kind) }
    ensures kept { (kind : Kind) → F.is_honest files.old
        → Tells kind (F.history files.old).tree packed.now
        → OnOk result (AreKeptBelow kind folder.now (F.history files.new).tree) }
    ensures failed { F.is_honest files.old → IsErrOf result Failed
        → HasFault F.failures F.reading_may_fail files.old files.new }
{
    for name in &files.list(alloc, folder)? {
        let path = joined(alloc, folder, name)?;
        if is_deeper(&path, folder) {
            clear_below(alloc, files, packed, &path)?;
            clear_at(alloc, files, packed, &path)?;
        }
    }
    Ok(())
}

// Removes what is at a path if it is left over. Nothing is left over below the path.
fn clear_at<F: Files>(
    alloc: Global,
    files: &mut F,
    packed: &Packed,
    path: &[u8],
) -> Result<(), FileError>
    ensures keeps { ChangesHonestly F.Files Memory files.old files.new result }
    ensures clears { (kind : Kind) → Tells kind (F.history files.old).tree packed.now
        → Passes F.is_honest F.history files.old files.new (Clears kind) }
    ensures kept { (kind : Kind) → F.is_honest files.old
        → Tells kind (F.history files.old).tree packed.now
        → AreKeptBelow kind path.now (F.history files.old).tree
        → OnOk result (IsKept kind (F.history files.new).tree path.now) }
    ensures failed { F.is_honest files.old → IsErrOf result Failed
        → HasFault F.failures F.reading_may_fail files.old files.new }
{
    match files.kind_of(path)? {
        Place::File(_) => remove_leftover(alloc, files, packed, path),
        Place::Folder => remove_deserted(alloc, files, path),
        Place::Absent => Ok(()),
    }
}

// Removes a file if it is left over.
fn remove_leftover<F: Files>(
    alloc: Global,
    files: &mut F,
    packed: &Packed,
    path: &[u8],
) -> Result<(), FileError>
    ensures keeps { ChangesHonestly F.Files Memory files.old files.new result }
    ensures clears { (kind : Kind) → IsTrue (is_file_at (F.history files.old).tree path.now)
        → Tells kind (F.history files.old).tree packed.now
        → Passes F.is_honest F.history files.old files.new (Clears kind) }
    ensures kept { (kind : Kind) → F.is_honest files.old
        → IsTrue (is_file_at (F.history files.old).tree path.now)
        → Tells kind (F.history files.old).tree packed.now
        → OnOk result (IsKept kind (F.history files.new).tree path.now) }
    ensures failed { F.is_honest files.old
        → IsTrue (is_file_at (F.history files.old).tree path.now)
        → IsErrOf result Failed
        → HasFault F.failures F.reading_may_fail files.old files.new }
{
    if !packed.is_over(&*files, path)? {
        return Ok(());
    }
    files.remove_file(alloc, path)
}

// Removes a folder below `refs` or `logs` if it is empty.
fn remove_deserted<F: Files>(alloc: Global, files: &mut F, folder: &[u8]) -> Result<(), FileError>
    ensures keeps { ChangesHonestly F.Files Memory files.old files.new result }
    ensures clears { (kind : Kind)
        → Passes F.is_honest F.history files.old files.new (Clears kind) }
    ensures kept { (kind : Kind) → F.is_honest files.old
        → IsTrue (is_folder (node_at (F.history files.old).tree folder.now))
        → AreKeptBelow kind folder.now (F.history files.old).tree
        → OnOk result (IsKept kind (F.history files.new).tree folder.now) }
    ensures failed { F.is_honest files.old
        → IsTrue (is_folder (node_at (F.history files.old).tree folder.now))
        → IsErrOf result Failed
        → HasFault F.failures F.reading_may_fail files.old files.new }
{
    if !may_be_deserted(folder) {
        return Ok(());
    }
    if !files.list(alloc, folder)?.is_empty() {
        return Ok(());
    }
    files.remove_empty_folder(alloc, folder)
}

// Returns whether the path is below `refs` or `logs`.
fn may_be_deserted(folder: &[u8]) -> bool
    ensures { result
        ≡ (is_below (codes "refs") folder.now || is_below (codes "logs") folder.now) }
{
    folder.starts_with(b"refs/") || folder.starts_with(b"logs/")
}
