//! The way of a file: the folders that it is in, and no folder in its place.
ghost use Rattle.std.specs.Prelude.{◌≡◌, ◌≢◌, ◌≤◌, ◌⊎◌, [], true, false, map, None, IfErr, IfOk, OnOk, IsErrOf, IsTrue};
ghost use Rattle.std.specs.FinMap.{get};
ghost use Rattle.gix_ref_file.specs.Tree.{is_path, names_at};
ghost use Rattle.gix_ref_file.specs.Changes.{is_file_at, may_hold_file};
ghost use Rattle.gix_ref_file.specs.Calls.{Achieves, HasFault, Passes};
ghost use Rattle.gix_ref_file.specs.History.{HasRisen};
ghost use Rattle.gix_ref_file.specs.declared.files.FileError.TheVariants.{Failed, Memory};
ghost use Rattle.gix_ref_way.specs.Halts.{IsQuiet};
ghost use Rattle.gix_ref_way.specs.declared.error.Halt.TheVariants as halt;
ghost use Rattle.gix_ref_way.specs.declared.error.Way.TheVariants.{Free, Blocked, Unread};
ghost use Rattle.gix_ref_way.specs.Ways.{SameFiles, FoldersAbove, KeepsOtherFolders, ClearsWay, HasWay, TellsBelow};

use crate::error::{Halt, Way};
use crate::folders::make_missing;
use gix_ref_file::paths::{is_deeper, joined};
use gix_ref_file::{FileError, Files, Place};
use std::alloc::Global;

/// Makes room for a file: the folder in its place goes, with those below it, and the folders that
/// it is in are made. Files stay. Returns `Failed` if a file exists above or below the path, or a
/// call of the files failed, and `Memory` if no memory is left.
pub fn make_way<F: Files>(alloc: Global, files: &mut F, path: &[u8]) -> Result<(), FileError>
    ensures honest { F.is_honest files.old → F.is_honest files.new }
    ensures moments { Passes F.is_honest F.history files.old files.new SameFiles }
    ensures folders { Passes F.is_honest F.history files.old files.new (FoldersAbove path.now) }
    ensures stay { Passes F.is_honest F.history files.old files.new (KeepsOtherFolders path.now) }
    ensures later { F.failures files.old ≤ F.failures files.new }
    ensures unfailed { OnOk result (F.failures files.new ≡ F.failures files.old) }
    ensures memory { IsErrOf result Memory → F.failures files.new ≡ F.failures files.old }
    ensures room { F.is_honest files.old → IsTrue (is_path path.now)
        → HasWay path.now (F.history files.old).tree
        → OnOk result (IsTrue (may_hold_file (F.history files.new).tree path.now)) }
    ensures failed { F.is_honest files.old → IsTrue (is_path path.now)
        → HasWay path.now (F.history files.old).tree
        → IsErrOf result Failed → HasFault F.failures F.reading_may_fail files.old files.new }
{
    match try_make_way(alloc, files, path)? {
        Way::Free => Ok(()),
        Way::Blocked | Way::Unread => Err(FileError::Failed),
    }
}

/// Makes room for a file as `make_way` does, and returns `Blocked` if a file exists above or below
/// the path, and `Unread` if a reading failed. Returns `Failed` if a change failed, and `Memory` if
/// no memory is left.
pub fn try_make_way<F: Files>(alloc: Global, files: &mut F, path: &[u8]) -> Result<Way, FileError>
    ensures honest { F.is_honest files.old → F.is_honest files.new }
    ensures moments { Passes F.is_honest F.history files.old files.new SameFiles }
    ensures folders { Passes F.is_honest F.history files.old files.new (FoldersAbove path.now) }
    ensures stay { Passes F.is_honest F.history files.old files.new (KeepsOtherFolders path.now) }
    ensures later { F.failures files.old ≤ F.failures files.new }
    ensures unfailed { OnOk result (F.failures files.new ≡ F.failures files.old) }
    ensures memory { IsErrOf result Memory → F.failures files.new ≡ F.failures files.old }
    ensures free { F.is_honest files.old → IsTrue (is_path path.now) → IfOk result (λ way.
        way ≡ Free → IsTrue (may_hold_file (F.history files.new).tree path.now)) }
    ensures blocked { F.is_honest files.old → IfOk result (λ way.
        way ≡ Blocked → ¬ HasWay path.now (F.history files.old).tree) }
    ensures unread { IfOk result (λ way. way ≡ Unread → F.reading_may_fail) }
    ensures failed { F.is_honest files.old → IsTrue (is_path path.now)
        → IsErrOf result Failed → HasRisen (F.failures files.old) (F.failures files.new) }
{
    match make_room(alloc, files, path) {
        Ok(()) => Ok(Way::Free),
        Err(Halt::Blocked) => Ok(Way::Blocked),
        Err(Halt::Unread) => Ok(Way::Unread),
        Err(Halt::Failed) => Err(FileError::Failed),
        Err(Halt::Memory) => Err(FileError::Memory),
    }
}

// Makes room for a file.
fn make_room<F: Files>(alloc: Global, files: &mut F, path: &[u8]) -> Result<(), Halt>
    ensures honest { F.is_honest files.old → F.is_honest files.new }
    ensures moments { Passes F.is_honest F.history files.old files.new SameFiles }
    ensures folders { Passes F.is_honest F.history files.old files.new (FoldersAbove path.now) }
    ensures stay { Passes F.is_honest F.history files.old files.new (KeepsOtherFolders path.now) }
    ensures later { F.failures files.old ≤ F.failures files.new }
    ensures quiet { IsQuiet result (F.failures files.old) (F.failures files.new) }
    ensures room { F.is_honest files.old → IsTrue (is_path path.now)
        → OnOk result (IsTrue (may_hold_file (F.history files.new).tree path.now)) }
    ensures blocked { F.is_honest files.old → IsErrOf result halt.Blocked
        → ¬ HasWay path.now (F.history files.old).tree }
    ensures unread { IsErrOf result halt.Unread → F.reading_may_fail }
    ensures failed { F.is_honest files.old → IsTrue (is_path path.now)
        → IsErrOf result halt.Failed → HasRisen (F.failures files.old) (F.failures files.new) }
{
    match files.kind_of(path) {
        // Its folders are there.
        Ok(Place::File(_)) => Ok(()),
        Ok(Place::Absent) => make_missing(alloc, files, path),
        Ok(Place::Folder) => replace_folder(alloc, files, path),
        Err(FileError::Failed) => Err(Halt::Unread),
        Err(FileError::Memory) => Err(Halt::Memory),
    }
}

// Makes room for a file if a folder may be in its place.
fn replace_folder<F: Files>(alloc: Global, files: &mut F, path: &[u8]) -> Result<(), Halt>
    ensures honest { F.is_honest files.old → F.is_honest files.new }
    ensures moments { Passes F.is_honest F.history files.old files.new SameFiles }
    ensures folders { Passes F.is_honest F.history files.old files.new (FoldersAbove path.now) }
    ensures stay { Passes F.is_honest F.history files.old files.new (KeepsOtherFolders path.now) }
    ensures later { F.failures files.old ≤ F.failures files.new }
    ensures quiet { IsQuiet result (F.failures files.old) (F.failures files.new) }
    ensures room { F.is_honest files.old → IsTrue (is_path path.now)
        → OnOk result (IsTrue (may_hold_file (F.history files.new).tree path.now)) }
    ensures blocked { F.is_honest files.old → IsErrOf result halt.Blocked
        → is_file_at (F.history files.old).tree path.now ≡ false
        → ¬ HasWay path.now (F.history files.old).tree }
    ensures unread { IsErrOf result halt.Unread → F.reading_may_fail }
    ensures failed { F.is_honest files.old → IsTrue (is_path path.now)
        → IsErrOf result halt.Failed → HasRisen (F.failures files.old) (F.failures files.new) }
{
    clear_way(alloc, files, path)?;
    make_missing(alloc, files, path)
}

// Removes the folder at a path, if one is there, and those below it, the deepest first; the root
// stays. A file at the path or below it blocks the way.
fn clear_way<F: Files>(alloc: Global, files: &mut F, place: &[u8]) -> Result<(), Halt>
    ensures honest { F.is_honest files.old → F.is_honest files.new }
    ensures moments { Passes F.is_honest F.history files.old files.new (ClearsWay place.now) }
    ensures gone { Achieves F.is_honest F.history files.old files.new result
        (λ old new. place.now ≢ [] → get new place.now ≡ None) }
    ensures later { F.failures files.old ≤ F.failures files.new }
    ensures quiet { IsQuiet result (F.failures files.old) (F.failures files.new) }
    ensures blocked { F.is_honest files.old → IsErrOf result halt.Blocked
        → IsTrue (is_file_at (F.history files.old).tree place.now)
        ⊎ TellsBelow place.now (F.history files.old).tree true }
    ensures unread { IsErrOf result halt.Unread → F.reading_may_fail }
    ensures failed { F.is_honest files.old → IsErrOf result halt.Failed
        → HasRisen (F.failures files.old) (F.failures files.new) }
{
    if place.is_empty() {
        return Ok(());
    }
    match files.kind_of(place) {
        Ok(Place::Folder) => {}
        Ok(Place::Absent) => return Ok(()),
        Ok(Place::File(_)) => return Err(Halt::Blocked),
        Err(FileError::Failed) => return Err(Halt::Unread),
        Err(FileError::Memory) => return Err(Halt::Memory),
    }
    for name in &listed(alloc, &*files, place)? {
        let path = joined(alloc, place, name)?;
        if is_deeper(&path, place) {
            clear_way(alloc, files, &path)?;
        }
    }
    files.remove_empty_folder(alloc, place)?;
    Ok(())
}

// Returns the names in a folder.
fn listed<F: Files>(alloc: Global, files: &F, folder: &[u8]) -> Result<Vec<Vec<u8>>, Halt>
    ensures names { F.is_honest files.now → IfOk result (λ names.
        map (λ name. name.items) names.items ≡ names_at (F.history files.now).tree folder.now) }
    ensures unread { IsErrOf result halt.Unread → F.reading_may_fail }
    ensures reading { IfErr result (λ e. (e ≡ halt.Unread) ⊎ (e ≡ halt.Memory)) }
{
    match files.list(alloc, folder) {
        Ok(names) => Ok(names),
        Err(FileError::Failed) => Err(Halt::Unread),
        Err(FileError::Memory) => Err(Halt::Memory),
    }
}
