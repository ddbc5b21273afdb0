//! The folders that a file is in.
ghost use Rattle.std.specs.Prelude.{◌≡◌, ◌≤◌, true, IfOk, OnOk, IsErrOf, IsTrue};
ghost use Rattle.gix_ref_file.specs.Calls.{Achieves, Finds, HasFault, Passes};
ghost use Rattle.gix_ref_file.specs.Changes.{is_file_at};
ghost use Rattle.gix_ref_file.specs.History.{HasRisen};
ghost use Rattle.gix_ref_file.specs.Tree.{is_path, parent, node_at, is_folder};
ghost use Rattle.gix_ref_file.specs.declared.files.FileError.TheVariants.{Failed, Memory};
ghost use Rattle.gix_ref_way.specs.Halts.{IsQuiet};
ghost use Rattle.gix_ref_way.specs.declared.error.Halt.TheVariants as halt;
ghost use Rattle.gix_ref_way.specs.Ways.{SameFiles, OneFolderMore, FoldersAbove, NoFileAbove, HasFoldersAbove, KeepsFolders, TellsAbove};

use crate::error::Halt;
use gix_ref_file::paths::parent;
use gix_ref_file::{FileError, Files, Place};
use std::alloc::Global;

/// Makes those folders of a path that are missing, the outermost first. Files stay. If the path's
/// own folder exists, no more calls are made. Returns `Failed` if a file exists at one of the
/// folders or a call of the files failed, and `Memory` if no memory is left.
pub fn make_folders<F: Files>(alloc: Global, files: &mut F, path: &[u8]) -> Result<(), FileError>
    ensures honest { F.is_honest files.old → F.is_honest files.new }
    ensures moments { Passes F.is_honest F.history files.old files.new SameFiles }
    ensures folders { Passes F.is_honest F.history files.old files.new (FoldersAbove path.now) }
    ensures stay { Passes F.is_honest F.history files.old files.new KeepsFolders }
    ensures later { F.failures files.old ≤ F.failures files.new }
    ensures unfailed { OnOk result (F.failures files.new ≡ F.failures files.old) }
    ensures memory { IsErrOf result Memory → F.failures files.new ≡ F.failures files.old }
    ensures made { F.is_honest files.old → NoFileAbove path.now (F.history files.old).tree
        → OnOk result (HasFoldersAbove path.now (F.history files.new).tree) }
    ensures failed { F.is_honest files.old → NoFileAbove path.now (F.history files.old).tree
        → IsTrue (is_path path.now)
        → IsErrOf result Failed → HasFault F.failures F.reading_may_fail files.old files.new }
{
    match make_missing(alloc, files, path) {
        Ok(()) => Ok(()),
        Err(Halt::Memory) => Err(FileError::Memory),
        Err(Halt::Blocked | Halt::Unread | Halt::Failed) => Err(FileError::Failed),
    }
}

// Makes those folders of a path that are missing.
pub(crate) fn make_missing<F: Files>(alloc: Global, files: &mut F, path: &[u8]) -> Result<(), Halt>
    ensures honest { F.is_honest files.old → F.is_honest files.new }
    ensures moments { Passes F.is_honest F.history files.old files.new SameFiles }
    ensures folders { Passes F.is_honest F.history files.old files.new (FoldersAbove path.now) }
    ensures stay { Passes F.is_honest F.history files.old files.new KeepsFolders }
    ensures later { F.failures files.old ≤ F.failures files.new }
    ensures quiet { IsQuiet result (F.failures files.old) (F.failures files.new) }
    ensures made { F.is_honest files.old
        → OnOk result (HasFoldersAbove path.now (F.history files.new).tree) }
    ensures blocked { F.is_honest files.old → IsErrOf result halt.Blocked
        → TellsAbove path.now (F.history files.old).tree true }
    ensures unread { IsErrOf result halt.Unread → F.reading_may_fail }
    ensures failed { F.is_honest files.old → IsTrue (is_path path.now)
        → IsErrOf result halt.Failed → HasRisen (F.failures files.old) (F.failures files.new) }
{
    match is_folder(files, parent(path)) {
        // The folders above one that exists do, too.
        Ok(true) => Ok(()),
        Ok(false) => make_each(alloc, files, path),
        Err(FileError::Failed) => Err(Halt::Unread),
        Err(FileError::Memory) => Err(Halt::Memory),
    }
}

// Makes those folders of a path that are missing, and tests each.
fn make_each<F: Files>(alloc: Global, files: &mut F, path: &[u8]) -> Result<(), Halt>
    ensures honest { F.is_honest files.old → F.is_honest files.new }
    ensures moments { Passes F.is_honest F.history files.old files.new SameFiles }
    ensures folders { Passes F.is_honest F.history files.old files.new (FoldersAbove path.now) }
    ensures stay { Passes F.is_honest F.history files.old files.new KeepsFolders }
    ensures later { F.failures files.old ≤ F.failures files.new }
    ensures quiet { IsQuiet result (F.failures files.old) (F.failures files.new) }
    ensures made { F.is_honest files.old
        → OnOk result (HasFoldersAbove path.now (F.history files.new).tree) }
    ensures blocked { F.is_honest files.old → IsErrOf result halt.Blocked
        → TellsAbove path.now (F.history files.old).tree true }
    ensures unread { IsErrOf result halt.Unread → F.reading_may_fail }
    ensures failed { F.is_honest files.old → IsTrue (is_path path.now)
        → IsErrOf result halt.Failed → HasRisen (F.failures files.old) (F.failures files.new) }
{
    for (end, byte) in path.iter().enumerate() {
        if *byte == b'/' {
            make_folder(alloc, files, &path[..end])?;
        }
    }
    Ok(())
}

/// Returns whether a folder exists at the path. Returns `Failed` only if a reading failed.
pub fn is_folder<F: Files>(files: &F, path: &[u8]) -> Result<bool, FileError>
    ensures found { Finds F.is_honest F.history files.now (λ tree.
        IfOk result (λ found. found ≡ is_folder (node_at tree path.now))) }
    ensures failed { IsErrOf result Failed → F.reading_may_fail }
{
    match files.kind_of(path)? {
        Place::Folder => Ok(true),
        Place::Absent | Place::File(_) => Ok(false),
    }
}

// Makes a folder if nothing is there.
fn make_folder<F: Files>(alloc: Global, files: &mut F, folder: &[u8]) -> Result<(), Halt>
    ensures honest { F.is_honest files.old → F.is_honest files.new }
    ensures moments { Passes F.is_honest F.history files.old files.new SameFiles }
    ensures folders { Passes F.is_honest F.history files.old files.new (OneFolderMore folder.now) }
    ensures later { F.failures files.old ≤ F.failures files.new }
    ensures quiet { IsQuiet result (F.failures files.old) (F.failures files.new) }
    ensures stay { Passes F.is_honest F.history files.old files.new KeepsFolders }
    ensures kept { Achieves F.is_honest F.history files.old files.new result KeepsFolders }
    ensures made { F.is_honest files.old
        → OnOk result (IsTrue (is_folder (node_at (F.history files.new).tree folder.now))) }
    ensures blocked { F.is_honest files.old → IsErrOf result halt.Blocked
        → IsTrue (is_file_at (F.history files.old).tree folder.now) }
    ensures unread { IsErrOf result halt.Unread → F.reading_may_fail }
    ensures failed { F.is_honest files.old → IsTrue (is_path folder.now)
        → IsTrue (is_folder (node_at (F.history files.old).tree (parent folder.now)))
        → IsErrOf result halt.Failed → HasRisen (F.failures files.old) (F.failures files.new) }
{
    match files.kind_of(folder) {
        Ok(Place::Absent) => Ok(files.make_folder(alloc, folder)?),
        Ok(Place::File(_)) => Err(Halt::Blocked),
        Ok(Place::Folder) => Ok(()),
        Err(FileError::Failed) => Err(Halt::Unread),
        Err(FileError::Memory) => Err(Halt::Memory),
    }
}
