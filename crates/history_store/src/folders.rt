//! Makes the folder that an object's file is in, and those above it, if they are missing, and notes which exist.
ghost use Rattle.std.specs.Prelude.{◌≡◌, ◌≤◌, OnOk, IsErrOf};
ghost use Rattle.gix_ref_file.specs.Calls.{Passes};
ghost use Rattle.gix_ref_file.specs.History.{HasRisen};
ghost use Rattle.gix_ref_file.specs.Tree.{IsRooted, Tree, parent};
ghost use Rattle.gix_ref_file.specs.declared.files.FileError.TheVariants.{Failed, Memory};
ghost use Rattle.gix_ref_way.specs.Ways.{SameFiles, FoldersAbove, IsFolderAt, NoFileAbove, HasFoldersAbove, KeepsFolders};
ghost use Rattle.history_check_objects.specs.Folders.{HasFolders};
ghost use Rattle.history_store.specs.Seen.{seen_at};
ghost use Rattle.history_store.specs.Stores.{IsObjectPlace};

use gix_ref_file::paths::parent;
use gix_ref_file::{FileError, Files};
use std::alloc::{AllocError, Global};
use std::collections::BTreeSet;

/// What exists at an object's place, or of the two folders that it is in.
#[derive(Clone, Copy, PartialEq, Eq, Debug)]
pub(crate) enum Seen {
    /// Nothing: the folder of all objects is missing too.
    Nothing,
    /// The folder of all objects; the object's own is missing.
    Top,
    /// The object's own folder; no file is at the place.
    Folder,
    /// A file at the place.
    File,
}

/// Makes those of an object's two folders that are missing, as the caller has seen: nothing is
/// looked up. Files stay. Returns `Failed` if a file exists at one of the folders or a call of the
/// files failed, and `Memory` if no memory is left.
pub(crate) fn make_missing<F: Files>(
    alloc: Global,
    files: &mut F,
    path: &[u8],
    seen: Seen,
) -> Result<(), FileError>
    ensures honest { F.is_honest files.old → F.is_honest files.new }
    ensures moments { Passes F.is_honest F.history files.old files.new SameFiles }
    ensures folders { Passes F.is_honest F.history files.old files.new (FoldersAbove path.now) }
    ensures stay { Passes F.is_honest F.history files.old files.new KeepsFolders }
    ensures later { F.failures files.old ≤ F.failures files.new }
    ensures unfailed { OnOk result (F.failures files.new ≡ F.failures files.old) }
    ensures memory { IsErrOf result Memory → F.failures files.new ≡ F.failures files.old }
    ensures made { F.is_honest files.old → seen ≡ seen_at (F.history files.old).tree path.now
        → OnOk result (HasFoldersAbove path.now (F.history files.new).tree) }
    ensures failed { F.is_honest files.old → NoFileAbove path.now (F.history files.old).tree
        → seen ≡ seen_at (F.history files.old).tree path.now
        → IsObjectPlace path.now
        → IsErrOf result Failed → HasRisen (F.failures files.old) (F.failures files.new) }
{
    let folder = parent(path);
    match seen {
        Seen::Nothing => {
            files.make_folder(alloc, parent(folder))?;
            files.make_folder(alloc, folder)
        }
        Seen::Top => files.make_folder(alloc, folder),
        Seen::Folder | Seen::File => Ok(()),
    }
}

/// Notes that the two folders of an object's place exist. Fails only if memory runs out; the first
/// may be noted then.
pub(crate) fn note_folders(
    alloc: Global,
    folders: &mut BTreeSet<Vec<u8>>,
    place: &[u8],
) -> Result<(), AllocError>
    ensures { (tree : Tree) → IsRooted tree → IsFolderAt (parent place.now) tree
        → HasFolders tree folders.old → HasFolders tree folders.new }
{
    let folder = parent(place);
    note_folder(alloc, folders, parent(folder))?;
    note_folder(alloc, folders, folder)
}

// Notes that a folder exists. Fails only if memory runs out.
fn note_folder(
    alloc: Global,
    folders: &mut BTreeSet<Vec<u8>>,
    folder: &[u8],
) -> Result<(), AllocError>
    ensures { (tree : Tree) → IsFolderAt folder.now tree
        → HasFolders tree folders.old → HasFolders tree folders.new }
{
    if !folders.contains(folder) {
        folders.insert(folder.to_vec(alloc)?)?;
    }
    Ok(())
}
