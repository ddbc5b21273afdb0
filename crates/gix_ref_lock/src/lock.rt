//! A file's lock, `<path>.lock`: acquired, filled with new bytes, put in the file's place, or given back.

ghost use Rattle.std.specs.Prelude.{◌≡◌, ◌≢◌, ◌⊎◌, false, None, Some, IfOk, IfSome, OnOk, IsErrOf, IsTrue};
ghost use Rattle.gix_ref_file.specs.Changes.{is_file_at, may_hold_file};
ghost use Rattle.gix_ref_file.specs.History.{HasRisen};
ghost use Rattle.gix_ref_file.specs.declared.files.FileError.TheVariants.{Failed};
ghost use Rattle.gix_ref_lock.specs.declared.lock.GivenBack.TheVariants as given;
ghost use Rattle.gix_ref_file.specs.Tree.{file, node_at, bytes_at};
ghost use Rattle.gix_ref_file.specs.Calls.{HasFault, Passes};
ghost use Rattle.gix_ref_lock.specs.Calls.{IsBusy, IsForMemory, EndsQuietly, IsUnlocked, KeepsFolders};
ghost use Rattle.gix_ref_lock.specs.GivenBacks.{worse};
ghost use Rattle.gix_ref_lock.specs.Locks.{lock_of, OthersStay, KeepsHeld, IsTaken, MayBePut, IsPut};

use gix_ref_file::{FileError, Files};
use gix_ref_way::is_file;
use std::alloc::{AllocError, Global};

/// A lock that is held: a file is at its path.
#[derive(Debug, Drop)]
pub struct Lock {
    /// The path of what is locked.
    pub place: Vec<u8>,
    /// The path of the lock itself.
    pub path: Vec<u8>,
    ghost beside: { path.items ≡ lock_of place.items },
}

/// What came of giving locks back.
#[derive(Debug, Clone, Copy, PartialEq, Eq)]
pub enum GivenBack {
    /// No lock is left.
    Done,
    /// Memory was refused, so that one may be left. No removal failed.
    Memory,
    /// A removal failed.
    Failed,
}

impl GivenBack {
    /// Returns the worse of both: `Failed` before `Memory`.
    pub fn or_worse(self, other: GivenBack) -> GivenBack
        ensures { result ≡ worse self other }
    {
        match self {
            GivenBack::Failed => GivenBack::Failed,
            GivenBack::Memory => match other {
                GivenBack::Failed => GivenBack::Failed,
                GivenBack::Done | GivenBack::Memory => GivenBack::Memory,
            },
            GivenBack::Done => other,
        }
    }
}

/// Makes the lock of a place, an empty file; `None` if something is at the lock's path already.
/// Returns `Failed` if the path may hold no file or a call of the files failed, and `Memory` if no
/// memory is left.
pub fn acquire<F: Files>(
    alloc: Global,
    files: &mut F,
    place: &[u8],
) -> Result<Option<Lock>, FileError>
    ensures keeps { KeepsFolders F.Files (EndsQuietly IsForMemory result) files.old files.new }
    ensures place { IfOk result (λ found. IfSome found (λ lock. lock.place.items ≡ place.now)) }
    ensures moments { Passes F.is_honest F.history files.old files.new
        (OthersStay (lock_of place.now)) }
    ensures fresh { Passes F.is_honest F.history files.old files.new (KeepsHeld (lock_of place.now)) }
    ensures taken { F.is_honest files.old → IfOk result (λ found. IfSome found (λ _.
        IsTaken (lock_of place.now) (F.history files.old).tree (F.history files.new).tree)) }
    ensures busy { F.is_honest files.old → IfOk result (λ found. found ≡ None
        → IsBusy (lock_of place.now) (F.history files.old).tree (F.history files.new).tree) }
    ensures failed { F.is_honest files.old → IsErrOf result Failed
        → IsUnlocked place.now (F.history files.old).tree (F.history files.new).tree
        (F.failures files.old) (F.failures files.new) }
{
    let path = lock_path(alloc, place)?;
    let place = place.to_vec(alloc)?;
    if files.create_new(alloc, &path, &[])? {
        Ok(Some(Lock { place, path }))
    } else {
        Ok(None)
    }
}

fn lock_path(alloc: Global, place: &[u8]) -> Result<Vec<u8>, AllocError>
    ensures { IfOk result (λ path. path.items ≡ lock_of place.now) }
{
    let mut path = place.to_vec(alloc)?;
    path.extend_from_slice(b".lock")?;
    Ok(path)
}

impl Lock {
    /// Writes these bytes into the lock, in place of what it held. Returns `Failed` if a call of
    /// the files failed; a lock that is there then stays.
    pub fn fill<F: Files>(
        &self,
        alloc: Global,
        files: &mut F,
        bytes: &[u8],
    ) -> Result<(), FileError>
        ensures keeps { KeepsFolders F.Files (EndsQuietly IsForMemory result) files.old files.new }
        ensures moments { Passes F.is_honest F.history files.old files.new
            (OthersStay self.now.path.items) }
        ensures stays { F.is_honest files.old
            → IsTrue (is_file_at (F.history files.old).tree self.now.path.items)
            → IsTrue (is_file_at (F.history files.new).tree self.now.path.items) }
        ensures failed { F.is_honest files.old
            → IsTrue (is_file_at (F.history files.old).tree self.now.path.items)
            → IsErrOf result Failed → HasRisen (F.failures files.old) (F.failures files.new) }
        ensures filled { F.is_honest files.old → OnOk result
            (node_at (F.history files.new).tree self.now.path.items ≡ Some (file bytes.now)) }
    {
        files.write(alloc, &self.path, bytes)
    }

    /// Removes the lock. Returns `Failed` if there is none or a call of the files failed.
    pub fn give_back<F: Files>(&self, alloc: Global, files: &mut F) -> Result<(), FileError>
        ensures keeps { KeepsFolders F.Files (EndsQuietly IsForMemory result) files.old files.new }
        ensures moments { Passes F.is_honest F.history files.old files.new
            (OthersStay self.now.path.items) }
        ensures failed { F.is_honest files.old → IsErrOf result Failed
            → HasRisen (F.failures files.old) (F.failures files.new)
            ⊎ (is_file_at (F.history files.new).tree self.now.path.items ≡ false) }
        ensures held { F.is_honest files.old
            → IsTrue (is_file_at (F.history files.old).tree self.now.path.items)
            → IsErrOf result Failed → HasRisen (F.failures files.old) (F.failures files.new) }
        ensures gone { F.is_honest files.old → OnOk result
            (node_at (F.history files.new).tree self.now.path.items ≡ None) }
    {
        files.remove_file(alloc, &self.path)
    }

    /// Removes the lock, unless it is read that none is there. Returns `Failed` if its removal
    /// failed, and `Memory` if no memory is left.
    pub fn withdraw<F: Files>(&self, alloc: Global, files: &mut F) -> GivenBack
        ensures keeps { KeepsFolders F.Files (result ≢ given.Failed) files.old files.new }
        ensures moments { Passes F.is_honest F.history files.old files.new
            (OthersStay self.now.path.items) }
        ensures failed { F.is_honest files.old → result ≡ given.Failed
            → HasFault F.failures F.reading_may_fail files.old files.new }
        ensures held { F.is_honest files.old
            → IsTrue (is_file_at (F.history files.old).tree self.now.path.items)
            → result ≡ given.Failed → HasRisen (F.failures files.old) (F.failures files.new) }
        ensures gone { F.is_honest files.old → result ≡ given.Done
            → is_file_at (F.history files.new).tree self.now.path.items ≡ false }
    {
        // The removal of nothing might be counted as a failure.
        match is_file(files, &self.path) {
            Ok(false) => GivenBack::Done,
            Ok(true) | Err(FileError::Failed) => match self.give_back(alloc, files) {
                Ok(()) => GivenBack::Done,
                Err(FileError::Failed) => GivenBack::Failed,
                Err(FileError::Memory) => GivenBack::Memory,
            },
            Err(FileError::Memory) => GivenBack::Memory,
        }
    }

    /// Puts the lock in its place, replacing a file there whole. Returns `Failed` if a folder is in
    /// the place or a call of the files failed.
    pub fn put<F: Files>(&self, alloc: Global, files: &mut F) -> Result<(), FileError>
        ensures keeps { KeepsFolders F.Files (EndsQuietly IsForMemory result) files.old files.new }
        ensures moments { Passes F.is_honest F.history files.old files.new
            (MayBePut self.now.place.items self.now.path.items
            (bytes_at (F.history files.old).tree self.now.path.items)) }
        ensures failed { F.is_honest files.old
            → IsTrue (is_file_at (F.history files.old).tree self.now.path.items)
            → IsTrue (may_hold_file (F.history files.old).tree self.now.place.items)
            → IsErrOf result Failed → HasRisen (F.failures files.old) (F.failures files.new) }
        ensures put { F.is_honest files.old → OnOk result
            (IsPut self.now.place.items self.now.path.items
            (bytes_at (F.history files.old).tree self.now.path.items)
            (F.history files.new).tree) }
    {
        files.rename(alloc, &self.path, &self.place)
    }
}
