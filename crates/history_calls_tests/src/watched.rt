//! Files that count readings of `packed-refs`, and beside which another writer makes a lock.

ghost use Rattle.std.specs.Prelude.{⊤};
ghost use Rattle.gix_ref_file.specs.Past.{history_of};

use gix_ref_file::{FileError, Files, MemoryFiles, Place};
use history_store::PACKED;
use std::alloc::Global;
use std::cell::Cell;

/// What the other writer's lock holds.
pub const THEIRS: &[u8] = b"theirs";

/// Files in memory. Just before a lock is made at a path, another writer has made it.
#[derive(Drop)]
pub struct Watched {
    files: MemoryFiles,
    lock: &'static [u8],
    readings: Cell<u64>,
}

impl Watched {
    /// Watches these files. The other writer makes the lock at that path, or at an empty one none.
    pub fn new(files: MemoryFiles, lock: &'static [u8]) -> Self {
        Watched {
            files,
            lock,
            readings: Cell::new(0),
        }
    }

    pub fn into_inner(self) -> MemoryFiles {
        self.files
    }

    /// Returns how many calls were about `packed-refs`.
    pub fn readings(&self) -> u64 {
        self.readings.get()
    }

    fn count(&self, path: &[u8]) {
        if path == PACKED {
            self.readings.set(self.readings.get().saturating_add(1));
        }
    }
}

// Nothing is claimed of what they hold.
impl Files for Watched {
    ghost history = { λ watched. history_of watched.files };

    ghost is_honest = { λ _. ⊥ };

    ghost failures = { λ _. 0 };

    ghost reading_may_fail = { ⊤ };

    ghost is_atomic = { ⊥ };

    fn kind_of(&self, path: &[u8]) -> Result<Place, FileError> {
        self.count(path);
        self.files.kind_of(path)
    }

    fn read(&self, path: &[u8], out: &mut Vec<u8>) -> Result<Option<usize>, FileError> {
        self.count(path);
        self.files.read(path, out)
    }

    fn read_at(&self, path: &[u8], at: u64, buffer: &mut [u8]) -> Result<Option<usize>, FileError> {
        self.count(path);
        self.files.read_at(path, at, buffer)
    }

    fn list(&self, alloc: Global, folder: &[u8]) -> Result<Vec<Vec<u8>>, FileError> {
        self.files.list(alloc, folder)
    }

    fn create_new(&mut self, alloc: Global, path: &[u8], bytes: &[u8]) -> Result<bool, FileError> {
        if path == self.lock {
            self.files.write(alloc, path, THEIRS)?;
        }
        self.files.create_new(alloc, path, bytes)
    }

    fn write(&mut self, alloc: Global, path: &[u8], bytes: &[u8]) -> Result<(), FileError> {
        self.files.write(alloc, path, bytes)
    }

    fn append(&mut self, alloc: Global, path: &[u8], bytes: &[u8]) -> Result<(), FileError> {
        self.files.append(alloc, path, bytes)
    }

    fn shorten(&mut self, alloc: Global, path: &[u8], length: u64) -> Result<(), FileError> {
        self.files.shorten(alloc, path, length)
    }

    fn rename(&mut self, alloc: Global, from: &[u8], to: &[u8]) -> Result<(), FileError> {
        self.files.rename(alloc, from, to)
    }

    fn remove_file(&mut self, alloc: Global, path: &[u8]) -> Result<(), FileError> {
        self.files.remove_file(alloc, path)
    }

    fn make_folder(&mut self, alloc: Global, path: &[u8]) -> Result<(), FileError> {
        self.files.make_folder(alloc, path)
    }

    fn remove_empty_folder(&mut self, alloc: Global, path: &[u8]) -> Result<(), FileError> {
        self.files.remove_empty_folder(alloc, path)
    }

    ghost rooted = { λ watched honest. absurd honest };
}
