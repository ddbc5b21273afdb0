//! What a log is read from at any place, and its length (`ReadAt`): bytes in memory, or a file (`FileAt`).

ghost use Rattle.std.specs.Prelude.{◌≡◌, ◌≤◌, ⊤, ℕ, List, length, take, IfOk, IsErrOf};
ghost use Rattle.gix_ref_file.specs.declared.files.FileError.TheVariants.{Failed};
ghost use Rattle.gix_ref_file.specs.Tree.{bytes_at, part, overwritten};

use gix_ref_file::{FileError, Files, Place};

/// Bytes that can be read at any place.
pub trait ReadAt {
    /// The bytes.
    ghost contents: { Self → List ℕ };

    /// Whether the bytes that readings give are those there, though they may be fewer than fit.
    ghost is_honest: { Self → Type 0 };

    /// Whether a reading gives as many bytes as fit.
    ghost gives_all: { Type 0 };

    /// Whether a reading may fail.
    ghost may_fail: { Type 0 };

    /// How many bytes there are. Returns `Failed` if the reading failed.
    fn len(&self) -> Result<u64, FileError>
        ensures told { is_honest self.now → IfOk result (λ len. len ≡ length (contents self.now)) }
        ensures failed { IsErrOf result Failed → may_fail };

    /// Puts bytes from `at` on into the beginning of the buffer and returns how many: as many as
    /// fit, if it gives all. The rest of the buffer stays as it was. Returns `Failed` if the
    /// reading failed.
    fn read_at(&self, at: u64, buffer: &mut [u8]) -> Result<usize, FileError>
        ensures count { is_honest self.now → gives_all
            → IfOk result (λ n. n ≡ length (part (contents self.now) at (length buffer.old))) }
        ensures within { is_honest self.now
            → IfOk result (λ n. n ≤ length (part (contents self.now) at (length buffer.old))) }
        ensures bytes { is_honest self.now
            → IfOk result (λ n. buffer.new
            ≡ overwritten buffer.old (take n (part (contents self.now) at (length buffer.old)))) }
        ensures len { length buffer.new ≡ length buffer.old }
        ensures failed { IsErrOf result Failed → may_fail };
}

impl ReadAt for &[u8] {
    ghost contents = { λ bytes. bytes.now };

    ghost is_honest = { λ _. ⊤ };

    ghost gives_all = { ⊤ };

    ghost may_fail = { ⊥ };

    fn len(&self) -> Result<u64, FileError> {
        let bytes: &[u8] = self;
        Ok(bytes.len() as u64)
    }

    fn read_at(&self, at: u64, buffer: &mut [u8]) -> Result<usize, FileError> {
        let start = at.min((**self).len() as u64) as usize;
        let count = buffer.len().min((**self).len() - start);
        buffer[..count].copy_from_slice(&self[start..start + count]);
        Ok(count)
    }
}

/// The file at a path, which has no bytes if there is none.
#[derive(Debug, Drop)]
pub struct FileAt<'a, F> {
    /// The files.
    pub files: &'a F,
    /// The path.
    pub path: &'a [u8],
}

impl<F: Files> ReadAt for FileAt<'_, F> {
    ghost contents = { λ file. bytes_at (F.history file.files.now).tree file.path.now };

    ghost is_honest = { λ file. F.is_honest file.files.now };

    ghost gives_all = { ⊤ };

    ghost may_fail = { F.reading_may_fail };

    fn len(&self) -> Result<u64, FileError> {
        match self.files.kind_of(self.path)? {
            Place::File(len) => Ok(len),
            Place::Absent | Place::Folder => Ok(0),
        }
    }

    fn read_at(&self, at: u64, buffer: &mut [u8]) -> Result<usize, FileError> {
        Ok(self.files.read_at(self.path, at, buffer)?.unwrap_or(0))
    }
}
