//! Logs by a reference's name (`reflog_exists`, `reflog_iter`), and a log's file (`LogFile`); why one isn't read.

ghost use Rattle.std.specs.Prelude.{◌≡◌, ⊤, [], None, is_some, length, option_map, IfOk, IfErr, IfSome, IsSome, IsErrOf};
ghost use Rattle.gix_ref_file.specs.Tree.{bytes_at};
ghost use Rattle.gix_ref_name.specs.Names.{name_of};
ghost use Rattle.gix_ref_log.specs.LogForward.{lines_of};
ghost use Rattle.gix_ref_log.specs.LogReverse.{stand_of};
ghost use Rattle.gix_ref_store.specs.Logs.{ReadsForward, ReadsBackward, BackFault, MayTell, log_text, told_of};
ghost use Rattle.gix_ref_store.specs.LogReaders.{IsBegun, IsOfLog};
ghost use Rattle.gix_ref_store.specs.declared.store.file.log.Error.TheVariants.{Io, Memory};
ghost use Rattle.gix_ref_log.specs.declared.iter.error.IoError.TheVariants.{NoBuffer};

use crate::store::file::Store;
use gix_ref_file::{FileError, Files, Place};
use gix_ref_log::iter::{Forward, IoError, ReadAt, Reverse, forward, reverse};
use gix_ref_name::FullNameRef;
use std::alloc::{AllocError, Global};
use thiserror::Error;

/// Why a log isn't read.
#[derive(Debug, Clone, Copy, PartialEq, Eq, Error)]
pub enum Error {
    /// The log couldn't be read, or the buffer is empty.
    #[error(transparent)]
    Io(IoError),
    /// No memory is left.
    #[error("no memory is left")]
    Memory,
}

impl From<AllocError> for Error {
    ghost from_gives = { λ _ e. e ≡ Memory };

    fn from(_: AllocError) -> Self {
        Error::Memory
    }
}

impl From<FileError> for Error {
    ghost from_gives = { λ e told. told ≡ told_of e };

    fn from(error: FileError) -> Self {
        match error {
            FileError::Failed => Error::Io(IoError::Reader(FileError::Failed)),
            FileError::Memory => Error::Memory,
        }
    }
}

/// The file of a log.
#[derive(Debug, Drop)]
pub struct LogFile<'s, F> {
    pub(crate) files: &'s F,
    pub(crate) path: Vec<u8>,
}

impl<F: Files> ReadAt for LogFile<'_, F> {
    ghost contents = { λ log. bytes_at (F.history log.files.now).tree log.path.items };

    ghost is_honest = { λ log. F.is_honest log.files.now };

    ghost gives_all = { ⊤ };

    ghost may_fail = { F.reading_may_fail };

    fn len(&self) -> Result<u64, FileError> {
        match self.files.kind_of(&self.path)? {
            Place::File(len) => Ok(len),
            Place::Absent | Place::Folder => Ok(0),
        }
    }

    fn read_at(&self, at: u64, buffer: &mut [u8]) -> Result<usize, FileError> {
        Ok(self.files.read_at(&self.path, at, buffer)?.unwrap_or(0))
    }
}

impl<F: Files> Store<F> {
    /// Returns whether a name has a log, and `Io` if a reading failed.
    pub fn reflog_exists(&self, alloc: Global, name: FullNameRef<'_>) -> Result<bool, Error>
        ensures exists { F.is_honest self.now.files
            → let text = log_text self.now (F.history self.now.files).tree (name_of name.entry) in
            IfOk result (λ found. found ≡ is_some text) }
        ensures failed { IfErr result (MayTell F.reading_may_fail) }
    {
        let path = self.home(name.to_path()).log_place(alloc)?;
        match self.files.kind_of(&path)? {
            Place::File(_) => Ok(true),
            Place::Absent | Place::Folder => Ok(false),
        }
    }

    /// Reads a name's log from its beginning; `None` if the name has no log. The log's bytes
    /// replace what is in the buffer. Returns `Io` if a reading failed.
    pub fn reflog_iter<'b>(
        &self,
        alloc: Global,
        name: FullNameRef<'_>,
        buffer: &'b mut Vec<u8>,
    ) -> Result<Option<Forward<'b>>, Error>
        ensures lines { F.is_honest self.now.files
            → let text = log_text self.now (F.history self.now.files).tree (name_of name.entry) in
            IfOk result (λ found. ReadsForward text (option_map lines_of found)) }
        ensures failed { IfErr result (MayTell F.reading_may_fail) }
    {
        let path = self.home(name.to_path()).log_place(alloc)?;
        buffer.clear();
        match self.files.read(&path, buffer)? {
            Some(_) => Ok(Some(forward(buffer))),
            None => Ok(None),
        }
    }

    /// Reads a name's log from its end, through a buffer of any size above zero; `None` if the name
    /// has no log. Returns `Io`: with `NoBuffer` if there is a log and the buffer is empty, and
    /// otherwise with the error of a reading that failed.
    pub fn reflog_iter_rev<'s, 'b>(
        &'s self,
        alloc: Global,
        name: FullNameRef<'_>,
        buffer: &'b mut [u8],
    ) -> Result<Option<Reverse<'b, LogFile<'s, F>>>, Error>
        ensures lines { F.is_honest self.now.files
            → let text = log_text self.now (F.history self.now.files).tree (name_of name.entry) in
            IfOk result (λ found. ReadsBackward text (option_map stand_of found)) }
        ensures file { F.is_honest self.now.files
            → IfOk result (λ found. IfSome found (IsOfLog self.now (name_of name.entry))) }
        ensures begun { IfOk result (λ found. IfSome found (IsBegun (length buffer.old))) }
        ensures empty { buffer.old ≡ [] → IfOk result (λ found. found ≡ None) }
        ensures unbuffered { F.is_honest self.now.files → IsErrOf result (Io NoBuffer)
            → IsSome (log_text self.now (F.history self.now.files).tree (name_of name.entry)) }
        ensures failed { IfErr result (BackFault F.reading_may_fail (¬ F.is_honest self.now.files)
            (buffer.old ≡ [])) }
    {
        if !self.reflog_exists(alloc, name)? {
            return Ok(None);
        }
        let path = self.home(name.to_path()).log_place(alloc)?;
        let log = LogFile {
            files: &self.files,
            path,
        };
        match reverse(alloc, log, buffer) {
            Ok(lines) => Ok(Some(lines)),
            Err(IoError::Reader(FileError::Memory)) => Err(Error::Memory),
            Err(error) => Err(Error::Io(error)),
        }
    }
}
