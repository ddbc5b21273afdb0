//! What a move does to a reference's file and log (`Act`, `Move`); its errors, also from a call of the files.

ghost use Rattle.std.specs.Prelude.{◌≡◌, ◌⊎◌, IfErr, IsErrOf, OnOk};
ghost use Rattle.gix_ref_file.specs.declared.files.FileError.TheVariants as file_case;
ghost use Rattle.gix_ref_lock.specs.Calls.{IsForMemory, EndsQuietly};
ghost use Rattle.gix_ref_lock.specs.Needs.{IsOutOfMemory};

use crate::lock::Lock;
use crate::packed;
use gix_ref_file::FileError;
use thiserror::Error;

/// What is done to a reference's own file and to its log.
#[derive(Debug, Drop, PartialEq, Eq)]
pub enum Act {
    /// Appends this line, if there is one, to the log; then renames the lock to the file's place.
    Put(Option<Vec<u8>>),
    /// Appends this line, if there is one, to the log; then gives the lock back.
    Note(Option<Vec<u8>>),
    /// Appends this line, if there is one, to the log. After packed records are replaced, which say
    /// what the file said, the file is removed.
    Pack(Option<Vec<u8>>),
    /// Removes the log, and then the file.
    Remove,
    /// Removes the log.
    Forget,
}

/// What is done to the files of one reference, whose lock is held.
#[derive(Debug, Drop)]
pub struct Move {
    /// The lock of its own file.
    pub lock: Lock,
    /// The path of its log.
    pub log: Vec<u8>,
    /// What is done to them.
    pub act: Act,
}

/// Why a line isn't appended to a log.
#[derive(Debug, Clone, Copy, PartialEq, Eq, Error)]
pub enum LogError {
    /// The folders that the log is in couldn't be made.
    #[error("the folders of a log can't be made")]
    CreateLeadingDirectories,
    /// The line couldn't be appended to the log.
    #[error("a log can't get its line")]
    Append,
    /// The message holds a line feed, which would end the line.
    #[error("a log's message must not hold a line feed")]
    MessageWithNewlines,
    /// No committer was given.
    #[error("a log's line needs a committer")]
    MissingCommitter,
    /// The committer has no spelling.
    #[error("the committer has no spelling")]
    Unspellable,
}

/// Why a transaction isn't committed.
#[derive(Debug, Clone, Copy, PartialEq, Eq, Error)]
pub enum CommitError {
    /// The packed references couldn't be replaced.
    #[error(transparent)]
    PackedTransactionCommit(packed::CommitError),
    /// A lock couldn't be renamed to its place, or given back.
    #[error("a lock can't be put in its place")]
    LockCommit,
    /// The file of a reference couldn't be removed.
    #[error("the file of a reference can't be removed")]
    DeleteReference,
    /// The log of a reference couldn't be removed.
    #[error("the log of a reference can't be removed")]
    DeleteReflog,
    /// A line couldn't be made for the log of a reference, or couldn't be appended to it.
    #[error(transparent)]
    CreateOrUpdateRefLog(LogError),
    /// Memory ran out.
    #[error("no memory is left")]
    Memory,
}

// Returns the outcome of a call of the files: `why` if the call failed, and `Memory` if memory ran
// out.
pub(crate) fn outcome_of_call(
    outcome: Result<(), FileError>,
    why: CommitError,
) -> Result<(), CommitError>
    ensures done { OnOk result (outcome ≡ Ok tt) }
    ensures passed { outcome ≡ Ok tt → result ≡ Ok tt }
    ensures failed { IfErr result (λ error.
        IsOutOfMemory error ⊎ IsErrOf outcome file_case.Failed) }
    ensures quiet { ¬ IsOutOfMemory why
        → EndsQuietly IsOutOfMemory result → EndsQuietly IsForMemory outcome }
{
    match outcome {
        Ok(()) => Ok(()),
        Err(FileError::Failed) => Err(why),
        Err(FileError::Memory) => Err(CommitError::Memory),
    }
}
