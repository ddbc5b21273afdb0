//! Why a log that is read from its end isn't read on, or a line of it isn't read.

use crate::iter::decode;
use gix_ref_file::FileError;

/// Why a log isn't read on.
#[derive(Debug, Clone, Copy, PartialEq, Eq, thiserror::Error)]
pub enum IoError {
    /// A reading failed, or was refused memory.
    #[error("the log couldn't be read")]
    Reader(FileError),
    /// Fewer bytes came than the log's length says.
    #[error("the log is shorter than it told")]
    Short,
    /// The buffer has no room for any byte.
    #[error("the buffer is empty")]
    NoBuffer,
    /// The next line and a line feed, or the log's first line alone, are longer than the buffer.
    #[error("the buffer is too small for the next line")]
    LineTooLong,
}

/// What comes in the place of a line.
#[derive(Debug, Clone, Copy, PartialEq, Eq, thiserror::Error)]
pub enum Error {
    /// The log isn't read on: nothing comes after it.
    #[error(transparent)]
    Io(IoError),
    /// The next line is no line of a log: the line before it comes next.
    #[error(transparent)]
    Decode(decode::Error),
    /// No memory is left for the next line: nothing comes after it.
    #[error("no memory is left")]
    Memory,
}
