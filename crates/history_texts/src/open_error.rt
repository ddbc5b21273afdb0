//! Why a repository's folder isn't opened (`OpenError`), also as made of an error of files or of memory.
ghost use Rattle.std.specs.Prelude.{◌≡◌};
ghost use Rattle.history_texts.specs.OpenErrors.{file_error};
ghost use Rattle.history_texts.specs.declared.open_error.OpenError.TheVariants.{Memory};

use gix_hash::ObjectId;
use gix_ref_file::FileError;
use std::alloc::{AllocError, AllocFailed};
use thiserror::Error;

/// Why a folder isn't opened: a cause that holds of its two parts. Paths and names are in bytes,
/// whole from the part's root; lines count from 1.
#[derive(Debug, Drop, Error)]
pub enum OpenError {
    #[error("HEAD is missing")]
    NoHead,
    /// HEAD isn't `ref: `, a branch's name and a line feed.
    #[error("HEAD doesn't name a branch")]
    BadHead,
    /// There is a file or a folder where no repository has one.
    #[error("stray: {0:?}")]
    Stray(Vec<u8>),
    /// There is a file where files are written before they are renamed to their places.
    #[error("unfinished: {0:?}")]
    Unfinished(Vec<u8>),
    /// The file's text is no object's, or that of a commit or a tag that isn't in written form
    /// within the limits, for a reason other than those of `BadTime` and `BadTag`.
    #[error("no object: {0:?}")]
    BadObject(Vec<u8>),
    /// The file's text has another id than its place says.
    #[error("the id is wrong: {0:?}")]
    WrongId(Vec<u8>),
    /// The object has more than 16,777,216 bytes.
    #[error("too large: {0:?}")]
    TooLarge(Vec<u8>),
    /// The tree isn't in written form, or has a path of more than 4,096 bytes.
    #[error("a bad tree: {0}")]
    BadTree(ObjectId),
    /// A time in the commit, or in the tag of a commit, is before 1970.
    #[error("a time before 1970: {0}")]
    BadTime(ObjectId),
    /// The tag is of a blob, a tree or another tag.
    #[error("a tag of no commit: {0}")]
    BadTag(ObjectId),
    /// The object isn't stored, but this names it.
    #[error("{0} is missing, named by {1:?}")]
    Missing(ObjectId, NamedBy),
    /// The object is of another kind than this says, which names it.
    #[error("{0} is of another kind than {1:?} says")]
    WrongKind(ObjectId, NamedBy),
    /// The object reaches itself through what objects name.
    #[error("a cycle: {0}")]
    Cycle(ObjectId),
    /// An object has the null id, or one that isn't the empty tree has the empty tree's.
    #[error("a reserved id")]
    IdReserved,
    /// A file below `refs` whose path is no name, or that holds neither an id of the repository's
    /// kind nor a name.
    #[error("no name: {0:?}")]
    BadName(Vec<u8>),
    /// The name belongs to one working tree.
    #[error("private: {0:?}")]
    PrivateName(Vec<u8>),
    /// The name is symbolic: it holds another name.
    #[error("symbolic: {0:?}")]
    Symbolic(Vec<u8>),
    /// This line of `packed-refs` isn't in its form, or its name may not follow those before it: it
    /// is no name, it has a record already, or it descends though the header says that names
    /// ascend.
    #[error("line {0} of the packed names is malformed or out of order")]
    BadPacked(usize),
    /// The peeled id in the name's record isn't that of the commit of a tag that the record holds.
    #[error("the peeled id is wrong: {0:?}")]
    BadPeeled(Vec<u8>),
    /// The first name is a folder of the second one.
    #[error("{0:?} is a folder of {1:?}")]
    Collides(Vec<u8>, Vec<u8>),
    /// The line of the log of this path isn't in its form and limits.
    #[error("{0:?}: line {1} is no move")]
    BadLog(Vec<u8>, usize),
    /// The line of the log of this path has more than 4,096 bytes, with its line feed.
    #[error("{0:?}: line {1} is too long")]
    LongLogLine(Vec<u8>, usize),
    /// The name of the log of this path doesn't exist.
    #[error("no name has the log {0:?}")]
    LogWithoutName(Vec<u8>),
    /// A call of the files failed.
    #[error("a call of the files failed")]
    File,
    /// Memory ran out.
    #[error("a growth was refused")]
    Memory,
}

/// What names an object.
#[derive(Debug, Drop)]
pub enum NamedBy {
    /// A stored object.
    Object(ObjectId),
    /// A name, which holds the object's id.
    Name(Vec<u8>),
}

impl From<FileError> for OpenError {
    ghost from_gives = { λ error refusal. refusal ≡ file_error error };

    fn from(error: FileError) -> OpenError {
        match error {
            FileError::Failed => OpenError::File,
            FileError::Memory => OpenError::Memory,
        }
    }
}

impl From<AllocError> for OpenError {
    ghost from_gives = { λ _ refusal. refusal ≡ Memory };

    fn from(_: AllocError) -> OpenError {
        OpenError::Memory
    }
}

impl<T: Drop> From<AllocFailed<T>> for OpenError {
    ghost from_gives = { λ _ refusal. refusal ≡ Memory };

    fn from(_: AllocFailed<T>) -> OpenError {
        OpenError::Memory
    }
}
