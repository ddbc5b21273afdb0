//! The types that code and definitions share: a file's kind, a refusal's cause, a fault, how a run ends.
#![tactic(auto)]

/// What a file is.
#[derive(Clone, Copy, PartialEq, Eq)]
pub enum FileKind {
    /// A plain file.
    File,
    /// A file that may be run.
    Exec,
    /// A symbolic link; its content is the target.
    Link,
}

/// Why a command is refused, in the order of the tests.
#[derive(Clone, Copy)]
pub enum Cause {
    Syntax,
    Truncated,
    LineTooLong,
    BadName,
    PrivateName,
    NameTwice,
    UnknownWord,
    AmbiguousWord,
    UnbornHead,
    NotACommit,
    NoSuchName,
    Taken,
    NotExpected,
    Collides,
    HoldsTag,
    TooManyParents,
    DuplicateParent,
    BadPath,
    IsFolder,
    NoSuchPath,
    BadActor,
    BadTime,
    BadMessage,
    TooLarge,
    NothingMoves,
    OrderWithParents,
}

/// Why a command that is not refused fails.
#[derive(Clone, Copy)]
pub enum Fault {
    /// Memory ran out.
    Memory,
    /// A call of the files failed.
    File,
    /// An object's id is reserved, or is that of other bytes.
    IdTaken,
}

/// How a run ends.
#[derive(Clone, Copy, Debug, PartialEq, Eq)]
pub enum End {
    /// At the end of the input, between two commands.
    Input,
    /// At a rest of the input that begins with no command.
    Refused,
    /// After a fault in a command that changes files, or if memory ran out at a rest that begins
    /// with no command.
    Fault,
}

pub mod laws;
pub mod limits;
pub mod names;
pub mod rows;
