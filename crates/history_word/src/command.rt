//! The commands of the program as they are read, and their fields: what is kept of one, and what changes files.

use history_model::FileKind;
use history_model::limits::MAX_TITLE;
use std::alloc::{AllocError, Global};

/// How many of its first bytes are kept of a field over its limit: enough to judge a title.
pub(crate) const MAX_KEPT: usize = MAX_TITLE + 1;

/// A field of a command.
#[derive(Drop)]
pub enum Field {
    /// All of its bytes.
    Whole(Vec<u8>),
    /// The first 1,025 bytes, or all if there are fewer, of a field over its limit.
    TooLong(Vec<u8>),
}

/// What a command expects of the name that it moves.
#[derive(Drop)]
pub enum Expect {
    /// Nothing.
    Any,
    /// That it doesn't exist.
    New,
    /// That it is at the commit of this word.
    At(Vec<u8>),
}

/// A file to be put at a path. The path has at most 4,096 bytes, the content at most 16,777,216.
#[derive(Drop)]
pub struct Put {
    pub kind: FileKind,
    pub path: Field,
    pub content: Field,
}

/// The files that another commit has at or below a source, to be put at a path; an empty source
/// means all of them. The commit is a word's. The path and the source have at most 4,096 bytes
/// each.
#[derive(Drop)]
pub struct Graft {
    pub path: Field,
    pub word: Vec<u8>,
    pub source: Field,
}

/// One change of a commit's files. The path of a removal has at most 4,096 bytes.
#[derive(Drop)]
pub enum Edit {
    Put(Put),
    /// Removes everything at or below the path, if there is anything.
    Remove(Field),
    /// Removes the file at the path; refused if there are files below it.
    RemoveFile(Field),
    Graft(Graft),
}

/// Who acts, and when: the seconds and the offset are the words that were sent. The name and the
/// email have at most 512 bytes each.
#[derive(Drop)]
pub struct ActorLine {
    pub name: Field,
    pub email: Field,
    pub seconds: Vec<u8>,
    pub offset: Vec<u8>,
}

/// Stores a commit, and moves a name to it. The parents are words, in order; the edits are made in
/// order. The message has at most 16,777,216 bytes.
#[derive(Drop)]
pub struct CommitCommand {
    pub name: Vec<u8>,
    pub expect: Expect,
    pub parents: Vec<Vec<u8>>,
    pub edits: Vec<Edit>,
    pub author: ActorLine,
    pub committer: ActorLine,
    pub message: Field,
}

/// Stores a tag of a word's commit, and moves a name to it. The message has at most 16,777,216
/// bytes.
#[derive(Drop)]
pub struct TagCommand {
    pub name: Vec<u8>,
    pub expect: Expect,
    pub word: Vec<u8>,
    pub tagger: ActorLine,
    pub message: Field,
}

/// One name of a move: what is expected of it, and the word of the commit to which it moves.
#[derive(Drop)]
pub struct To {
    pub name: Vec<u8>,
    pub expect: Expect,
    pub word: Vec<u8>,
}

/// Moves one or more names, all of them or none. The message has at most 16,777,216 bytes.
#[derive(Drop)]
pub struct MoveCommand {
    pub to: Vec<To>,
    pub actor: ActorLine,
    pub message: Field,
}

/// Creates a name with the id of another, and deletes that one with its log.
#[derive(Drop)]
pub struct Rename {
    pub from: Vec<u8>,
    pub to: Vec<u8>,
}

/// Deletes a name with its log. What is expected of the name is nothing, or that it is at a word's
/// commit.
#[derive(Drop)]
pub struct Delete {
    pub name: Vec<u8>,
    pub expect: Expect,
}

/// Shows a commit, or the file at a path. The path has at most 4,096 bytes.
#[derive(Drop)]
pub struct Show {
    pub word: Vec<u8>,
    pub path: Option<Field>,
}

/// The order in which a log lists its commits. The seconds are the words that were sent.
#[derive(Drop)]
pub enum Order {
    Breadth,
    Newest,
    Oldest,
    /// The newest first, of those made at these seconds or later.
    NewestSince(Vec<u8>),
    /// The oldest first, of those made at these seconds or later.
    OldestSince(Vec<u8>),
    Date,
    Topological,
}

/// Where a log begins, or what it leaves out.
#[derive(Drop)]
pub enum LogItem {
    /// It begins at this word's commit.
    Tip(Vec<u8>),
    /// This word's commit and all that it reaches are left out.
    Hidden(Vec<u8>),
}

/// Lists the commits that some commits reach, or those of them that differ at some paths. At least
/// one item is a tip. A path has at most 4,096 bytes.
#[derive(Drop)]
pub struct LogCommand {
    pub order: Order,
    /// Whether only the first of a commit's parents is followed.
    pub first_parents: bool,
    pub items: Vec<LogItem>,
    /// If there are none, all commits are listed.
    pub paths: Vec<Field>,
}

/// A client's command. A word is nonempty, without space or line feed, and a line's words have at
/// most 4,096 bytes.
#[derive(Drop)]
pub enum Command {
    Commit(CommitCommand),
    Tag(TagCommand),
    Move(MoveCommand),
    Rename(Rename),
    Delete(Delete),
    /// Lists the files of this word's commit.
    Files(Vec<u8>),
    Show(Show),
    /// Lists the names, or those in this folder.
    Names(Option<Vec<u8>>),
    /// Lists the moves of this word's name.
    Past(Vec<u8>),
    /// Sets HEAD to this branch.
    Switch(Vec<u8>),
    /// Writes every name to `packed-refs` and removes their own files.
    Pack,
    /// Makes rows of all stored commits, which later logs walk over.
    Index,
    Log(LogCommand),
}

impl Field {
    ghost use Rattle.std.specs.Prelude.{ℕ, [], ◌++◌, OnOk};
    ghost use Rattle.history_model.specs.Bytes.{Bytes};
    ghost use Rattle.history_word.specs.Fields.{KeepsFront};

    /// Returns a field of this size, of which nothing has come yet.
    pub(crate) fn new(alloc: Global, size: u64, limit: usize) -> Self
        ensures { KeepsFront limit size result [] }
    {
        if size <= limit as u64 {
            Field::Whole(Vec::new(alloc))
        } else {
            Field::TooLong(Vec::new(alloc))
        }
    }

    /// Adds the next bytes. Fails if memory runs out.
    pub(crate) fn add(&mut self, bytes: &[u8]) -> Result<(), AllocError>
        ensures { (limit size : ℕ) (front : Bytes) → KeepsFront limit size self.old front
            → OnOk result (KeepsFront limit size self.new (front ++ bytes.now)) }
    {
        match self {
            Field::Whole(kept) => kept.extend_from_slice(bytes),
            Field::TooLong(kept) => {
                let room = MAX_KEPT.saturating_sub(kept.len());
                kept.extend_from_slice(&bytes[..room.min(bytes.len())])
            }
        }
    }
}

impl Command {
    ghost use Rattle.std.specs.Prelude.{◌≡◌};
    ghost use Rattle.history_model.specs.Commands as model;
    ghost use Rattle.history_model.specs.Stops as stops;
    ghost use Rattle.history_word.specs.Commands.{IsCommandOf, is_changing};

    /// Returns whether the command changes files.
    pub fn is_changing(&self) -> bool
        ensures same { result ≡ is_changing self.now }
        ensures sent { (sent : model.Command) → IsCommandOf self.now sent
            → result ≡ stops.is_changing sent }
    {
        matches!(
            self,
            Command::Commit(_)
                | Command::Tag(_)
                | Command::Move(_)
                | Command::Rename(_)
                | Command::Delete(_)
                | Command::Switch(_)
                | Command::Pack
        )
    }
}
