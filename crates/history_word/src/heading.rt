//! Parses a line that begins a part (`commit`, `put`, `author`, ..) into a `Heading`, with copies of its words.

ghost use Rattle.std.specs.Prelude.{◌≡◌, ◌∷◌, ◌≤◌, length, IfSome, IfNone, OnSome, IsTrue};
ghost use Rattle.history_model.specs.Lines.{ParentHeading, RemoveHeading, RemoveFileHeading, MessageHeading, EndHeading, MoveHeading, FilesHeading, PastHeading, SwitchHeading, PackHeading, IndexHeading};
ghost use Rattle.history_word.specs.LineTable.{heading_of, end_of_words, word_of_words, size_of_words, commit_of_words, put_of_words, graft_of_words, actor_of_words, show_of_words, names_of_words, log_of_words, name_heading_of, rename_of_words, delete_of_words};
ghost use Rattle.history_model.specs.Spelling.{max_line};
ghost use Rattle.history_word.specs.TableRuns.{IsLineAt};
ghost use Rattle.history_word.specs.Held.{IsUnbroken};
ghost use Rattle.history_word.specs.Lines.{split_words};
ghost use Rattle.history_word.specs.Words.{left};
ghost use Rattle.history_word.specs.Drafts.{role_of, place_of, Says};
ghost use Rattle.history_word.specs.Come.{IsLine};
ghost use Rattle.history_word.specs.declared.place.Place.{Place};

use crate::command::{Expect, To};
use crate::logs::LogLine;
use crate::targets::{expect, tag, to};
use crate::words::{Words, are_words, file_kind, number};
use history_model::FileKind;
use std::alloc::Global;

/// Whose line it is.
#[derive(Clone, Copy)]
pub(crate) enum Role {
    Author,
    Committer,
    Tagger,
    /// Of a move.
    Mover,
}

/// What an edit's line says. A number is the size of a field that follows the line; a word is
/// `None` if memory ran out for it.
#[derive(Drop)]
pub(crate) enum EditHeading {
    Put {
        kind: FileKind,
        path: u64,
        content: u64,
    },
    Remove {
        path: u64,
    },
    RemoveFile {
        path: u64,
    },
    Graft {
        path: u64,
        word: Option<Vec<u8>>,
        source: u64,
    },
}

/// What an actor's line says. The name and the email are the sizes of fields that follow the line;
/// a word is `None` if memory ran out for it.
#[derive(Drop)]
pub(crate) struct ActorHeading {
    pub(crate) role: Role,
    pub(crate) name: u64,
    pub(crate) email: u64,
    pub(crate) seconds: Option<Vec<u8>>,
    pub(crate) offset: Option<Vec<u8>>,
}

/// What the first line of a command says. A path is the size of a field that follows the line; a
/// word is `None` if memory ran out for it.
#[derive(Drop)]
pub(crate) enum Opening {
    Commit {
        name: Option<Vec<u8>>,
        expect: Option<Expect>,
    },
    /// The name of a tag, what is expected of it, and the word of its commit.
    Tag(Option<To>),
    Move,
    Rename {
        from: Option<Vec<u8>>,
        to: Option<Vec<u8>>,
    },
    Delete {
        name: Option<Vec<u8>>,
        expect: Option<Expect>,
    },
    Files {
        word: Option<Vec<u8>>,
    },
    Show {
        word: Option<Vec<u8>>,
    },
    ShowPath {
        word: Option<Vec<u8>>,
        path: u64,
    },
    Names,
    NamesIn {
        folder: Option<Vec<u8>>,
    },
    Past {
        word: Option<Vec<u8>>,
    },
    Switch {
        name: Option<Vec<u8>>,
    },
    Pack,
    Index,
    Log(LogLine),
}

/// What a line says. A number is the size of a field that follows the line; a word is `None` if
/// memory ran out for it.
#[derive(Drop)]
pub(crate) enum Heading {
    Opening(Opening),
    Parent { word: Option<Vec<u8>> },
    To(Option<To>),
    Edit(EditHeading),
    Actor(ActorHeading),
    Message { size: u64 },
    End,
}

/// Returns a copy of the word, if there is memory for it.
pub(crate) fn kept(alloc: Global, word: &[u8]) -> Option<Vec<u8>>
    ensures { IfSome result (λ own. own.items ≡ word.now) }
{
    Vec::from_slice(alloc, word).ok()
}

/// Reads what follows `commit`: `<name> <expect>`.
fn commit(alloc: Global, words: &mut Words) -> Option<Heading>
    ensures { Says result (commit_of_words (left words.old)) }
{
    let name = words.next()?;
    let expect = expect(alloc, words)?;
    if !words.is_done() {
        return None;
    }
    Some(Heading::Opening(Opening::Commit {
        name: kept(alloc, name),
        expect,
    }))
}

/// Reads what follows `parent`: `<word>`.
fn parent(alloc: Global, words: &mut Words) -> Option<Heading>
    ensures { Says result (word_of_words ParentHeading (left words.old)) }
{
    let word = words.last()?;
    Some(Heading::Parent {
        word: kept(alloc, word),
    })
}

/// Reads what follows `put`: `<file, exec or link> <path size> <content size>`.
fn put(words: &mut Words) -> Option<Heading>
    ensures { Says result (put_of_words (left words.old)) }
{
    let kind = file_kind(words.next()?)?;
    let path = number(words.next()?)?;
    let content = number(words.last()?)?;
    Some(Heading::Edit(EditHeading::Put {
        kind,
        path,
        content,
    }))
}

/// Reads what follows `remove`: `<path size>`.
fn remove(words: &mut Words) -> Option<Heading>
    ensures { Says result (size_of_words RemoveHeading (left words.old)) }
{
    let path = number(words.last()?)?;
    Some(Heading::Edit(EditHeading::Remove { path }))
}

/// Reads what follows `remove-file`: `<path size>`.
fn remove_file(words: &mut Words) -> Option<Heading>
    ensures { Says result (size_of_words RemoveFileHeading (left words.old)) }
{
    let path = number(words.last()?)?;
    Some(Heading::Edit(EditHeading::RemoveFile { path }))
}

/// Reads what follows `graft`: `<path size> <word> <source size>`.
fn graft(alloc: Global, words: &mut Words) -> Option<Heading>
    ensures { Says result (graft_of_words (left words.old)) }
{
    let path = number(words.next()?)?;
    let word = words.next()?;
    let source = number(words.last()?)?;
    Some(Heading::Edit(EditHeading::Graft {
        path,
        word: kept(alloc, word),
        source,
    }))
}

/// Reads what follows a role: `<name size> <email size> <seconds> <offset>`.
fn actor(alloc: Global, role: Role, words: &mut Words) -> Option<Heading>
    ensures { Says result (actor_of_words (role_of role) (left words.old)) }
{
    let name = number(words.next()?)?;
    let email = number(words.next()?)?;
    let seconds = words.next()?;
    let offset = words.last()?;
    Some(Heading::Actor(ActorHeading {
        role,
        name,
        email,
        seconds: kept(alloc, seconds),
        offset: kept(alloc, offset),
    }))
}

/// Reads what follows `message`: `<size>`.
fn message(words: &mut Words) -> Option<Heading>
    ensures { Says result (size_of_words MessageHeading (left words.old)) }
{
    let size = number(words.last()?)?;
    Some(Heading::Message { size })
}

/// Reads what follows `end`: nothing.
fn end(words: &Words) -> Option<Heading>
    ensures { Says result (end_of_words EndHeading (left words.now)) }
{
    if words.is_done() {
        Some(Heading::End)
    } else {
        None
    }
}

/// Reads what follows `files`: `<word>`.
fn files(alloc: Global, words: &mut Words) -> Option<Heading>
    ensures { Says result (word_of_words FilesHeading (left words.old)) }
{
    let word = words.last()?;
    Some(Heading::Opening(Opening::Files {
        word: kept(alloc, word),
    }))
}

/// Reads what follows `show`: `<word>`, or `<word> path <size>`.
fn show(alloc: Global, words: &mut Words) -> Option<Heading>
    ensures { Says result (show_of_words (left words.old)) }
{
    let word = words.next()?;
    if words.is_done() {
        return Some(Heading::Opening(Opening::Show {
            word: kept(alloc, word),
        }));
    }
    if words.next()? != b"path".as_slice() {
        return None;
    }
    let path = number(words.last()?)?;
    Some(Heading::Opening(Opening::ShowPath {
        word: kept(alloc, word),
        path,
    }))
}

/// Reads what follows `names`: nothing, or `<folder>`.
fn names(alloc: Global, words: &mut Words) -> Option<Heading>
    ensures { Says result (names_of_words (left words.old)) }
{
    if words.is_done() {
        return Some(Heading::Opening(Opening::Names));
    }
    let folder = words.last()?;
    Some(Heading::Opening(Opening::NamesIn {
        folder: kept(alloc, folder),
    }))
}

/// Reads what follows `past`: `<word>`.
fn past(alloc: Global, words: &mut Words) -> Option<Heading>
    ensures { Says result (word_of_words PastHeading (left words.old)) }
{
    let word = words.last()?;
    Some(Heading::Opening(Opening::Past {
        word: kept(alloc, word),
    }))
}

/// Reads what follows `switch`: `<name>`.
fn switch(alloc: Global, words: &mut Words) -> Option<Heading>
    ensures { Says result (word_of_words SwitchHeading (left words.old)) }
{
    let name = words.last()?;
    Some(Heading::Opening(Opening::Switch {
        name: kept(alloc, name),
    }))
}

/// Reads what follows `pack`: nothing.
fn pack(words: &Words) -> Option<Heading>
    ensures { Says result (end_of_words PackHeading (left words.now)) }
{
    if words.is_done() {
        Some(Heading::Opening(Opening::Pack))
    } else {
        None
    }
}

/// Reads what follows `index`: nothing.
fn index(words: &Words) -> Option<Heading>
    ensures { Says result (end_of_words IndexHeading (left words.now)) }
{
    if words.is_done() {
        Some(Heading::Opening(Opening::Index))
    } else {
        None
    }
}

/// Reads what follows `log`.
fn log(alloc: Global, words: &mut Words) -> Option<Heading>
    ensures { Says result (log_of_words (left words.old)) }
{
    let line = LogLine::new(alloc, words)?;
    Some(Heading::Opening(Opening::Log(line)))
}

/// Reads what follows `move`: nothing.
fn move_line(words: &Words) -> Option<Heading>
    ensures { Says result (end_of_words MoveHeading (left words.now)) }
{
    if words.is_done() {
        Some(Heading::Opening(Opening::Move))
    } else {
        None
    }
}

/// Reads what follows `rename`: `<old name> <new name>`.
fn rename(alloc: Global, words: &mut Words) -> Option<Heading>
    ensures { Says result (rename_of_words (left words.old)) }
{
    let from = words.next()?;
    let to = words.last()?;
    Some(Heading::Opening(Opening::Rename {
        from: kept(alloc, from),
        to: kept(alloc, to),
    }))
}

/// Reads what follows `delete`: `<name> any`, or `<name> at <word>`.
fn delete(alloc: Global, words: &mut Words) -> Option<Heading>
    ensures { Says result (delete_of_words (left words.old)) }
{
    let name = words.next()?;
    let first = words.next()?;
    if words.is_done() {
        if first != b"any".as_slice() {
            return None;
        }
        return Some(Heading::Opening(Opening::Delete {
            name: kept(alloc, name),
            expect: Some(Expect::Any),
        }));
    }
    if first != b"at".as_slice() {
        return None;
    }
    let word = words.last()?;
    Some(Heading::Opening(Opening::Delete {
        name: kept(alloc, name),
        expect: kept(alloc, word).map(Expect::At),
    }))
}

/// Returns what a line says that begins with this word and is about names or a log.
fn heading_of_name_line(alloc: Global, first: &[u8], words: &mut Words) -> Option<Heading>
    ensures { Says result (name_heading_of first.now (left words.old)) }
{
    if first == b"tag".as_slice() {
        tag(alloc, words)
    } else if first == b"tagger".as_slice() {
        actor(alloc, Role::Tagger, words)
    } else if first == b"move".as_slice() {
        move_line(words)
    } else if first == b"to".as_slice() {
        to(alloc, words)
    } else if first == b"actor".as_slice() {
        actor(alloc, Role::Mover, words)
    } else if first == b"delete".as_slice() {
        delete(alloc, words)
    } else if first == b"names".as_slice() {
        names(alloc, words)
    } else if first == b"past".as_slice() {
        past(alloc, words)
    } else if first == b"log".as_slice() {
        log(alloc, words)
    } else if first == b"switch".as_slice() {
        switch(alloc, words)
    } else if first == b"rename".as_slice() {
        rename(alloc, words)
    } else if first == b"index".as_slice() {
        index(words)
    } else if first == b"pack".as_slice() {
        pack(words)
    } else {
        None
    }
}

/// Returns what the line says, of whose words none is empty.
fn heading_of_line(alloc: Global, line: &[u8]) -> Option<Heading>
    requires { length line.now ≤ max_line }
    ensures { Says result (heading_of (split_words line.now)) }
{
    let mut words = Words::new(line);
    let first = words.next()?;
    if first == b"commit".as_slice() {
        commit(alloc, &mut words)
    } else if first == b"parent".as_slice() {
        parent(alloc, &mut words)
    } else if first == b"put".as_slice() {
        put(&mut words)
    } else if first == b"remove".as_slice() {
        remove(&mut words)
    } else if first == b"remove-file".as_slice() {
        remove_file(&mut words)
    } else if first == b"graft".as_slice() {
        graft(alloc, &mut words)
    } else if first == b"author".as_slice() {
        actor(alloc, Role::Author, &mut words)
    } else if first == b"committer".as_slice() {
        actor(alloc, Role::Committer, &mut words)
    } else if first == b"message".as_slice() {
        message(&mut words)
    } else if first == b"end".as_slice() {
        end(&words)
    } else if first == b"files".as_slice() {
        files(alloc, &mut words)
    } else if first == b"show".as_slice() {
        show(alloc, &mut words)
    } else {
        heading_of_name_line(alloc, first, &mut words)
    }
}

/// Returns what the line says, which is given without its line feed; `None` if no place of a
/// command has such a line.
pub(crate) fn parse(alloc: Global, line: &[u8]) -> Option<Heading>
    requires whole { IsUnbroken line.now }
    requires short { length line.now ≤ max_line }
    ensures found { IfSome result (λ heading. IsLine heading line.now) }
    ensures none { IfNone result ((place : Place) → ¬ (IsLineAt (place_of place) line.now)) }
{
    if !are_words(line) {
        return None;
    }
    heading_of_line(alloc, line)
}
