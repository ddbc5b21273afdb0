//! The edits of a line, one after another.

use crate::editor::case::{Case, read_case, read_entry_kind, read_path, read_tree, row_of};
use case_words::{Page, Row, Trees, read_id};
use gix_hash::{Kind, ObjectId};
use gix_object_editor::tree::editor::{Cursor, Editor, Error, write};
use gix_object_tree::Tree;
use gix_object_tree::tree::{EntryKind, EntryRef};
use std::alloc::{AllocError, Global};

/// Adds the results of a line's words.
pub fn put_answer(alloc: Global, line: &str, page: &mut Page) {
    if edit(alloc, line, page).is_none() {
        page.word("unread");
    }
}

fn edit(alloc: Global, line: &str, page: &mut Page) -> Option<()> {
    let mut words = line.split(' ');
    let Case { kind, root, trees } = read_case(alloc, words.next()?, words.next()?, words.next()?)?;
    if !root.is_well_formed() {
        return None;
    }
    let mut editor = Editor::new(alloc, &root, trees).ok()?;
    for word in words {
        act(alloc, kind, &mut editor, word, page)?;
    }
    Some(())
}

// That a tree isn't kept.
#[derive(Drop)]
struct Refusal;

// One edit, or one question.
fn act(
    alloc: Global,
    kind: Kind,
    editor: &mut Editor<Trees>,
    word: &str,
    page: &mut Page,
) -> Option<()> {
    match word {
        "lookups" => {
            page.value(editor.lookups());
            page.word("asked");
            page.value(editor.store_mut().asked());
            Some(())
        }
        "write" => write(alloc, kind, editor, page),
        "written" => count_written(alloc, kind, editor, page),
        _ => match word.split_once(':')? {
            ("at", rest) => at_cursor(alloc, kind, editor, rest, page),
            ("root", content) => set_root(alloc, kind, editor, content, page),
            ("failing", most) => write_failing(alloc, kind, editor, most, page),
            _ => at_path(alloc, editor, word, page),
        },
    }
}

// Another tree to edit.
fn set_root(
    alloc: Global,
    kind: Kind,
    editor: &mut Editor<Trees>,
    content: &str,
    page: &mut Page,
) -> Option<()> {
    let root = read_tree(alloc, kind, content)?;
    if !root.is_well_formed() {
        return None;
    }
    editor.set_root(alloc, &root).ok()?;
    page.word("ok");
    Some(())
}

// The names of a path, lent.
fn lent(alloc: Global, names: &[Vec<u8>]) -> Option<Vec<&[u8]>> {
    let mut path = Vec::new(alloc);
    for name in names {
        path.push(name.as_slice()).ok()?;
    }
    Some(path)
}

// An edit or a question of a path, and of an entry that is put its kind and its id.
#[derive(Clone, Copy)]
struct Call<'a> {
    what: &'a str,
    path: &'a str,
    entry: Option<(EntryKind, ObjectId)>,
}

fn read_call(word: &str) -> Option<Call<'_>> {
    let mut parts = word.split(':');
    let (what, path) = (parts.next()?, parts.next()?);
    let entry = match parts.next() {
        Some(kind) => Some((read_entry_kind(kind)?, read_id(parts.next()?)?)),
        None => None,
    };
    Some(Call { what, path, entry })
}

// An edit or a question of a path.
fn at_path(alloc: Global, editor: &mut Editor<Trees>, word: &str, page: &mut Page) -> Option<()> {
    let call = read_call(word)?;
    let names = read_path(alloc, call.path)?;
    let path = lent(alloc, names.as_slice())?;
    let path = path.as_slice();
    if call.what == "get" {
        show_entry(editor.get(path), page);
        return Some(());
    }
    make_call(alloc, editor, call, path, page)
}

// An edit.
fn make_call(
    alloc: Global,
    editor: &mut Editor<Trees>,
    call: Call<'_>,
    path: &[&[u8]],
    page: &mut Page,
) -> Option<()> {
    match (call.what, call.entry) {
        ("remove", _) => show_done(editor.remove(alloc, path), page),
        ("remove_leaf", _) => show_done(editor.remove_leaf(alloc, path), page),
        ("upsert", Some((kind, id))) => show_done(editor.upsert(alloc, path, kind, id), page),
        ("graft", Some((kind, id))) => show_done(editor.graft(alloc, path, kind, id), page),
        _ => return None,
    }
    Some(())
}

// An edit or a question below a cursor, which is made for it.
fn at_cursor(
    alloc: Global,
    kind: Kind,
    editor: &mut Editor<Trees>,
    word: &str,
    page: &mut Page,
) -> Option<()> {
    let (base, word) = word.split_once(':')?;
    let call = read_call(word)?;
    let base = read_path(alloc, base)?;
    let names = read_path(alloc, call.path)?;
    let path = lent(alloc, names.as_slice())?;
    let path = path.as_slice();
    let folder = lent(alloc, base.as_slice())?;
    let mut cursor = match cursor_of(alloc, kind, editor, folder.as_slice()) {
        Ok(cursor) => cursor,
        Err(error) => {
            show_done(Err(error), page);
            return Some(());
        }
    };
    if call.what == "get" {
        show_entry(cursor.get(path), page);
        return Some(());
    }
    make_call_at(alloc, kind, &mut cursor, call, path, page)
}

// An edit below a cursor, or what is written there.
fn make_call_at(
    alloc: Global,
    kind: Kind,
    cursor: &mut Cursor<'_, Trees>,
    call: Call<'_>,
    path: &[&[u8]],
    page: &mut Page,
) -> Option<()> {
    match (call.what, call.entry) {
        ("remove", _) => show_done(cursor.remove(alloc, path), page),
        ("remove_leaf", _) => show_done(cursor.remove_leaf(alloc, path), page),
        ("upsert", Some((kind, id))) => show_done(cursor.upsert(alloc, path, kind, id), page),
        ("graft", Some((kind, id))) => show_done(cursor.graft(alloc, path, kind, id), page),
        ("write", _) => show_written(alloc, kind, cursor, page)?,
        _ => return None,
    }
    Some(())
}

// The id that is returned for the tree at a cursor.
fn show_written(
    alloc: Global,
    kind: Kind,
    cursor: &Cursor<'_, Trees>,
    page: &mut Page,
) -> Option<()> {
    let root = cursor.write(
        alloc,
        &mut |tree: &Tree| -> Result<ObjectId, AllocError> { id_of_tree(alloc, kind, tree) },
    );
    page.value(root.ok()?);
    Some(())
}

// A cursor at the folder of this path, or at the root.
fn cursor_of<'a>(
    alloc: Global,
    kind: Kind,
    editor: &'a mut Editor<Trees>,
    folder: &[&[u8]],
) -> Result<Cursor<'a, Trees>, Error> {
    if folder.is_empty() {
        return Ok(editor.to_cursor());
    }
    editor.cursor_at(alloc, folder, kind)
}

fn id_of_tree(alloc: Global, kind: Kind, tree: &Tree) -> Result<ObjectId, AllocError> {
    Ok(row_of(alloc, kind, tree).ok_or(AllocError)?.oid)
}

// How many trees are handed out.
fn count_written(alloc: Global, kind: Kind, editor: &Editor<Trees>, page: &mut Page) -> Option<()> {
    let mut count: u64 = 0;
    let root = editor.write(
        alloc,
        &mut |tree: &Tree| -> Result<ObjectId, AllocError> {
            count = count.saturating_add(1);
            id_of_tree(alloc, kind, tree)
        },
    );
    root.ok()?;
    page.value(count);
    Some(())
}

// The error that is returned for the tree after so many, and how many calls were made.
fn write_failing(
    alloc: Global,
    kind: Kind,
    editor: &Editor<Trees>,
    most: &str,
    page: &mut Page,
) -> Option<()> {
    let most: u64 = most.parse().ok()?;
    let mut calls: u64 = 0;
    let root = editor.write(
        alloc,
        &mut |tree: &Tree| -> Result<ObjectId, Refusal> {
            if calls >= most {
                return Err(Refusal);
            }
            calls = calls.saturating_add(1);
            id_of_tree(alloc, kind, tree).map_err(|_| Refusal)
        },
    );
    match root {
        Ok(id) => page.value(id),
        Err(write::Error::Out(Refusal)) => page.word("Out"),
        Err(write::Error::Memory) => page.word("Memory"),
    }
    page.value(calls);
    Some(())
}

fn show_entry(entry: Option<EntryRef<'_>>, page: &mut Page) {
    match entry {
        Some(entry) => {
            page.word("");
            page.octal(entry.mode.value());
            page.value(entry.oid);
        }
        None => page.word("none"),
    }
}

fn show_done(done: Result<(), Error>, page: &mut Page) {
    match done {
        Ok(()) => page.word("ok"),
        Err(Error::EmptyPathComponent) => page.word("EmptyPathComponent"),
        Err(Error::FindExistingObject(_)) => page.word("FindExistingObject"),
        Err(Error::CannotRemoveNonLeaf { filename }) => {
            page.word("CannotRemoveNonLeaf(");
            page.hex(filename.as_bytes());
            page.text(")");
        }
        Err(Error::MalformedTree { oid }) => {
            page.word("MalformedTree(");
            page.put(oid);
            page.text(")");
        }
        Err(Error::EmptyTree) => page.word("EmptyTree"),
        Err(Error::Memory) => page.word("Memory"),
    }
}

// A tree that was handed out, and the ids of the trees that it names.
#[derive(Drop)]
struct Written {
    row: Row,
    named: Vec<ObjectId>,
}

fn written_of(alloc: Global, kind: Kind, tree: &Tree) -> Option<Written> {
    let mut named = Vec::new(alloc);
    for entry in &tree.entries {
        if entry.mode.is_tree() {
            named.push(entry.oid).ok()?;
        }
    }
    Some(Written {
        row: row_of(alloc, kind, tree)?,
        named,
    })
}

// The id of the written root, and whether each tree that a written one names was there or written
// before. They may be looked up afterwards.
fn write(alloc: Global, kind: Kind, editor: &mut Editor<Trees>, page: &mut Page) -> Option<()> {
    let mut trees: Vec<Written> = Vec::new(alloc);
    let root = editor.write(
        alloc,
        &mut |tree: &Tree| -> Result<ObjectId, AllocError> {
            let written = written_of(alloc, kind, tree).ok_or(AllocError)?;
            let oid = written.row.oid;
            trees.push(written)?;
            Ok(oid)
        },
    );
    page.value(root.ok()?);
    let mut known = true;
    for written in trees {
        known = known && has_all(editor.store_mut(), written.named.as_slice());
        editor.store_mut().add(written.row).ok()?;
    }
    page.word(if known { "known+" } else { "known-" });
    Some(())
}

fn has_all(trees: &Trees, oids: &[ObjectId]) -> bool {
    for oid in oids {
        if !trees.has(oid) {
            return false;
        }
    }
    true
}
