//! Cases of `gix_object_tree`.

mod modes;

use case_words::{Case, Page};
use gix_hash::ObjectId;
use gix_object_lines::{ByteString, WriteTo};
use gix_object_tree::tree::{Entry, EntryKind, EntryMode, EntryRef, name_order};
use gix_object_tree::{Tree, TreeRef, TreeRefIter};
use std::alloc::{AllocError, Global};

/// Adds what the operation gives. `None` if there is no such operation.
pub fn put_answer(alloc: Global, operation: &str, case: &Case, page: &mut Page) -> Option<()> {
    match operation {
        "tree" => put_tree(alloc, case, page),
        "owned" => put_owned(alloc, case, page),
        "made" => put_made(alloc, case, page),
        "order" => put_order(case, page),
        "mode" => modes::mode(case, page),
        _ => return None,
    }
    Some(())
}

// An entry: its mode, what it names, its id and its name.
fn show(entry: EntryRef<'_>, page: &mut Page) {
    let mut backing = [0; 6];
    page.escaped(entry.mode.as_bytes(&mut backing).as_bytes());
    page.put_between(" ", entry.mode.as_str(), " ");
    page.put(entry.oid);
    page.between(" ", entry.filename.as_bytes(), "");
}

// The order of two names, each a tree's if the word after it isn't empty.
fn put_order(case: &Case, page: &mut Page) {
    page.name(name_order(
        case.text(0),
        !case.text(1).is_empty(),
        case.text(2),
        !case.text(3).is_empty(),
    ));
}

// The kind, the length and the id of what is written of a tree; or why it isn't, and how many bytes
// were written.
fn show_written<T: WriteTo>(alloc: Global, kind: gix_hash::Kind, tree: &T, page: &mut Page) {
    let mut content = Vec::new(alloc);
    if let Err(error) = tree.write_to(&mut content) {
        page.put_between("; ", content.len(), " bytes, then refused ");
        return page.name(error);
    }
    let mut digest = gix_hash::hasher::hasher(kind);
    match tree.loose_header() {
        Some(header) => digest.update(header.as_slice()),
        None => page.text("no header "),
    }
    digest.update(content.as_slice());
    page.put_between("; ", tree.kind(), " ");
    match tree.size() {
        Some(size) => page.put_between("", size, " "),
        None => page.text("no size "),
    }
    page.put(digest.try_finalize());
}

// The tree that a content spells: its entries, whether it is well-formed, and what is written of
// it.
fn put_tree(alloc: Global, case: &Case, page: &mut Page) {
    let tree = match TreeRef::from_bytes(alloc, case.text(0), case.kind) {
        Ok(tree) => tree,
        Err(error) => return page.refused(error),
    };
    page.put_between("", tree.entries.len(), " entries");
    for entry in &tree.entries {
        page.text("; ");
        show(*entry, page);
    }
    page.test("; well-formed", tree.is_well_formed());
    page.test("; empty", tree == TreeRef::empty(alloc));
    show_written(alloc, case.kind, &tree, page);
}

fn read_owned(alloc: Global, case: &Case) -> Option<Tree> {
    let tree = TreeRef::from_bytes(alloc, case.text(0), case.kind).ok()?;
    tree.into_owned().ok()
}

// The tree that owns the entries of a content: the same, and whether a copy that is lent is like
// it.
fn put_owned(alloc: Global, case: &Case, page: &mut Page) {
    let Some(tree) = read_owned(alloc, case) else {
        return page.text("not owned");
    };
    page.put_between("", tree.entries.len(), " entries");
    page.test("; well-formed", tree.is_well_formed());
    page.test("; empty", tree == Tree::empty(alloc));
    show_written(alloc, case.kind, &tree, page);
    if let Ok(entries) = TreeRefIter::from_bytes(case.text(0), case.kind).entries(alloc) {
        match (TreeRef { entries }).to_owned() {
            Ok(other) => page.test("; alike", tree == other),
            Err(AllocError) => page.text("; not owned"),
        }
    }
}

fn make(alloc: Global, case: &Case) -> Result<Tree, AllocError> {
    let mut tree = Tree::empty(alloc);
    for name in case.behind(0) {
        tree.entries.push(Entry {
            mode: EntryMode::from(EntryKind::Blob),
            filename: ByteString::from_slice(alloc, name.as_slice())?,
            oid: ObjectId::null(case.kind),
        })?;
    }
    Ok(tree)
}

// A tree of files of these names and the null id: whether it is well-formed, and what is written of
// it.
fn put_made(alloc: Global, case: &Case, page: &mut Page) {
    let Ok(tree) = make(alloc, case) else {
        return page.text("not made");
    };
    page.put_between("", tree.entries.len(), " entries");
    page.test("; well-formed", tree.is_well_formed());
    show_written(alloc, case.kind, &tree, page);
}
