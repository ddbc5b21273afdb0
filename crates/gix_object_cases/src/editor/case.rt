//! The words of a line.

use case_words::{Row, Trees, read_digits, read_kind, row_of_content};
use gix_hash::Kind;
use gix_object_lines::WriteTo;
use gix_object_tree::tree::EntryKind;
use gix_object_tree::{Tree, TreeRef};
use std::alloc::Global;

/// What a line gives: trees and the edits of the first.
#[derive(Drop)]
pub struct Case {
    /// The hash function.
    pub kind: Kind,
    /// The tree that is edited.
    pub root: Tree,
    /// The trees that may be looked up.
    pub trees: Trees,
}

/// What the first three words of a line give.
pub fn read_case(alloc: Global, kind: &str, root: &str, trees: &str) -> Option<Case> {
    let kind = read_kind(kind)?;
    Some(Case {
        kind,
        root: read_tree(alloc, kind, root)?,
        trees: read_trees(alloc, kind, trees)?,
    })
}

/// The tree of this content.
pub fn read_tree(alloc: Global, kind: Kind, word: &str) -> Option<Tree> {
    let content = read_digits(alloc, word)?;
    let tree = TreeRef::from_bytes(alloc, content.as_slice(), kind).ok()?;
    tree.into_owned().ok()
}

// Trees, with commas between them; none for `-`.
fn read_trees(alloc: Global, kind: Kind, words: &str) -> Option<Trees> {
    let mut trees = Trees::new(alloc);
    if words == "-" {
        return Some(trees);
    }
    for word in words.split(',') {
        trees
            .add(row_of_content(kind, read_digits(alloc, word)?))
            .ok()?;
    }
    Some(trees)
}

/// The names of a path, with slashes between them; none for `-`.
pub fn read_path(alloc: Global, words: &str) -> Option<Vec<Vec<u8>>> {
    let mut names = Vec::new(alloc);
    if words == "-" {
        return Some(names);
    }
    for word in words.split('/') {
        names.push(hex::decode(alloc, word).ok()?).ok()?;
    }
    Some(names)
}

/// The kind of an entry.
pub fn read_entry_kind(word: &str) -> Option<EntryKind> {
    match word {
        "tree" => Some(EntryKind::Tree),
        "blob" => Some(EntryKind::Blob),
        "exe" => Some(EntryKind::BlobExecutable),
        "link" => Some(EntryKind::Link),
        "commit" => Some(EntryKind::Commit),
        _ => None,
    }
}

/// A tree's content under the id that Git gives it.
pub fn row_of(alloc: Global, kind: Kind, tree: &Tree) -> Option<Row> {
    let mut content = Vec::new(alloc);
    tree.write_to(&mut content).ok()?;
    Some(row_of_content(kind, content))
}
