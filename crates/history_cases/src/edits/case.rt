//! The parts of words.

use case_words::{read_digits, read_id};
use history_files::{Change, Edit, Found};
use history_model::FileKind;
use std::alloc::Global;

/// An edit with a path of its own.
#[derive(Drop)]
pub struct PathEdit {
    path: Vec<u8>,
    change: Change,
}

fn read_file_kind(word: &str) -> Option<FileKind> {
    match word {
        "file" => Some(FileKind::File),
        "exec" => Some(FileKind::Exec),
        "link" => Some(FileKind::Link),
        _ => None,
    }
}

/// Returns the word of a file's kind.
pub fn kind_word(kind: FileKind) -> &'static str {
    match kind {
        FileKind::File => "file",
        FileKind::Exec => "exec",
        FileKind::Link => "link",
    }
}

// Returns what is grafted: `none`, or a folder or a file of a kind with its id.
fn read_found(what: &str, id: Option<&str>) -> Option<Option<Found>> {
    if what == "none" {
        return Some(None);
    }
    let id = read_id(id?)?;
    if what == "folder" {
        return Some(Some(Found::Folder { id }));
    }
    let kind = read_file_kind(what)?;
    Some(Some(Found::File { kind, id }))
}

/// Returns the edit that a word spells.
pub fn read_edit(alloc: Global, word: &str) -> Option<PathEdit> {
    let mut parts = word.split(':');
    let (path, change) = match parts.next()? {
        "put" => {
            let kind = read_file_kind(parts.next()?)?;
            let path = parts.next()?;
            let id = read_id(parts.next()?)?;
            (path, Change::Put { kind, id })
        }
        "remove" => (parts.next()?, Change::Remove),
        "remove-file" => (parts.next()?, Change::RemoveFile),
        "graft" => {
            let path = parts.next()?;
            let found = read_found(parts.next()?, parts.next())?;
            (path, Change::Graft(found))
        }
        _ => return None,
    };
    let path = read_digits(alloc, path)?;
    Some(PathEdit { path, change })
}

/// Returns the edits, with their paths lent.
pub fn lent(alloc: Global, edits: &[PathEdit]) -> Option<Vec<Edit<'_>>> {
    let mut all = Vec::new(alloc);
    for edit in edits {
        all.push(Edit {
            path: &edit.path,
            change: edit.change,
        })
        .ok()?;
    }
    Some(all)
}
