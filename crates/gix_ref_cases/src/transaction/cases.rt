//! The operations.

use crate::transaction::edits::read_edits;
use crate::transaction::loose;
use case_words::{Page, read_texts, text_of};
use gix_hash::Kind;
use gix_ref_file::{Files, MemoryFiles};
use gix_ref_fuse::Fuse;
use gix_ref_lock::packed::{RecordEdit, Transaction};
use std::alloc::Global;

// The paths of the file and its lock.
const PLACE: &[u8] = b"packed-refs";

const LOCK: &[u8] = b"packed-refs.lock";

/// Adds what the operation of the line gives.
pub fn put_answer(alloc: Global, line: &str, page: &mut Page) {
    let (operation, rest) = line.split_once(' ').unwrap_or((line, ""));
    match read_texts(alloc, rest) {
        Some(fields) => put_of_fields(alloc, operation, fields.as_slice(), page),
        None => page.text("no bytes"),
    }
}

fn put_of_fields(alloc: Global, operation: &str, fields: &[Vec<u8>], page: &mut Page) {
    match fields {
        [fuse, files, edits] if operation.starts_with("loose") => {
            loose::put_answer(alloc, operation, [fuse, files, edits], page)
        }
        [fuse, files, objects, edits] => {
            loose::put_packing(alloc, operation, [fuse, files, edits], objects, page)
        }
        [fuse, file, edits] => of_file(alloc, operation, [fuse, file], edits, page),
        _ => page.text("no operation"),
    }
}

fn of_file(
    alloc: Global,
    operation: &str,
    [fuse, file]: [&[u8]; 2],
    edits: &[u8],
    page: &mut Page,
) {
    match read_edits(alloc, edits) {
        Some(edits) => put_edited(alloc, operation, [fuse, file], edits, page),
        None => page.text("refused"),
    }
}

fn put_edited(
    alloc: Global,
    operation: &str,
    [fuse, file]: [&[u8]; 2],
    edits: Vec<RecordEdit>,
    page: &mut Page,
) {
    match trial_of(alloc, operation, [fuse, file]) {
        Some(mut trial) => {
            put_tried(alloc, &mut trial, operation, edits, page);
            show_left(alloc, &trial.into_inner(), page);
        }
        None => page.text("no fuse"),
    }
}

// Files in memory with this one, with a call that stops or fails.
fn trial_of(alloc: Global, operation: &str, [fuse, file]: [&[u8]; 2]) -> Option<Fuse<MemoryFiles>> {
    fused(files_with(alloc, operation, file)?, fuse)
}

// Files in memory with this one, if it isn't `none`, and with a lock if it is to be held.
fn files_with(alloc: Global, operation: &str, file: &[u8]) -> Option<MemoryFiles> {
    let mut files = MemoryFiles::new(alloc);
    if file != b"none".as_slice() {
        files.write(alloc, PLACE, file).ok()?;
    }
    if operation == "held" {
        files.write(alloc, LOCK, b"x").ok()?;
    }
    Some(files)
}

// The plan of a call: how it ends, its number, and how many bytes it leaves.
fn read_fuse(text: &str) -> Option<(&str, u64, Option<usize>)> {
    let (how, rest) = text.split_once(' ')?;
    match rest.split_once(' ') {
        Some((call, kept)) => Some((how, call.parse().ok()?, Some(kept.parse().ok()?))),
        None => Some((how, rest.parse().ok()?, None)),
    }
}

/// The files with the call of which the text speaks: nothing, or `stop` or `fail`, its number and
/// how many bytes it leaves.
pub fn fused(files: MemoryFiles, text: &[u8]) -> Option<Fuse<MemoryFiles>> {
    if text.is_empty() {
        return Some(Fuse::failing_at(files, 0, None));
    }
    match read_fuse(text_of(text)?)? {
        ("stop", call, kept) => Some(Fuse::stopping_at(files, call, kept)),
        ("fail", call, kept) => Some(Fuse::failing_at(files, call, kept)),
        _ => None,
    }
}

fn put_tried(
    alloc: Global,
    files: &mut Fuse<MemoryFiles>,
    operation: &str,
    edits: Vec<RecordEdit>,
    page: &mut Page,
) {
    match Transaction::new(alloc, files, PLACE, Kind::Sha1, None) {
        Ok(begun) => put_begun(alloc, files, operation, begun, edits, page),
        Err(error) => page.name(error),
    }
}

fn put_begun(
    alloc: Global,
    files: &mut Fuse<MemoryFiles>,
    operation: &str,
    begun: Transaction,
    edits: Vec<RecordEdit>,
    page: &mut Page,
) {
    let has_file = begun.buffer().is_some();
    let prepared = match begun.prepare(alloc, files, edits) {
        Ok(prepared) => prepared,
        Err(error) => return page.name(error),
    };
    let ended = match operation {
        "rollback" => prepared.rollback(alloc, files),
        _ => prepared.commit(alloc, files),
    };
    match ended {
        Ok(()) => {
            page.text(operation);
            page.value(has_file);
        }
        Err(error) => page.name(error),
    }
}

// The contents of the file and of its lock, each with `|` in place of a line feed.
fn show_left(alloc: Global, files: &MemoryFiles, page: &mut Page) {
    page.text("; ");
    show_file(alloc, files, PLACE, page);
    page.text("; ");
    show_file(alloc, files, LOCK, page);
}

fn show_file(alloc: Global, files: &MemoryFiles, path: &[u8], page: &mut Page) {
    let mut bytes = Vec::new(alloc);
    match files.read(path, &mut bytes) {
        Ok(Some(_)) => show_text(bytes.as_slice(), page),
        Ok(None) => page.text("none"),
        Err(_) => page.text("unread"),
    }
}

/// Adds the text, with `|` in place of a line feed.
pub fn show_text(bytes: &[u8], page: &mut Page) {
    let text = text_of(bytes).unwrap_or("no text");
    for (place, line) in text.split('\n').enumerate() {
        page.text(if place == 0 { "" } else { "|" });
        page.text(line);
    }
}
