//! Cases of `gix_ref_format`, except for its logs.

use case_words::Page;
use gix_hash::Kind;
use gix_ref_file::{Files, MemoryFiles};
use gix_ref_format::loose;
use gix_ref_format::packed::{Buffer, FindError, Iter, Records, Reference, buffer, iter};
use gix_ref_name::{FullName, FullNameRef, PartialNameRef, TargetRef};
use std::alloc::Global;

// The path of the file that is opened.
const PLACE: &[u8] = b"packed-refs";

// The target of a loose file.
fn target(alloc: Global, text: &[u8], page: &mut Page) {
    match loose::decode(alloc, text, Kind::Sha1) {
        Ok(target) => page.put(target),
        Err(error) => page.text(word(error)),
    }
}

fn word(error: loose::Error) -> &'static str {
    match error {
        loose::Error::Parse => "parse",
        loose::Error::RefnameValidation => "name",
        loose::Error::Memory => "memory",
    }
}

// The text that is written of the target that a text names.
fn again(alloc: Global, text: &[u8], page: &mut Page) {
    match loose::decode(alloc, text, Kind::Sha1) {
        Ok(target) => put_written(alloc, target.to_ref(), page),
        Err(error) => page.text(word(error)),
    }
}

fn put_written(alloc: Global, target: TargetRef<'_>, page: &mut Page) {
    let mut out = Vec::new(alloc);
    match loose::write(target, &mut out) {
        Ok(()) => page.hex(out.as_slice()),
        Err(_) => page.text("memory"),
    }
}

// A reference by its path.
fn from_path(alloc: Global, text: &[u8], page: &mut Page) {
    match FullName::from_bytes(alloc, b"refs/heads/main") {
        Ok(name) => put_of_name(alloc, name, text, page),
        Err(_) => page.text("memory"),
    }
}

fn put_of_name(alloc: Global, name: FullName, text: &[u8], page: &mut Page) {
    match loose::Reference::try_from_path(alloc, name, text, Kind::Sha1) {
        Ok(reference) => {
            page.put_between("", &reference.name, " ");
            page.name(reference.kind());
        }
        Err(error) => page.text(word(error)),
    }
}

// All items of a file.
fn items(bytes: &[u8], page: &mut Page) {
    match Iter::new(bytes, Kind::Sha1) {
        Ok(records) => {
            for item in records {
                put_item(item, page);
                page.text("; ");
            }
        }
        Err(_) => page.text("no header"),
    }
}

fn put_item(item: Result<Reference<'_>, iter::Error<'_>>, page: &mut Page) {
    match item {
        Ok(record) => put_record(record, page),
        Err(iter::Error::Reference { line_number, .. }) => {
            page.put_between("bad ", line_number, "")
        }
        Err(iter::Error::Header { .. }) => page.text("bad header"),
    }
}

// A record: its target, its name, and the object that it points to in the end.
fn put_record(record: Reference<'_>, page: &mut Page) {
    page.put_between("", record.target(), " ");
    page.put_between("", record.name, " ");
    page.put(record.object());
}

fn put_record_or_none(record: Option<Reference<'_>>, page: &mut Page) {
    match record {
        Some(record) => put_record(record, page),
        None => page.text("none"),
    }
}

fn open(alloc: Global, bytes: &[u8]) -> Result<Buffer, buffer::Error> {
    match bytes.to_vec(alloc) {
        Ok(copy) => Buffer::from_bytes(alloc, copy, Kind::Sha1),
        Err(_) => Err(buffer::Error::Memory),
    }
}

// The whole of a file: the number of records by name, or the first bad line.
fn opened(alloc: Global, bytes: &[u8], page: &mut Page) {
    match open(alloc, bytes) {
        Ok(_) => page.text("opened"),
        Err(error) => put_fault(error, page),
    }
}

fn put_fault(error: buffer::Error, page: &mut Page) {
    match error {
        buffer::Error::Iter { line_number } => page.put_between("bad ", line_number, ""),
        buffer::Error::HeaderParsing => page.text("no header"),
        buffer::Error::Io => page.text("io"),
        buffer::Error::Memory => page.text("memory"),
    }
}

// Files in memory with the one of these digits, if they aren't `none`.
fn files_with(alloc: Global, digits: &str) -> Option<MemoryFiles> {
    let mut files = MemoryFiles::new(alloc);
    if digits != "none" {
        let bytes = hex::decode(alloc, digits).ok()?;
        files.write(alloc, PLACE, &bytes).ok()?;
    }
    Some(files)
}

// The file opened again, of which this buffer is known.
fn known(alloc: Global, digits: &str, buffer: &Buffer, page: &mut Page) {
    match files_with(alloc, digits) {
        Some(files) => {
            let opened = Buffer::open_again(alloc, &files, PLACE, Kind::Sha1, Some(buffer));
            put_opened(opened, page)
        }
        None => page.text("no file"),
    }
}

// The file opened after the deletion of a name's record, which this buffer may have.
fn less(alloc: Global, word: &str, buffer: Buffer, page: &mut Page) {
    let (name, digits) = word.split_once(':').unwrap_or(("", word));
    match (FullNameRef::new(name.as_bytes()), files_with(alloc, digits)) {
        (Ok(gone), Some(files)) => {
            let opened = buffer.open_without(alloc, &files, PLACE, Kind::Sha1, gone);
            put_opened(opened, page)
        }
        (Ok(_), None) => page.text("no file"),
        (Err(_), _) => page.text("no name"),
    }
}

fn put_opened(opened: Result<Option<Buffer>, buffer::Error>, page: &mut Page) {
    match opened {
        Ok(Some(buffer)) => put_all(buffer.iter(), page),
        Ok(None) => page.text("none"),
        Err(error) => put_fault(error, page),
    }
}

// A word looked up in a file.
fn found(alloc: Global, word: &[u8], buffer: &Buffer, page: &mut Page) {
    let Ok(name) = PartialNameRef::new(word) else {
        return page.text("no name");
    };
    match buffer.try_find(alloc, name) {
        Ok(record) => put_record_or_none(record, page),
        Err(_) => page.text("memory"),
    }
}

// A word whose record must exist.
fn must_stand(alloc: Global, word: &[u8], buffer: &Buffer, page: &mut Page) {
    let Ok(name) = PartialNameRef::new(word) else {
        return page.text("no name");
    };
    match buffer.find(alloc, name) {
        Ok(record) => put_record(record, page),
        Err(FindError::NotFound) => page.text("not found"),
        Err(FindError::Memory) => page.text("memory"),
    }
}

// Each record.
fn put_all(records: Records<'_>, page: &mut Page) {
    for record in records {
        put_record(record, page);
        page.text("; ");
    }
}

// A full name looked up in a file.
fn found_whole(word: &[u8], buffer: &Buffer, page: &mut Page) {
    match FullNameRef::new(word) {
        Ok(name) => put_record_or_none(buffer.try_find_full_name(name), page),
        Err(_) => page.text("no name"),
    }
}

/// Adds what the operation of the line gives.
pub fn put_answer(alloc: Global, line: &str, page: &mut Page) {
    let (operation, rest) = line.split_once(' ').unwrap_or((line, ""));
    let (word, digits) = rest.split_once(' ').unwrap_or(("", rest));
    match hex::decode(alloc, digits) {
        Ok(bytes) => put_of_bytes(alloc, operation, word, &bytes, page),
        Err(_) => page.text("no bytes"),
    }
}

fn put_of_bytes(alloc: Global, operation: &str, word: &str, bytes: &[u8], page: &mut Page) {
    match operation {
        "loose" => target(alloc, bytes, page),
        "again" => again(alloc, bytes, page),
        "path" => from_path(alloc, bytes, page),
        "items" => items(bytes, page),
        "open" => opened(alloc, bytes, page),
        _ => match open(alloc, bytes) {
            Ok(buffer) => put_of_buffer(alloc, operation, word, buffer, page),
            Err(_) => page.text("not opened"),
        },
    }
}

fn put_of_buffer(alloc: Global, operation: &str, word: &str, buffer: Buffer, page: &mut Page) {
    match operation {
        "bytes" => page.hex(buffer.as_ref()),
        "all" => put_all(buffer.iter(), page),
        "begin" => put_all(buffer.iter_prefixed(word.as_bytes()), page),
        "find" => found(alloc, word.as_bytes(), &buffer, page),
        "whole" => found_whole(word.as_bytes(), &buffer, page),
        "must" => must_stand(alloc, word.as_bytes(), &buffer, page),
        "known" => known(alloc, word, &buffer, page),
        "less" => less(alloc, word, buffer, page),
        _ => page.text("no operation"),
    }
}
