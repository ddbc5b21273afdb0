//! Cases of `packed-refs` under edits.

use case_words::{Page, read_texts, text_of};
use gix_hash::{Kind, ObjectId};
use gix_ref_format::packed::{Buffer, Edit, Reference, edited, packed_text};
use gix_ref_name::FullNameRef;
use std::alloc::Global;

/// Adds what the operation of the line gives.
pub fn put_answer(alloc: Global, line: &str, page: &mut Page) {
    let (operation, rest) = line.split_once(' ').unwrap_or((line, ""));
    match read_texts(alloc, rest) {
        Some(fields) => put_of_fields(alloc, operation, fields.as_slice(), page),
        None => page.text("no bytes"),
    }
}

fn put_of_fields(alloc: Global, operation: &str, fields: &[Vec<u8>], page: &mut Page) {
    match (operation, fields) {
        ("sha1", [file, edits]) => put_of_file(alloc, Kind::Sha1, file, edits, page),
        ("sha256", [file, edits]) => put_of_file(alloc, Kind::Sha256, file, edits, page),
        _ => page.text("no operation"),
    }
}

fn open(alloc: Global, file: &[u8], kind: Kind) -> Option<Buffer> {
    Buffer::from_bytes(alloc, file.to_vec(alloc).ok()?, kind).ok()
}

// The file under edits, with a `|` in place of each line feed.
fn put_of_file(alloc: Global, kind: Kind, file: &[u8], edits: &[u8], page: &mut Page) {
    match open(alloc, file, kind) {
        Some(buffer) => put_of_buffer(alloc, &buffer, edits, page),
        None => page.text("unread"),
    }
}

fn put_of_buffer(alloc: Global, buffer: &Buffer, edits: &[u8], page: &mut Page) {
    match read_edits(alloc, edits) {
        Some(edits) => {
            if put_edited(alloc, buffer, edits.as_slice(), page).is_none() {
                page.text("memory");
            }
        }
        None => page.text("refused"),
    }
}

fn put_edited(alloc: Global, buffer: &Buffer, edits: &[Edit<'_>], page: &mut Page) -> Option<()> {
    let records = edited(alloc, buffer.iter(), edits).ok()?;
    let text = packed_text(alloc, records.as_slice()).ok()?;
    show(text.as_slice(), page);
    Some(())
}

fn show(text: &[u8], page: &mut Page) {
    let text = text_of(text).unwrap_or("no text");
    for (place, line) in text.split('\n').enumerate() {
        page.text(if place == 0 { "" } else { "|" });
        page.text(line);
    }
}

// Lines `drop <name>`, `write <hex> <name>` and `write <hex> <name> <hex of the peeled id>`.
fn read_edits(alloc: Global, text: &[u8]) -> Option<Vec<Edit<'_>>> {
    let mut edits = Vec::new(alloc);
    for line in text_of(text)?.lines() {
        edits.push(read_edit(line)?).ok()?;
    }
    Some(edits)
}

fn read_edit(line: &str) -> Option<Edit<'_>> {
    let (word, rest) = line.split_once(' ')?;
    match word {
        "drop" => Some(Edit::Remove(FullNameRef::new(rest.as_bytes()).ok()?)),
        "write" => Some(Edit::Write(read_record(rest)?)),
        _ => None,
    }
}

fn read_record(text: &str) -> Option<Reference<'_>> {
    let (digits, rest) = text.split_once(' ')?;
    let target = ObjectId::from_hex(digits.as_bytes()).ok()?;
    let (name, object) = match rest.split_once(' ') {
        Some((name, peeled)) => (name, Some(ObjectId::from_hex(peeled.as_bytes()).ok()?)),
        None => (rest, None),
    };
    let name = FullNameRef::new(name.as_bytes()).ok()?;
    Some(Reference {
        name,
        target,
        object,
    })
}
