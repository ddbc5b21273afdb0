//! Edits of `packed-refs`, from their lines.

use case_words::text_of;
use gix_hash::ObjectId;
use gix_ref_lock::packed::RecordEdit;
use gix_ref_name::FullName;
use std::alloc::Global;

/// The edits of lines `drop <name>`, `write <hex> <name>` and
/// `write <hex> <name> <hex of the peeled id>`.
pub fn read_edits(alloc: Global, text: &[u8]) -> Option<Vec<RecordEdit>> {
    let mut edits = Vec::new(alloc);
    for line in text_of(text)?.lines() {
        edits.push(read_edit(alloc, line)?).ok()?;
    }
    Some(edits)
}

fn read_edit(alloc: Global, line: &str) -> Option<RecordEdit> {
    let (word, rest) = line.split_once(' ')?;
    match word {
        "drop" => Some(RecordEdit::Remove {
            name: FullName::from_bytes(alloc, rest.as_bytes()).ok()?,
        }),
        "write" => read_record(alloc, rest),
        _ => None,
    }
}

fn read_record(alloc: Global, text: &str) -> Option<RecordEdit> {
    let (digits, rest) = text.split_once(' ')?;
    let target = ObjectId::from_hex(digits.as_bytes()).ok()?;
    let (name, object) = match rest.split_once(' ') {
        Some((name, peeled)) => (name, Some(ObjectId::from_hex(peeled.as_bytes()).ok()?)),
        None => (rest, None),
    };
    Some(RecordEdit::Write {
        name: FullName::from_bytes(alloc, name.as_bytes()).ok()?,
        target,
        object,
    })
}
