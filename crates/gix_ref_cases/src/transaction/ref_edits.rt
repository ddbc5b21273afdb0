//! Edits of references, from their lines.

use case_words::text_of;
use gix_hash::ObjectId;
use gix_object_lines::ByteString;
use gix_ref_edit::{Change, LogChange, PreviousValue, RefEdit, RefLog};
use gix_ref_name::{FullName, Target};
use std::alloc::Global;

/// The edits of lines `update <name> <target> <test>` and `delete <name> <test>`, with `deref-`
/// before the word if the reference is changed that a symbolic one points to. A target is an id or
/// `ref:` and a name; a test is `any`, `exist`, `new`, or `at:` or `old:` and a target.
pub fn read_edits(alloc: Global, text: &[u8]) -> Option<Vec<RefEdit>> {
    let mut edits = Vec::new(alloc);
    for line in text_of(text)?.lines() {
        edits.push(read_edit(alloc, line)?).ok()?;
    }
    Some(edits)
}

fn read_edit(alloc: Global, line: &str) -> Option<RefEdit> {
    let (word, rest) = line.split_once(' ')?;
    let (name, rest) = rest.split_once(' ')?;
    let (deref, word) = match word.strip_prefix("deref-") {
        Some(word) => (true, word),
        None => (false, word),
    };
    let change = match word {
        "update" => read_update(alloc, rest)?,
        "delete" => Change::Delete {
            expected: read_test(alloc, rest)?,
            log: RefLog::AndReference,
        },
        _ => return None,
    };
    Some(RefEdit {
        change,
        name: FullName::from_bytes(alloc, name.as_bytes()).ok()?,
        deref,
    })
}

fn read_update(alloc: Global, text: &str) -> Option<Change> {
    let (target, test) = text.split_once(' ')?;
    let mut log = LogChange::new(alloc);
    log.message = ByteString::from_slice(alloc, b"m").ok()?;
    Some(Change::Update {
        log,
        expected: read_test(alloc, test)?,
        new: read_target(alloc, target)?,
    })
}

fn read_test(alloc: Global, text: &str) -> Option<PreviousValue> {
    match text {
        "any" => Some(PreviousValue::Any),
        "exist" => Some(PreviousValue::MustExist),
        "new" => Some(PreviousValue::MustNotExist),
        _ => {
            let (word, target) = text.split_once(':')?;
            let target = read_target(alloc, target)?;
            match word {
                "at" => Some(PreviousValue::MustExistAndMatch(target)),
                "old" => Some(PreviousValue::ExistingMustMatch(target)),
                _ => None,
            }
        }
    }
}

fn read_target(alloc: Global, text: &str) -> Option<Target> {
    match text.strip_prefix("ref:") {
        Some(name) => {
            let name = FullName::from_bytes(alloc, name.as_bytes()).ok()?;
            Some(Target::Symbolic(name))
        }
        None => Some(Target::Object(ObjectId::from_hex(text.as_bytes()).ok()?)),
    }
}
