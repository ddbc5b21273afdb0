//! The operations by their names.

use crate::name::{cases, full, lists, partial, targets};
use case_words::{Page, read_texts};
use std::alloc::Global;

/// Adds what the operation of the line gives.
pub fn put_answer(alloc: Global, line: &str, page: &mut Page) {
    let (operation, rest) = line.split_once(' ').unwrap_or((line, ""));
    match read_texts(alloc, rest) {
        Some(fields) => {
            if of_fields(alloc, operation, fields.as_slice(), page).is_none() {
                page.text("refused");
            }
        }
        None => page.text("no bytes"),
    }
}

// `None` if a field is refused, or no memory is left.
fn of_fields(alloc: Global, operation: &str, fields: &[Vec<u8>], page: &mut Page) -> Option<()> {
    match fields {
        [bytes] => of_names(alloc, operation, bytes, page),
        [one, other] => of_two(alloc, operation, one, other, page),
        _ => none(page),
    }
}

fn none(page: &mut Page) -> Option<()> {
    page.text("no operation");
    Some(())
}

fn of_names(alloc: Global, operation: &str, bytes: &[u8], page: &mut Page) -> Option<()> {
    match operation {
        "name" => cases::name(bytes, page),
        "again" => cases::again(alloc, bytes, page),
        "shown" => cases::shown(alloc, bytes, page),
        "namespace" => cases::namespace(alloc, bytes, page),
        "composed" => cases::composed(alloc, bytes, page),
        "taken" => targets::taken(alloc, bytes, page),
        "null" => targets::null(alloc, bytes, page),
        "partial" => partial::partial(alloc, bytes, page),
        "path" => full::path(alloc, bytes, page),
        "last" => full::last(alloc, bytes, page),
        "once" => lists::once(alloc, bytes, page),
        _ => none(page),
    }
}

fn of_two(alloc: Global, operation: &str, one: &[u8], other: &[u8], page: &mut Page) -> Option<()> {
    match operation {
        "join" => partial::join(alloc, one, other, page),
        "ready" => lists::ready(alloc, one, other, page),
        "copied" => lists::copied(alloc, one, other, page),
        "prefixed" => partial::prefixed(alloc, one, other, page),
        "strip" => full::strip(alloc, one, other, page),
        _ => none(page),
    }
}
