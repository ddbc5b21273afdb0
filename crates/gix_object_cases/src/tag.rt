//! Cases of `gix_object_tag`.

mod edits;
mod signing;
mod whole;

use crate::written::show_object;
use case_words::{Case, Page};
use gix_object_tag::TagRef;
use std::alloc::Global;

/// Adds what the operation gives.
pub fn put_answer(alloc: Global, operation: &str, case: &Case, page: &mut Page) {
    if operation == "signature" {
        return signing::signature(alloc, case, page);
    }
    match TagRef::from_bytes(case.text(0), case.kind) {
        Ok(tag) => put_of_tag(alloc, operation, tag, case, page),
        Err(error) => page.refused(error),
    }
}

// The operations on a tag that is read whole.
fn put_of_tag(alloc: Global, operation: &str, tag: TagRef<'_>, case: &Case, page: &mut Page) {
    match operation {
        "read" => whole::read(tag, page),
        "write" => show_object(alloc, case.kind, &tag, page),
        "own" => whole::own(alloc, case.kind, tag, page),
        "sign" => signing::sign(alloc, tag, case, page),
        _ => edits::change(alloc, operation, tag, case, page),
    }
}
