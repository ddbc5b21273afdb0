//! Cases of `gix_object_any`.

mod borrowed;
mod data;
mod owned;

use case_words::{Case, Page};
use std::alloc::Global;

/// Adds what the operation gives. `None` if there is no such operation.
pub fn put_answer(alloc: Global, operation: &str, case: &Case, page: &mut Page) -> Option<()> {
    match operation {
        "loose" => borrowed::loose(alloc, case, page),
        "content" => borrowed::content(alloc, case, page),
        "own" => owned::own(alloc, case, page),
        "decode" => data::decode(alloc, case, page),
        "verify" => data::verify(case, page),
        _ => return None,
    }
    Some(())
}

/// How many entries a tree has, or that there is none.
pub fn show_entries(count: Option<usize>, page: &mut Page) {
    match count {
        Some(count) => page.put_between("; tree ", count, ""),
        None => page.text("; tree none"),
    }
}

/// The bytes of a blob, the message of a commit or the name of a tag after the word of its kind, or
/// that there is none.
pub fn show_part(kind: &str, bytes: Option<&[u8]>, page: &mut Page) {
    page.text("; ");
    page.text(kind);
    match bytes {
        Some(bytes) => page.between(" ", bytes, ""),
        None => page.text(" none"),
    }
}
