//! Cases of `gix_hash`.

mod digests;
mod fields;
mod runs;
mod streams;
mod texts;

use case_words::{Page, read_texts};
use gix_hash::ObjectId;
use std::alloc::Global;

/// Adds what the operation of the line gives; `list` sets the ids that `find` searches. `None` if
/// the line is no case or no memory is left.
pub fn put_answer(
    rt: &HostRuntime,
    list: &mut Vec<ObjectId>,
    line: &str,
    page: &mut Page,
) -> Option<()> {
    let (operation, text) = line.split_once(' ')?;
    let fields = read_texts(rt.alloc(), text)?;
    match operation {
        "list" => runs::set(rt.alloc(), list, &fields, page),
        "find" => runs::find(list.as_slice(), &fields, page),
        "file" => streams::file(rt, &fields, page),
        "zeros" => streams::zeros(rt.alloc(), &fields, page),
        "stream" => streams::stream(&fields, page),
        "digest" => digests::digest(&fields, page),
        "blob" => digests::blob(rt.alloc(), &fields, page),
        "write" => digests::write(rt.alloc(), &fields, page),
        _ => put_text(rt.alloc(), operation, &fields, page),
    }
}

fn put_text(alloc: Global, operation: &str, fields: &[Vec<u8>], page: &mut Page) -> Option<()> {
    match operation {
        "write_id" | "write_view" | "write_change" | "write_prefix" => {
            texts::written(alloc, operation, fields, page)
        }
        "kind_of_name" => texts::kind_of_name(fields, page),
        "read_id" => texts::read_id(fields, page),
        "prefix" => texts::prefix(fields, page),
        "read_prefix" => texts::read_prefix(fields, page),
        "verify" => texts::verify(fields, page),
        _ => None,
    }
}
