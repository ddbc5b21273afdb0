//! One operation on whatever looks objects up.

use crate::find::{kinds, paths};
use case_words::{Case, Page};
use gix_hash::ObjectId;
use gix_object_find::{Exists, Find, FindHeader};
use std::alloc::Global;

/// The result of the operation on these objects: the id is the first text, and a path the second.
pub fn ask<T: Exists + Find + FindHeader>(
    alloc: Global,
    objects: &T,
    operation: &str,
    case: &Case,
    page: &mut Page,
) {
    let Ok(id) = ObjectId::try_from(case.text(0)) else {
        return page.text("no id");
    };
    let id = id.as_oid();
    let mut buffer = Vec::new(alloc);
    match operation {
        "header" => kinds::header(objects, id, page),
        "find" => kinds::find(objects, id, &mut buffer, page),
        "blob" => kinds::blob(objects, id, &mut buffer, page),
        "tree" => kinds::tree(alloc, objects, id, &mut buffer, page),
        "commit" => kinds::commit(alloc, objects, id, &mut buffer, page),
        "tag" => kinds::tag(objects, id, &mut buffer, page),
        "path" => paths::entry(alloc, objects, id, case.text(1), true, page),
        "names" => paths::entry(alloc, objects, id, case.text(1), false, page),
        _ => page.text("no operation"),
    }
}
