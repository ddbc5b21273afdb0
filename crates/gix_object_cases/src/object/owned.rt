//! Objects that own their parts.

use crate::object::{show_entries, show_part};
use crate::written::show_object;
use case_words::{Case, Page};
use gix_object_any::{Object, ObjectRef};
use std::alloc::Global;

fn show(alloc: Global, hash_kind: gix_hash::Kind, object: &Object, page: &mut Page) {
    page.put_between("", Object::kind(object), ": ");
    show_object(alloc, hash_kind, object, page);
    show_part(
        "blob",
        object.as_blob().map(|blob| blob.content.as_bytes()),
        page,
    );
    show_part(
        "lent blob",
        object.try_into_blob_ref().map(|blob| blob.content),
        page,
    );
    show_part(
        "commit",
        object.as_commit().map(|commit| commit.message.as_bytes()),
        page,
    );
    show_part("tag", object.as_tag().map(|tag| tag.name.as_bytes()), page);
    show_entries(object.as_tree().map(|tree| tree.entries.len()), page);
}

/// A copy of a loose object, and whether one that is given is like one that is lent.
pub fn own(alloc: Global, case: &Case, page: &mut Page) {
    let object = match ObjectRef::from_loose(alloc, case.text(0), case.kind) {
        Ok(object) => object,
        Err(error) => return page.refused(error),
    };
    let (Ok(lent), Ok(given)) = (object.to_owned(alloc), object.into_owned(alloc)) else {
        return page.text("not owned");
    };
    show(alloc, case.kind, &given, page);
    page.text(if lent == given {
        "; alike"
    } else {
        "; different"
    });
}
