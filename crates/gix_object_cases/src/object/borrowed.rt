//! Objects whose parts are borrowed.

use crate::object::{show_entries, show_part};
use crate::written::show_object;
use case_words::{Case, Page};
use gix_object_any::ObjectRef;
use gix_object_lines::Kind;
use std::alloc::Global;

/// An object's kind, the length and the id of what is written of it, and what it lends as each
/// kind.
pub fn show(alloc: Global, hash_kind: gix_hash::Kind, object: &ObjectRef<'_>, page: &mut Page) {
    page.put_between("", ObjectRef::kind(object), ": ");
    show_object(alloc, hash_kind, object, page);
    show_part("blob", object.as_blob().map(|blob| blob.content), page);
    show_part(
        "commit",
        object.as_commit().map(|commit| commit.message.as_bytes()),
        page,
    );
    show_part("tag", object.as_tag().map(|tag| tag.name.as_bytes()), page);
    show_entries(object.as_tree().map(|tree| tree.entries.len()), page);
}

/// A loose object.
pub fn loose(alloc: Global, case: &Case, page: &mut Page) {
    match ObjectRef::from_loose(alloc, case.text(0), case.kind) {
        Ok(object) => show(alloc, case.kind, &object, page),
        Err(error) => page.refused(error),
    }
}

/// An object of a kind and its content.
pub fn content(alloc: Global, case: &Case, page: &mut Page) {
    let Ok(kind) = Kind::from_bytes(case.text(0)) else {
        return page.text("no kind");
    };
    match ObjectRef::from_bytes(alloc, kind, case.text(1), case.kind) {
        Ok(object) => show(alloc, case.kind, &object, page),
        Err(error) => page.refused(error),
    }
}
