//! Tags with one part changed: what is written of them, and whether they can be owned.

use crate::written::show_written;
use bstr::BStr;
use case_words::{Case, Page};
use gix_object_lines::lines::ActorRef;
use gix_object_tag::TagRef;
use std::alloc::Global;

/// Adds what is written of the tag with the part that the operation names, and of the tag that owns
/// its parts.
pub fn change(alloc: Global, operation: &str, tag: TagRef<'_>, case: &Case, page: &mut Page) {
    match changed(operation, tag, case) {
        Some(tag) => show_both(alloc, tag, page),
        None => page.text("no operation"),
    }
}

fn changed<'a>(operation: &str, tag: TagRef<'a>, case: &'a Case) -> Option<TagRef<'a>> {
    let part = BStr::new(case.text(1));
    match operation {
        "with-target" => Some(TagRef {
            target: part,
            ..tag
        }),
        "with-name" => Some(TagRef { name: part, ..tag }),
        "with-message" => Some(TagRef {
            message: part,
            ..tag
        }),
        "with-signature" => Some(TagRef {
            pgp_signature: Some(part),
            ..tag
        }),
        "with-tagger" => Some(TagRef {
            tagger: Some(ActorRef {
                name: part,
                email: BStr::new(case.text(2)),
                time: BStr::new(case.text(3)),
            }),
            ..tag
        }),
        _ => None,
    }
}

fn show_both(alloc: Global, tag: TagRef<'_>, page: &mut Page) {
    show_written(alloc, &tag, page);
    match tag.into_owned(alloc) {
        Ok(own) => {
            page.text("; own ");
            show_written(alloc, &own, page);
        }
        Err(error) => {
            page.text("; not owned ");
            page.name(error);
        }
    }
}
