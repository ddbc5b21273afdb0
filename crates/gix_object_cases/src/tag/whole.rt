//! Tags read whole and owned.

use crate::written::{show_actor, show_object};
use case_words::Page;
use gix_object_lines::lines::ActorRef;
use gix_object_signature::SignatureRef;
use gix_object_tag::{Tag, TagRef};
use std::alloc::Global;

fn show_tagger(tagger: Option<ActorRef<'_>>, page: &mut Page) {
    match tagger {
        Some(tagger) => show_actor("tagger ", tagger, "", page),
        None => page.text("tagger none"),
    }
}

/// Adds a signature's format and bytes, or `none`.
pub fn show_signature(signature: Option<SignatureRef<'_>>, page: &mut Page) {
    match signature {
        Some(found) => {
            page.text("signature ");
            page.name(found.format);
            page.between(" ", found.signature.as_bytes(), "");
        }
        None => page.text("signature none"),
    }
}

/// The parts of a tag as its fields hold them.
pub fn read(tag: TagRef<'_>, page: &mut Page) {
    page.between("object ", tag.target.as_bytes(), "; type ");
    page.put(tag.target_kind);
    page.between("; tag ", tag.name.as_bytes(), "; ");
    show_tagger(tag.tagger, page);
    page.between("; message ", tag.message.as_bytes(), "; ");
    page.told("signature ", tag.pgp_signature, "");
}

fn show_own(tag: &Tag, page: &mut Page) {
    page.put_between("object ", tag.target, "; type ");
    page.put(tag.target_kind);
    page.between("; tag ", tag.name.as_bytes(), "; tagger ");
    match &tag.tagger {
        Some(tagger) => {
            page.between("", tagger.name.as_bytes(), "|");
            page.between("", tagger.email.as_bytes(), "|");
            page.put_between("", tagger.time.seconds, " ");
            page.put(tagger.time.offset);
        }
        None => page.text("none"),
    }
    page.between("; message ", tag.message.as_bytes(), "; ");
    show_signature(tag.signature(), page);
}

/// The parts of a tag that owns them, and the length and the id of what is written of it.
pub fn own(alloc: Global, kind: gix_hash::Kind, tag: TagRef<'_>, page: &mut Page) {
    match tag.into_owned(alloc) {
        Ok(own) => {
            show_own(&own, page);
            page.text("; ");
            show_object(alloc, kind, &own, page);
        }
        Err(error) => {
            page.text("not owned ");
            page.name(error);
        }
    }
}
