//! Blobs, and the ids of objects.

use crate::written::show_object;
use case_words::{Case, Page};
use gix_hash::io::{self, Interrupt, Progress};
use gix_object_hash::{BlobRef, compute_hash, compute_stream_hash};
use gix_object_lines::Kind;
use gix_object_lines::decimal::read_unsigned;
use std::alloc::Global;

/// A blob, borrowed, owned, and borrowed from the owned one.
pub fn blob(alloc: Global, case: &Case, page: &mut Page) {
    let blob = BlobRef::from_bytes(case.text(0));
    show_object(alloc, case.kind, &blob, page);
    let own = match blob.into_owned(alloc) {
        Ok(own) => own,
        Err(error) => return page.name(error),
    };
    page.text("; own ");
    show_object(alloc, case.kind, &own, page);
    page.text("; lent ");
    show_object(alloc, case.kind, &own.to_ref(), page);
    page.between("; ", own.to_ref().content, "");
}

/// The id of an object: the word of its kind, and its content.
pub fn hash(case: &Case, page: &mut Page) {
    match Kind::from_bytes(case.text(0)) {
        Ok(kind) => page.put(compute_hash(case.kind, kind, case.text(1))),
        Err(error) => page.refused(error),
    }
}

#[derive(Drop)]
struct Amount {
    sum: usize,
}

impl Progress for Amount {
    fn inc_by(&mut self, step: usize) {
        self.sum = self.sum.saturating_add(step);
    }
}

#[derive(Drop)]
struct Never;

impl Interrupt for Never {
    fn asked(&mut self) -> bool {
        false
    }
}

/// The id of an object whose content is the front of a stream: the word of its kind, the content's
/// length and the stream; how much progress was reported; and how many bytes are left.
pub fn stream(case: &Case, page: &mut Page) {
    let (Ok(kind), Some(length)) = (Kind::from_bytes(case.text(0)), read_unsigned(case.text(1)))
    else {
        return page.text("no object");
    };
    let mut bytes = case.text(2);
    let mut progress = Amount { sum: 0 };
    match compute_stream_hash(
        case.kind,
        kind,
        &mut bytes,
        length,
        &mut progress,
        &mut Never,
    ) {
        Ok(id) => {
            page.put_between("", id, "; told ");
            page.put_between("", progress.sum, "; left ");
            page.put(bytes.len());
        }
        Err(io::Error::Io(_)) => page.text("refused Io"),
        Err(io::Error::Interrupted) => page.text("refused Interrupted"),
    }
}
