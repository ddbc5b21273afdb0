//! What references lead to: the next one, the object in the end, and the lines of their logs.

use crate::store::lookups::{show, show_found};
use case_words::{Page, Store as Objects};
use gix_hash::ObjectId;
use gix_ref_file::MemoryFiles;
use gix_ref_format::packed::Buffer;
use gix_ref_log::iter::Forward;
use gix_ref_store::Reference;
use gix_ref_store::store::file::log::Error;
use gix_ref_store::store::file::{LogPlatform, ReferenceExt, Store, find, peel};
use std::alloc::Global;

/// Adds what a reference leads to.
pub fn end(
    alloc: Global,
    store: &Store<MemoryFiles>,
    objects: &Objects,
    operation: &str,
    packed: Option<&Buffer>,
    reference: &mut Reference,
    page: &mut Page,
) {
    match operation {
        "lines" => lines(alloc, store, reference, page),
        "next" => show_next(reference.follow(alloc, store), page),
        "follow_packed" => show_next(reference.follow_packed(alloc, store, packed), page),
        "follow" => match reference.follow_to_object_packed(alloc, store, packed) {
            Ok(id) => page.put(id),
            Err(error) => page.put(error),
        },
        "follow_in_place" => follow_in_place(alloc, store, packed, reference, page),
        "peel" => show_peeled(alloc, store, objects, reference, page),
        _ => show_peeled_packed(alloc, store, objects, packed, reference, page),
    }
}

// The reference that another points to.
fn show_next(next: Option<Result<Reference, find::ExistingError>>, page: &mut Page) {
    match next {
        Some(next) => show_found(next, page),
        None => page.text("object"),
    }
}

// The object that a reference leads to, or why it leads to none, and what the reference then is.
fn follow_in_place(
    alloc: Global,
    store: &Store<MemoryFiles>,
    packed: Option<&Buffer>,
    reference: &mut Reference,
    page: &mut Page,
) {
    match reference.follow_to_object_in_place_packed(alloc, store, packed) {
        Ok(id) => page.put_between("", id, " "),
        Err(error) => page.put_between("", error, " "),
    }
    show(reference, page);
}

// The object that a reference leads to, and the reference once it is peeled in place.
fn show_peeled(
    alloc: Global,
    store: &Store<MemoryFiles>,
    objects: &Objects,
    reference: &mut Reference,
    page: &mut Page,
) {
    if show_id(reference.peel_to_id(alloc, store, objects), page) {
        let again = reference.peel_to_id_in_place(alloc, store, objects);
        if show_id(again, page) {
            show(reference, page);
        }
    }
}

fn show_peeled_packed(
    alloc: Global,
    store: &Store<MemoryFiles>,
    objects: &Objects,
    packed: Option<&Buffer>,
    reference: &mut Reference,
    page: &mut Page,
) {
    if show_id(
        reference.peel_to_id_packed(alloc, store, objects, packed),
        page,
    ) {
        let again = reference.peel_to_id_in_place_packed(alloc, store, objects, packed);
        if show_id(again, page) {
            show(reference, page);
        }
    }
}

// The object that a reference leads to, with a space after it, or why there is none. Returns
// whether there is one.
fn show_id(peeled: Result<ObjectId, peel::Error>, page: &mut Page) -> bool {
    match peeled {
        Ok(id) => {
            page.put_between("", id, " ");
            return true;
        }
        Err(peel::Error::NotFound { oid }) => page.put_between("lost ", oid, ""),
        Err(error) => page.put(error),
    }
    false
}

// A mark for each line of a reference's log, from its beginning, from its end, and from its
// beginning again.
fn lines(alloc: Global, store: &Store<MemoryFiles>, reference: &Reference, page: &mut Page) {
    let mut log = reference.log_iter(alloc, store);
    mark_all(log.all(alloc), page);
    page.text("/");
    mark_back(alloc, &mut log, page);
    page.text("/");
    mark_all(log.all(alloc), page);
}

fn mark_all(lines: Result<Option<Forward<'_>>, Error>, page: &mut Page) {
    match lines {
        Ok(Some(lines)) => {
            for line in lines {
                page.text(mark(line.is_ok()));
            }
        }
        Ok(None) => page.text("none"),
        Err(error) => page.put(error),
    }
}

fn mark_back(alloc: Global, log: &mut LogPlatform<'_, '_, MemoryFiles>, page: &mut Page) {
    match log.rev(alloc) {
        Ok(Some(lines)) => {
            for line in lines {
                page.text(mark(line.is_ok()));
            }
        }
        Ok(None) => page.text("none"),
        Err(error) => page.put(error),
    }
}

fn mark(is_line: bool) -> &'static str {
    if is_line { "+" } else { "!" }
}
