//! Listings of references.

use crate::store::lookups::show;
use case_words::Page;
use gix_ref_file::MemoryFiles;
use gix_ref_store::Reference;
use gix_ref_store::store::file::Store;
use gix_ref_store::store::file::iter::{Error, LooseThenPacked};
use std::alloc::Global;

type Listing<'s, 'p> = Result<LooseThenPacked<'s, 'p, MemoryFiles>, Error>;

// Each reference, and `!` for one that can't be read.
fn show_all(listing: Listing<'_, '_>, page: &mut Page) {
    let mut references = match listing {
        Ok(references) => references,
        Err(error) => return page.put(error),
    };
    while let Some(item) = references.next() {
        show_item(item, page);
    }
}

fn show_item(item: Result<Reference, Error>, page: &mut Page) {
    match item {
        Ok(reference) => show(&reference, page),
        Err(error) => show_error(&error, page),
    }
    page.text(";");
}

fn show_error(error: &Error, page: &mut Page) {
    match error {
        Error::ReferenceCreation { .. } => page.text("!"),
        _ => page.put(error),
    }
}

// The references of a listing by the packed references that are opened for it.
fn list_packed(
    alloc: Global,
    store: &Store<MemoryFiles>,
    operation: &str,
    prefix: &[u8],
    page: &mut Page,
) {
    let Ok(opened) = store.open_packed_buffer(alloc) else {
        return page.text("packed broken");
    };
    let packed = opened.as_ref();
    match operation {
        "iter_packed" => show_all(store.iter_packed(alloc, packed), page),
        "iter_within_packed" => show_all(store.iter_within_packed(alloc, prefix, packed), page),
        _ => show_all(store.iter_prefixed_packed(alloc, prefix, packed), page),
    }
}

fn list_by_platform(
    alloc: Global,
    store: &Store<MemoryFiles>,
    operation: &str,
    prefix: &[u8],
    page: &mut Page,
) {
    let Ok(platform) = store.iter(alloc) else {
        return page.text("packed broken");
    };
    match operation {
        "all" => show_all(platform.all(alloc), page),
        "pseudo" => show_all(platform.pseudo(alloc), page),
        "within" => show_all(platform.within(alloc, prefix), page),
        _ => show_all(platform.prefixed(alloc, prefix), page),
    }
}

/// Adds the references of a listing, or of `force_refresh_packed_buffer` whether the packed ones
/// can be opened; or that the operation is none.
pub fn list(
    alloc: Global,
    store: &Store<MemoryFiles>,
    operation: &str,
    asked: &str,
    page: &mut Page,
) {
    let prefix = if asked == "-" { "" } else { asked };
    let prefix = prefix.as_bytes();
    match operation {
        "force_refresh_packed_buffer" => page.text(
            match store.force_refresh_packed_buffer(alloc) {
                Ok(()) => "opened",
                Err(_) => "packed broken",
            },
        ),
        "files" => show_all(store.loose_iter_prefixed(alloc, prefix), page),
        "loose_iter" => show_all(store.loose_iter(alloc), page),
        "iter_pseudo" => show_all(store.iter_pseudo(alloc), page),
        "iter_packed" | "iter_prefixed_packed" | "iter_within_packed" => {
            list_packed(alloc, store, operation, prefix, page)
        }
        "all" | "prefixed" | "within" | "pseudo" => {
            list_by_platform(alloc, store, operation, prefix, page)
        }
        _ => page.text("no operation"),
    }
}
