//! Lookups of words, and what they give.

use crate::store::{ends, objects};
use case_words::{Page, Store as Objects};
use gix_ref_file::MemoryFiles;
use gix_ref_format::loose;
use gix_ref_format::packed::{Buffer, FindError};
use gix_ref_name::PartialNameRef;
use gix_ref_store::Reference;
use gix_ref_store::store::file::{Store, find};
use std::alloc::Global;

/// Adds its name, its target, and the peeled id of its record.
pub fn show(reference: &Reference, page: &mut Page) {
    page.put(&reference.name);
    page.put_between(" ", &reference.target, "");
    if let Some(id) = &reference.peeled {
        page.put_between(" ^", id, "");
    }
}

/// Adds a reference, or why there is none.
pub fn show_found(found: Result<Reference, find::ExistingError>, page: &mut Page) {
    match found {
        Ok(reference) => show(&reference, page),
        Err(error) => show_missing(error, page),
    }
}

// A reference, if there is one.
fn show_tried(found: Result<Option<Reference>, find::Error>, page: &mut Page) {
    match found {
        Ok(Some(reference)) => show(&reference, page),
        Ok(None) => page.text("none"),
        Err(error) => show_fault(error, page),
    }
}

fn show_loose(reference: &loose::Reference, page: &mut Page) {
    page.put(&reference.name);
    page.put_between(" ", &reference.target, "");
}

// Why there is no reference.
fn show_missing(error: find::ExistingError, page: &mut Page) {
    match error {
        find::ExistingError::NotFound => page.text("none"),
        find::ExistingError::Find(error) => show_fault(error, page),
    }
}

// Why a lookup fails.
fn show_fault(error: find::Error, page: &mut Page) {
    page.text(match error {
        find::Error::ReadFileContents => "unread",
        find::Error::ReferenceCreation(_) => "broken",
        find::Error::PackedOpen(_) => "packed broken",
        find::Error::Memory => "memory",
    });
}

/// Adds what a lookup of this word gives, or what its reference leads to.
pub fn look_up(
    alloc: Global,
    store: &Store<MemoryFiles>,
    operation: &str,
    word: &str,
    objects: &str,
    page: &mut Page,
) {
    let (Ok(name), Some(objects)) = (
        PartialNameRef::new(word.as_bytes()),
        objects::read(alloc, objects),
    ) else {
        return page.text("no name");
    };
    match operation {
        "find" => show_found(store.find(alloc, name), page),
        "try_find" => show_tried(store.try_find(alloc, name), page),
        "loose" | "try_find_loose" => find_loose(alloc, store, operation, name, page),
        "next" | "peel" | "lines" => match store.find(alloc, name) {
            Ok(mut reference) => {
                ends::end(
                    alloc,
                    store,
                    &objects,
                    operation,
                    None,
                    &mut reference,
                    page,
                )
            }
            Err(error) => page.put(error),
        },
        _ => with_packed(alloc, store, &objects, operation, name, page),
    }
}

fn find_loose(
    alloc: Global,
    store: &Store<MemoryFiles>,
    operation: &str,
    name: PartialNameRef<'_>,
    page: &mut Page,
) {
    if operation == "loose" {
        return match store.find_loose(alloc, name) {
            Ok(reference) => show_loose(&reference, page),
            Err(error) => show_missing(error, page),
        };
    }
    match store.try_find_loose(alloc, name) {
        Ok(Some(reference)) => show_loose(&reference, page),
        Ok(None) => page.text("none"),
        Err(error) => show_fault(error, page),
    }
}

// The same by packed references that are opened before.
fn with_packed(
    alloc: Global,
    store: &Store<MemoryFiles>,
    objects: &Objects,
    operation: &str,
    name: PartialNameRef<'_>,
    page: &mut Page,
) {
    let opened = if operation == "cached_packed_buffer" {
        store.cached_packed_buffer(alloc)
    } else {
        store.open_packed_buffer(alloc)
    };
    match opened {
        Ok(packed) => find_packed(
            alloc,
            store,
            objects,
            operation,
            name,
            packed.as_ref(),
            page,
        ),
        Err(_) => page.text("packed broken"),
    }
}

fn find_packed(
    alloc: Global,
    store: &Store<MemoryFiles>,
    objects: &Objects,
    operation: &str,
    name: PartialNameRef<'_>,
    packed: Option<&Buffer>,
    page: &mut Page,
) {
    match operation {
        "packed" | "cached_packed_buffer" => {
            show_found(store.find_packed(alloc, name, packed), page)
        }
        "try_find_packed" => show_tried(store.try_find_packed(alloc, name, packed), page),
        "record" => show_record(alloc, packed, name, page),
        _ => match store.find_packed(alloc, name, packed) {
            Ok(mut reference) => {
                ends::end(
                    alloc,
                    store,
                    objects,
                    operation,
                    packed,
                    &mut reference,
                    page,
                )
            }
            Err(error) => page.put(error),
        },
    }
}

// The reference that a record of the buffer holds.
fn show_record(alloc: Global, packed: Option<&Buffer>, name: PartialNameRef<'_>, page: &mut Page) {
    let Some(packed) = packed else {
        return page.text("no records");
    };
    match packed.find(alloc, name) {
        Ok(record) => match Reference::from_packed(alloc, record) {
            Ok(reference) => show(&reference, page),
            Err(_) => page.text("memory"),
        },
        Err(FindError::NotFound) => page.text("none"),
        Err(FindError::Memory) => page.text("memory"),
    }
}
