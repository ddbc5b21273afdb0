//! Namespaces of references, and a store's folders, its options, and whether it is as a new one.

use crate::store::lookups::show;
use bstr::BStr;
use case_words::Page;
use gix_ref_file::{Files, MemoryFiles, Place};
use gix_ref_name::{FullNameRef, Namespace, PartialNameRef, namespace};
use gix_ref_store::store::file::Store;
use gix_ref_store::{Options, Reference};
use std::alloc::Global;

/// Adds the name of a word's reference without the front of this namespace, and the reference once
/// the front is taken off.
pub fn strip(alloc: Global, store: &Store<MemoryFiles>, word: &str, space: &str, page: &mut Page) {
    let Ok(name) = PartialNameRef::new(word.as_bytes()) else {
        return page.text("no name");
    };
    let Ok(space) = PartialNameRef::new(space.as_bytes()) else {
        return page.text("no namespace");
    };
    match store.find(alloc, name) {
        Ok(reference) => strip_off(alloc, reference, space, page),
        Err(error) => page.put(error),
    }
}

fn strip_off(alloc: Global, mut reference: Reference, space: PartialNameRef<'_>, page: &mut Page) {
    match namespace::expand(alloc, space) {
        Ok(space) => show_stripped(alloc, &mut reference, &space, page),
        Err(error) => page.put(error),
    }
}

fn show_stripped(alloc: Global, reference: &mut Reference, space: &Namespace, page: &mut Page) {
    match reference.name_without_namespace(space) {
        Some(name) => page.put(name),
        None => page.text("outside"),
    }
    if reference.strip_namespace(alloc, space).is_err() {
        return page.text("memory");
    }
    page.text(" ");
    show(reference, page);
}

fn put_folder(folder: &[u8], page: &mut Page) {
    page.put_between("[", BStr::new(folder), "] ");
}

/// Adds the store's own folder, the shared one if it is another, that one in either case, the path
/// of packed references, whether its options are the usual ones, and how long the file of this path
/// is among the files that are taken out.
pub fn folders(alloc: Global, store: Store<MemoryFiles>, path: &str, page: &mut Page) {
    put_folder(store.git_dir(), page);
    put_folder(store.common_dir().unwrap_or(b"none"), page);
    put_folder(store.common_dir_resolved(), page);
    match store.packed_refs_path(alloc) {
        Ok(packed) => put_folder(packed.as_slice(), page),
        Err(_) => page.text("memory "),
    }
    page.put(store.options() == Options::default());
    match store.into_files().kind_of(path.as_bytes()) {
        Ok(Place::File(length)) => page.value(length),
        Ok(_) => page.word("no file"),
        Err(_) => page.word("unread"),
    }
}

/// Adds whether the store is as a new one whose `HEAD` points to this name.
pub fn pristine(alloc: Global, store: &Store<MemoryFiles>, name: &str, page: &mut Page) {
    let Ok(name) = FullNameRef::new(name.as_bytes()) else {
        return page.text("no name");
    };
    match store.is_pristine(alloc, name) {
        Ok(Some(pristine)) => page.put(pristine),
        Ok(None) => page.text("no head"),
        Err(error) => page.put(error),
    }
}
