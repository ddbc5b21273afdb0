//! Objects that must exist, of any kind and of each.

use crate::find::errors;
use case_words::Page;
use gix_hash::oid;
use gix_object_find::{Exists, Find, FindExt, FindHeader, HeaderExt};
use std::alloc::Global;

/// Whether an object of the id exists, and its header, by `exists`, `try_header` and `header`.
pub fn header<T: Exists + FindHeader>(objects: &T, id: oid<'_>, page: &mut Page) {
    page.test("exists", objects.exists(id));
    match objects.try_header(id) {
        Ok(Some(header)) => page.put_between(" ", header.size, "; "),
        Ok(None) => page.text(" none; "),
        Err(error) => {
            page.text(" ");
            page.refused(error);
            page.text("; ");
        }
    }
    match objects.header(id) {
        Ok(header) => {
            page.put_between("", header.kind, " ");
            page.put(header.size);
        }
        Err(error) => errors::existing(error, page),
    }
}

/// The object of the id, by `try_find` and `find`.
pub fn find<T: Find>(objects: &T, id: oid<'_>, buffer: &mut Vec<u8>, page: &mut Page) {
    match objects.try_find(id, buffer) {
        Ok(Some(found)) => page.put_between("", found.content.len(), "; "),
        Ok(None) => page.text("none; "),
        Err(error) => {
            page.refused(error);
            page.text("; ");
        }
    }
    match objects.find(id, buffer) {
        Ok(found) => {
            page.put_between("", found.kind, " ");
            page.put_between("of ", found.object_hash, " ");
            page.escaped(found.content);
        }
        Err(error) => errors::existing(error, page),
    }
}

/// The content of the blob of the id.
pub fn blob<T: Find>(objects: &T, id: oid<'_>, buffer: &mut Vec<u8>, page: &mut Page) {
    match objects.find_blob(id, buffer) {
        Ok(blob) => page.escaped(blob.content),
        Err(error) => errors::existing_object(error, page),
    }
}

/// The names of the tree of the id, whole and one by one.
pub fn tree<T: Find>(
    alloc: Global,
    objects: &T,
    id: oid<'_>,
    buffer: &mut Vec<u8>,
    page: &mut Page,
) {
    match objects.find_tree(alloc, id, buffer) {
        Ok(tree) => {
            for entry in &tree.entries {
                page.between("", entry.filename.as_bytes(), " ");
            }
        }
        Err(error) => errors::existing_object(error, page),
    }
    match objects.find_tree_iter(id, buffer) {
        Ok(entries) => page.put_between("; ", entries.count(), " read"),
        Err(error) => {
            page.text("; ");
            errors::existing_iter(error, page);
        }
    }
}

/// The message of the commit of the id, and how many parts it has.
pub fn commit<T: Find>(
    alloc: Global,
    objects: &T,
    id: oid<'_>,
    buffer: &mut Vec<u8>,
    page: &mut Page,
) {
    match objects.find_commit(alloc, id, buffer) {
        Ok(commit) => page.escaped(commit.message.as_bytes()),
        Err(error) => errors::existing_object(error, page),
    }
    match objects.find_commit_iter(id, buffer) {
        Ok(tokens) => page.put_between("; ", tokens.count(), " read"),
        Err(error) => {
            page.text("; ");
            errors::existing_iter(error, page);
        }
    }
}

/// The name of the tag of the id, and how many parts it has.
pub fn tag<T: Find>(objects: &T, id: oid<'_>, buffer: &mut Vec<u8>, page: &mut Page) {
    match objects.find_tag(id, buffer) {
        Ok(tag) => page.escaped(tag.name.as_bytes()),
        Err(error) => errors::existing_object(error, page),
    }
    match objects.find_tag_iter(id, buffer) {
        Ok(tokens) => page.put_between("; ", tokens.count(), " read"),
        Err(error) => {
            page.text("; ");
            errors::existing_iter(error, page);
        }
    }
}
