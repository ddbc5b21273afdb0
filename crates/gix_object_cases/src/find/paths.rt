//! Entries by their paths.

use crate::find::errors;
use case_words::Page;
use gix_hash::{ObjectId, oid};
use gix_object_find::{Find, FindExt, TreeRefIterExt};
use gix_object_lookup::lookup::Error;
use gix_object_tree::TreeRefIter;
use gix_object_tree::tree::Entry;
use std::alloc::{AllocError, Global};

fn show(found: Result<Option<Entry>, Error>, page: &mut Page) {
    match found {
        Ok(Some(entry)) => {
            page.put_between("", entry.mode.as_str(), " ");
            page.put_between("", entry.oid, " ");
            page.escaped(entry.filename.as_bytes());
        }
        Ok(None) => page.text("none"),
        Err(error) => errors::lookup(error, page),
    }
}

// The names between line feeds.
fn names(alloc: Global, text: &[u8]) -> Result<Vec<&[u8]>, AllocError> {
    text.split(|byte| *byte == b'\n').collect(alloc)
}

/// The entry of a path from the tree of the id on: by one text, or by names between line feeds.
pub fn entry<T: Find>(
    alloc: Global,
    objects: &T,
    id: oid<'_>,
    path: &[u8],
    is_text: bool,
    page: &mut Page,
) {
    let mut root = Vec::new(alloc);
    let tree = match objects.find_tree_iter(id, &mut root) {
        Ok(tree) => tree,
        Err(error) => return errors::existing_iter(error, page),
    };
    let mut buffer = Vec::new(alloc);
    if is_text {
        show(
            tree.lookup_entry_by_path(alloc, objects, &mut buffer, path),
            page,
        );
        return;
    }
    match names(alloc, path) {
        Ok(names) => show(
            tree.lookup_entry(alloc, objects, &mut buffer, names.as_slice()),
            page,
        ),
        Err(error) => page.refused(error),
    }
}
