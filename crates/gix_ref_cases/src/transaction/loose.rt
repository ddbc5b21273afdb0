//! Transactions of references.

use crate::transaction::cases::fused;
use crate::transaction::objects::read_objects;
use crate::transaction::ref_edits::read_edits;
use crate::transaction::trees::{read_files, show_files};
use bstr::BStr;
use case_words::Page;
use gix_object_lines::lines::ActorRef;
use gix_object_lookup::FindInto;
use gix_object_lookup::find::Never;
use gix_ref_edit::RefEdit;
use gix_ref_file::MemoryFiles;
use gix_ref_fuse::Fuse;
use gix_ref_store::Options;
use gix_ref_store::store::file::Store;
use gix_ref_transaction::PackedRefs;
use gix_ref_transaction::file::Transact;
use std::alloc::Global;

/// Adds the result of edits of which only deletions reach packed records, and the files that they
/// leave: a call of the files that stops or fails, the files, and the edits.
pub fn put_answer(alloc: Global, operation: &str, fields: [&[u8]; 3], page: &mut Page) {
    let mode = PackedRefs::<Never>::DeletionsOnly;
    put_told(alloc, operation, fields, mode, page);
}

/// Adds the same of edits of which updates are packed, with the objects that tags lead to.
pub fn put_packing(
    alloc: Global,
    operation: &str,
    fields: [&[u8]; 3],
    objects: &[u8],
    page: &mut Page,
) {
    let Some(objects) = read_objects(alloc, objects) else {
        return page.text("no objects");
    };
    let mode = if operation.starts_with("keep") {
        PackedRefs::DeletionsAndNonSymbolicUpdates(&objects)
    } else {
        PackedRefs::DeletionsAndNonSymbolicUpdatesRemoveLooseSourceReference(&objects)
    };
    put_told(alloc, operation, fields, mode, page);
}

// A store of these files, with a call of theirs that stops or fails.
fn store_of(alloc: Global, files: &[u8], fuse: &[u8]) -> Option<Store<Fuse<MemoryFiles>>> {
    let trial = fused(read_files(alloc, files)?, fuse)?;
    Some(Store::at_root(alloc, trial, Options::default()))
}

fn put_told<O: FindInto>(
    alloc: Global,
    operation: &str,
    [fuse, files, edits]: [&[u8]; 3],
    mode: PackedRefs<'_, O>,
    page: &mut Page,
) {
    match read_edits(alloc, edits) {
        Some(edits) => put_edited(alloc, operation, [fuse, files], edits, mode, page),
        None => page.text("refused"),
    }
}

fn put_edited<O: FindInto>(
    alloc: Global,
    operation: &str,
    [fuse, files]: [&[u8]; 2],
    edits: Vec<RefEdit>,
    mode: PackedRefs<'_, O>,
    page: &mut Page,
) {
    match store_of(alloc, files, fuse) {
        Some(mut store) => {
            put_tried(alloc, &mut store, operation, edits, mode, page);
            page.text("; ");
            show_files(alloc, &store.into_files().into_inner(), page);
        }
        None => page.text("no store"),
    }
}

fn put_tried<O: FindInto>(
    alloc: Global,
    store: &mut Store<Fuse<MemoryFiles>>,
    operation: &str,
    edits: Vec<RefEdit>,
    mode: PackedRefs<'_, O>,
    page: &mut Page,
) {
    let committer = ActorRef {
        name: BStr::new(b"a"),
        email: BStr::new(b"b"),
        time: BStr::new(b"1 +0000"),
    };
    let begun = store.transaction();
    let prepared = match begun.prepare(alloc, edits, Some(committer), mode) {
        Ok(prepared) => prepared,
        Err(error) => return page.name(error),
    };
    if operation.ends_with("-rollback") {
        return match prepared.rollback(alloc) {
            Ok(edits) => page.put_between("rolled back ", edits.len(), ""),
            Err(error) => page.name(error),
        };
    }
    match prepared.commit(alloc) {
        Ok(edits) => page.put_between("made ", edits.len(), ""),
        Err(error) => page.name(error),
    }
}
