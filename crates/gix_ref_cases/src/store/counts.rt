//! How many calls of the files a listing makes.

use case_words::Page;
use gix_ref_file::MemoryFiles;
use gix_ref_fuse::Fuse;
use gix_ref_store::store::file::Store;
use std::alloc::Global;

/// Adds how many calls a listing by the packed references makes when it is made, how many when it
/// is gone through, and how many references it gives.
pub fn count(alloc: Global, store: &Store<Fuse<MemoryFiles>>, prefix: &[u8], page: &mut Page) {
    let Ok(packed) = store.open_packed_buffer(alloc) else {
        return page.text("packed broken");
    };
    let opened = store.files().calls();
    let Ok(mut references) = store.iter_prefixed_packed(alloc, prefix, packed.as_ref()) else {
        return page.text("not listed");
    };
    let made = store.files().calls();
    let mut given = 0u64;
    while let Some(_) = references.next() {
        given = given.saturating_add(1);
    }
    page.put(made.saturating_sub(opened));
    page.value(store.files().calls().saturating_sub(made));
    page.value(given);
}
