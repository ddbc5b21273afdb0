//! The store of objects, by its public calls alone.

use case_words::{Page, read_bytes};
use gix_ref_file::MemoryFiles;
use history::lookups::{Exists, FindInto};
use history::{Kind, Objects, ObjectsRefusal, OpenError, PutError, lookups};
use std::alloc::Global;

/// Shows a blob that is put and found; then a tag of it, which is malformed; and the part, which is
/// opened with the blob, but not with ids of the other kind.
pub fn put(alloc: Global, kind: Kind, content: &str, page: &mut Page) -> Option<()> {
    let mut objects = Objects::open(alloc, MemoryFiles::new(alloc), kind).ok()?;
    let id = objects
        .put(alloc, lookups::Kind::Blob, read_bytes(alloc, content)?)
        .ok()?;
    let mut digits = Kind::hex_buf();
    page.word(id.hex_to_buf(&mut digits));
    page.word(if objects.exists(id.as_oid()) {
        "exists"
    } else {
        "lost"
    });
    let mut found = Vec::new(alloc);
    if objects.find_into(id.as_oid(), &mut found) == Ok(Some(lookups::Kind::Blob)) {
        page.named("blob", &found);
    }
    page.word(if objects.ids().next() == Some(id) {
        "first"
    } else {
        "later"
    });
    let tag = b"object".as_slice().to_vec(alloc).ok()?;
    match objects.put(alloc, lookups::Kind::Tag, tag) {
        Err(PutError::Malformed) => page.word("Malformed"),
        _ => page.word("put"),
    }
    reopen(alloc, kind, objects.into_files(), page)
}

// Opens a part again, and then with ids of the other kind, of which it has none.
fn reopen(alloc: Global, kind: Kind, files: MemoryFiles, page: &mut Page) -> Option<()> {
    let objects = Objects::open(alloc, files, kind).ok()?;
    page.word("opened");
    let other = match kind {
        Kind::Sha1 => Kind::Sha256,
        Kind::Sha256 => Kind::Sha1,
    };
    let opened = Objects::open(alloc, objects.into_files(), other);
    match &opened {
        Err(
            ObjectsRefusal {
                error: OpenError::Stray(path),
                ..
            },
        ) => page.named("Stray", path),
        _ => page.word("other"),
    }
    Some(())
}
