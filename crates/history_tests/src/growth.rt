//! A put for which memory runs out.

use gix_hash::Kind;
use gix_ref_file::{Files, MemoryFiles};
use history_store::{ObjectKind, Objects, PutError};
use std::alloc::{AllocError, Global};
use std::process::Abort;

// The place of the blob `hello`.
const SHA1_PLACE: &str = "objects/b6/fc4c620b67d95f953a5c1c1230aaab5db5a1b0";

const SHA256_PLACE: &str =
    "objects/8a/ec4e4876f854f688d0ebfc8f37598f38e5fd6903cccc850ca36591175aeb60";

// Returns whether there is a file at the place; false if it can't be read.
fn stands(alloc: Global, objects: &Objects<MemoryFiles>, place: &str) -> bool {
    let mut text = Vec::new(alloc);
    matches!(
        objects.files().read(place.as_bytes(), &mut text),
        Ok(Some(_))
    )
}

fn hello(alloc: Global) -> Result<Vec<u8>, AllocError> {
    b"hello".as_slice().to_vec(alloc)
}

// In an ordinary run no growth is refused; `rt try --test --fail-alloc N..` refuses one after
// another. Then there is no object's file.
fn check_growth<R: Abort>(rt: &R, alloc: Global, kind: Kind, place: &str) -> Result<(), PutError> {
    let mut objects = Objects::new(alloc, MemoryFiles::new(alloc), kind);
    let mut stored = objects.put(alloc, ObjectKind::Blob, hello(alloc)?);
    if stored == Err(PutError::Memory) {
        assert!(rt; objects.ids().next() == None);
        assert!(rt; !stands(alloc, &objects, place));
        stored = objects.put(alloc, ObjectKind::Blob, hello(alloc)?);
    }
    assert!(rt; stored.is_ok() && stands(alloc, &objects, place));
    Ok(())
}

#[test]
fn a_refused_growth_leaves_nothing(rt: HostRuntime) -> Result<(), PutError> {
    check_growth(&rt, rt.alloc(), Kind::Sha1, SHA1_PLACE)?;
    check_growth(&rt, rt.alloc(), Kind::Sha256, SHA256_PLACE)
}
