//! What led to a fault of a folder's files (`text_of_cause`): a call that failed, a garbled object, or what was read last.

use gix_hash::ObjectId;
use gix_hash::hasher::hasher;
use gix_ref_folder::{Failure, LastCall};
use std::alloc::{AllocError, Global};
use std::fs;
use std::io::ErrorKind;

/// Returns the path of what led to a fault, and the reason.
///
/// It is the call that failed, if one did. Else it is the first object that was read and isn't what
/// its id says, since it may have been read long before the fault; else what was read last.
pub fn text_of_cause(
    rt: &HostRuntime,
    folder: &str,
    call: &LastCall,
) -> Result<Vec<u8>, AllocError> {
    let alloc = rt.alloc();
    for path in call.take_objects().split(|byte| *byte == b'\n') {
        if is_garbled(rt, folder, path) {
            return with_reason(alloc, path, b"isn't what was written");
        }
    }
    let cause = call.cause();
    if cause.path().is_empty() {
        // The root's path is the folder's.
        return joined(alloc, folder.as_bytes(), &cause.text(alloc)?);
    }
    if has_met_folder(rt, folder, &cause) {
        return with_reason(alloc, cause.path(), b"Is a directory");
    }
    cause.text(alloc)
}

/// Returns a path, and a reason.
pub fn with_reason(alloc: Global, path: &[u8], reason: &[u8]) -> Result<Vec<u8>, AllocError> {
    joined(alloc, &joined(alloc, path, b": ")?, reason)
}

fn joined(alloc: Global, front: &[u8], rest: &[u8]) -> Result<Vec<u8>, AllocError> {
    let mut text = Vec::from_slice(alloc, front)?;
    text.extend_from_slice(rest)?;
    Ok(text)
}

// Returns whether an object's file has other bytes than its id says. Of one that can't be read now
// nothing is said.
fn is_garbled(rt: &HostRuntime, folder: &str, path: &[u8]) -> bool {
    let Some(id) = id_at(rt.alloc(), path) else {
        return false;
    };
    let Some(Ok(bytes)) = place_of(rt.alloc(), folder, path).map(|place| fs::read(rt, place)) else {
        return false;
    };
    let mut digest = hasher(id.kind());
    digest.update(&bytes);
    digest.try_finalize() != id
}

// Returns the id of the object whose path is `objects/`, two digits, `/` and the others.
fn id_at(alloc: Global, path: &[u8]) -> Option<ObjectId> {
    let digits = joined(alloc, path.get(8..10)?, path.get(11..)?).ok()?;
    ObjectId::from_hex(&digits).ok()
}

// Returns whether no file was there, since a folder is. Where a file is read, one counts as nothing.
fn has_met_folder(rt: &HostRuntime, folder: &str, cause: &Failure) -> bool {
    if cause.error().kind() != ErrorKind::NotFound {
        return false;
    }
    match place_of(rt.alloc(), folder, cause.path()) {
        Some(place) => fs::metadata(rt, place).is_ok_and(|found| found.is_dir()),
        None => false,
    }
}

// Returns the system's path of what is in the folder.
fn place_of(alloc: Global, folder: &str, path: &[u8]) -> Option<String> {
    let path = str::from_utf8(path).ok()?;
    format!(in alloc; "{folder}/{path}").ok()
}
