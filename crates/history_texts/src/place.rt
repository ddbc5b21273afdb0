//! The path of an object's file by its id, and that of the unfinished file.
ghost use Rattle.std.specs.Prelude.{◌≡◌, IfOk};
ghost use Rattle.gix_hash.specs.Id.{id_of};
ghost use Rattle.history_model.specs.Places.{object_place};

use crate::id_text::hex_digits;
use gix_hash::{Kind, ObjectId};
use std::alloc::{AllocError, Global};

/// The file in which an object is written before it is renamed to its place.
pub const UNFINISHED: &[u8] = b"objects/unfinished";

// `objects/`, the digits of a SHA-256 id and the slash between them.
const LONGEST_PLACE: usize = 73;

/// Returns the path of an object's file.
pub fn object_place(alloc: Global, id: &ObjectId) -> Result<Vec<u8>, AllocError>
    ensures { IfOk result (λ place. place.items ≡ object_place (id_of id.now)) }
{
    // An id's digits are two for each of its bytes.
    let _bytes = id.as_bytes();
    let mut buffer = Kind::hex_buf();
    let (folder, file) = hex_digits(id, &mut buffer).split_at(2);
    let mut place = Vec::with_capacity(alloc, LONGEST_PLACE)?;
    place.extend_from_slice(b"objects/")?;
    place.extend_from_slice(folder)?;
    place.push(b'/')?;
    place.extend_from_slice(file)?;
    Ok(place)
}
