//! Words of hash functions and ids.

use gix_hash::{Kind, ObjectId};

/// The hash function of this name.
pub fn read_kind(word: &str) -> Option<Kind> {
    match word {
        "sha1" => Some(Kind::Sha1),
        "sha256" => Some(Kind::Sha256),
        _ => None,
    }
}

/// The id of these hexadecimal digits.
pub fn read_id(word: &str) -> Option<ObjectId> {
    ObjectId::from_hex(word.as_bytes()).ok()
}
