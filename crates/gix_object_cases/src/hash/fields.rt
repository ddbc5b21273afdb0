//! The fields of a case.

use case_words::text_of;
use gix_hash::{Kind, ObjectId};
use std::convert::TryFrom;

/// The number that a field spells in decimal.
pub fn number(field: &[u8]) -> Option<usize> {
    text_of(field)?.parse().ok()
}

/// The kind that a field names.
pub fn kind(field: &[u8]) -> Option<Kind> {
    text_of(field)?.parse().ok()
}

/// The id that has the bytes.
pub fn id(field: &[u8]) -> Option<ObjectId> {
    ObjectId::try_from(field).ok()
}
