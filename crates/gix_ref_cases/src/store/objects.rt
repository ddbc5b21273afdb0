//! The objects of a line, with which a store of references peels.

use case_words::{Store, Stored, read_loose};
use gix_hash::Kind;
use std::alloc::Global;

/// Loose objects in hexadecimal digits, with `;` between them; those that don't read are left out.
/// `None` if no memory is left.
pub fn read(alloc: Global, text: &str) -> Option<Store> {
    let mut store = Store::new(alloc);
    for digits in text.split(';') {
        if let Some(object) = read_object(alloc, digits) {
            store.put(object).ok()?;
        }
    }
    Some(store)
}

/// A loose object in hexadecimal digits.
pub fn read_object(alloc: Global, digits: &str) -> Option<Stored> {
    let loose = hex::decode(alloc, digits).ok()?;
    read_loose(alloc, Kind::Sha1, loose.as_slice())
}
