//! Objects in memory, from lines.

use crate::store::objects::read_object;
use case_words::{Store, text_of};
use std::alloc::Global;

/// The objects of lines that have a loose object in hexadecimal digits.
pub fn read_objects(alloc: Global, text: &[u8]) -> Option<Store> {
    let mut store = Store::new(alloc);
    for digits in text_of(text)?.lines() {
        store.put(read_object(alloc, digits)?).ok()?;
    }
    Some(store)
}
