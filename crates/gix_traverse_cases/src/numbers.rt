//! Numbers in the place of ids.

use case_words::Page;
use gix_hash::ObjectId;
use std::alloc::Global;

/// The id of the number that a word spells, which is its last two bytes.
pub fn read_id(word: &str) -> Option<ObjectId> {
    let mut bytes = [0u8; 20];
    let [first, last] = word.parse::<u16>().ok()?.to_be_bytes();
    bytes[18] = first;
    bytes[19] = last;
    Some(ObjectId::Sha1(bytes))
}

/// The ids of numbers between commas; `-` is none.
pub fn read_ids(alloc: Global, text: &str) -> Option<Vec<ObjectId>> {
    let mut ids = Vec::new(alloc);
    if text != "-" {
        for part in text.split(',') {
            ids.push(read_id(part)?).ok()?;
        }
    }
    Some(ids)
}

/// The number of an id.
pub fn number(id: &ObjectId) -> u16 {
    match id.as_bytes() {
        [.., first, last] => u16::from_be_bytes([*first, *last]),
        _ => 0,
    }
}

/// Adds the numbers of these ids, each with a space after it.
pub fn put_each(ids: &[ObjectId], page: &mut Page) {
    for id in ids {
        page.put_between("", number(id), " ");
    }
}

/// Adds the numbers of these ids between commas, `-` for none.
pub fn put_ids(ids: &[ObjectId], page: &mut Page) {
    if ids.is_empty() {
        page.text("-");
    }
    for (place, id) in ids.iter().enumerate() {
        page.put_between(if place == 0 { "" } else { "," }, number(id), "");
    }
}
