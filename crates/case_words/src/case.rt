//! Lines of a hash function and bytes.

use crate::digits::Texts;
use crate::ids::read_kind;
use gix_hash::Kind;
use std::alloc::Global;

/// What an operation is given.
#[derive(Drop)]
pub struct Case {
    /// The hash function.
    pub kind: Kind,
    /// The bytes of each further word.
    pub texts: Texts,
}

impl Case {
    /// The case of these words: the name of a hash function, and bytes in hexadecimal digits, of
    /// which `-` means none.
    pub fn read(alloc: Global, words: &str) -> Option<Case> {
        let (kind, texts) = match words.split_once(' ') {
            Some((kind, texts)) => (kind, Texts::read(alloc, texts)?),
            None => (words, Texts::new(alloc)),
        };
        Some(Case {
            kind: read_kind(kind)?,
            texts,
        })
    }

    /// The bytes of the word at this place, none if there is no such word.
    pub fn text(&self, place: usize) -> &[u8] {
        self.texts.text(place)
    }

    /// The words from this place on.
    pub fn behind(&self, place: usize) -> &[Vec<u8>] {
        self.texts.behind(place)
    }
}
