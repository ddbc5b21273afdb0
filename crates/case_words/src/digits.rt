//! Bytes in hexadecimal digits.

use std::alloc::Global;
use std::str;

/// The bytes of a word: two hexadecimal digits each, and `-` for none. `None` if it has another
/// form or no memory is left.
pub fn read_digits(alloc: Global, word: &str) -> Option<Vec<u8>> {
    hex::decode(alloc, if word == "-" { "" } else { word }).ok()
}

/// The bytes of each of the words, which single spaces separate.
pub fn read_texts(alloc: Global, words: &str) -> Option<Vec<Vec<u8>>> {
    let mut texts = Vec::new(alloc);
    for word in words.split(' ') {
        texts.push(read_digits(alloc, word)?).ok()?;
    }
    Some(texts)
}

/// Bytes as text, if they are UTF-8.
pub fn text_of(bytes: &[u8]) -> Option<&str> {
    str::from_utf8(bytes).ok()
}

/// The bytes of a line's words.
#[derive(Drop)]
pub struct Texts {
    all: Vec<Vec<u8>>,
}

impl Texts {
    /// No words.
    pub fn new(alloc: Global) -> Texts {
        Texts {
            all: Vec::new(alloc),
        }
    }

    /// The bytes of each of these words.
    pub fn read(alloc: Global, words: &str) -> Option<Texts> {
        Some(Texts {
            all: read_texts(alloc, words)?,
        })
    }

    /// The bytes of the word at this place, none if there is no such word.
    pub fn text(&self, place: usize) -> &[u8] {
        match self.all.get(place) {
            Some(text) => text.as_slice(),
            None => b"",
        }
    }

    /// The words from this place on.
    pub fn behind(&self, place: usize) -> &[Vec<u8>] {
        self.all.get(place..).unwrap_or(&[])
    }
}
