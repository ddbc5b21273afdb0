//! Bytes in a word: each as it is, or as `%` and its two hexadecimal digits.

use std::alloc::Global;

/// The bytes of a word; `None` if it spells none.
///
/// A word is parts with `+` between them. In a part each byte is written as it is, or as `%` and
/// two hexadecimal digits, and `*` with a number after it repeats the part so many times. The word
/// `-` spells no bytes.
pub fn read_bytes(alloc: Global, word: &str) -> Option<Vec<u8>> {
    let mut bytes = Vec::new(alloc);
    if word == "-" {
        return Some(bytes);
    }
    for part in word.split('+') {
        let (text, count) = match part.split_once('*') {
            Some((text, count)) => (text, count.parse().ok()?),
            None => (part, 1),
        };
        add_times(alloc, &mut bytes, text, count)?;
    }
    Some(bytes)
}

fn add_times(alloc: Global, bytes: &mut Vec<u8>, text: &str, count: usize) -> Option<()> {
    let part = read_part(alloc, text)?;
    match part.as_slice() {
        [byte] => bytes
            .extend_from_slice(&vec![in alloc; *byte; count].ok()?)
            .ok(),
        _ => {
            for _ in 0..count {
                bytes.extend_from_slice(&part).ok()?;
            }
            Some(())
        }
    }
}

fn read_part(alloc: Global, text: &str) -> Option<Vec<u8>> {
    let mut pieces = text.split('%');
    let mut bytes = pieces.next()?.as_bytes().to_vec(alloc).ok()?;
    for piece in pieces {
        bytes
            .push(u8::from_str_radix(piece.get(..2)?, 16).ok()?)
            .ok()?;
        bytes.extend_from_slice(piece.get(2..)?.as_bytes()).ok()?;
    }
    Some(bytes)
}
