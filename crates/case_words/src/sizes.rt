//! Rows of all sizes: lines with repetitions, whose answers are shown as digests.

use crate::digits::read_digits;
use crate::page::Page;
use gix_hash::hasher::hasher;
use gix_object_hash::compute_hash;
use gix_object_lines::Kind;
use gix_object_lines::encode::loose_header;
use std::alloc::{AllocError, Global};
use std::io;

/// The reply to a line.
///
/// After `sizes ` a reply to the rest is made for the sizes 0, 1, 2, 63 to 65, each of 1,000 to
/// 1,025, and 4,097, each shown by the first four digits of a SHA-1 digest. The rest is lines with
/// `&` between them; the digest is that of their replies, each with a line feed after it.
///
/// In a line `[PART]` is the part, so many times as the size says; if it ends with a comma, there
/// is none after the last, and `-` at size 0. In it `#` is the running number, from 0, and `^` the
/// next one, both in four digits, and `~` is the digits of the first in hexadecimal digits; outside
/// they are of the size. Then `(KIND CONTENT)` is the SHA-1 id of an object, and `(=KIND CONTENT)`
/// the loose object, both in hexadecimal digits, as the content is.
pub fn answer_sizes<F: FnMut(&str) -> io::Result<String>>(
    alloc: Global,
    line: &str,
    answer: &mut F,
) -> io::Result<String>
    requires { (f : F) (row : _) → F.pre f row }
{
    let Some(row) = line.strip_prefix("sizes ") else {
        return answer(line);
    };
    let mut page = Page::new(alloc);
    for size in 0..4098u32 {
        if matches!(size, 0..=2 | 63..=65 | 1000..=1025 | 4097) {
            let lines = make_objects(alloc, expand(alloc, row, size)?.as_str())?;
            page.word("");
            put_digest(lines.as_str(), answer, &mut page)?;
        }
    }
    Ok(page.finish()?)
}

fn put_digest<F: FnMut(&str) -> io::Result<String>>(
    lines: &str,
    answer: &mut F,
    page: &mut Page,
) -> io::Result<()>
    requires { (f : F) (row : _) → F.pre f row }
{
    let mut digest = hasher(gix_hash::Kind::Sha1);
    for line in lines.split('&') {
        digest.update(answer(line)?.as_str().as_bytes());
        digest.update(b"\n");
    }
    page.hex(digest.try_finalize().as_bytes().get(..2).unwrap_or(b""));
    Ok(())
}

// The lines at this size, except for their objects.
fn expand(alloc: Global, row: &str, size: u32) -> Result<String, AllocError> {
    let mut page = Page::new(alloc);
    for piece in row.split('[') {
        let rest = match piece.split_once(']') {
            Some((part, rest)) => {
                repeat(alloc, part, size, &mut page)?;
                rest
            }
            None => piece,
        };
        put_numbered(alloc, rest, size, &mut page)?;
    }
    page.finish()
}

fn repeat(alloc: Global, part: &str, size: u32, page: &mut Page) -> Result<(), AllocError> {
    let (part, between) = match part.strip_suffix(',') {
        Some(part) => (part, ","),
        None => (part, ""),
    };
    if size == 0 && between == "," {
        page.text("-");
    }
    for number in 0..size {
        page.text(if number == 0 { "" } else { between });
        put_numbered(alloc, part, number, page)?;
    }
    Ok(())
}

fn put_numbered(alloc: Global, text: &str, number: u32, page: &mut Page) -> Result<(), AllocError> {
    let digits = format!(in alloc; "{number:04}")?;
    let next = format!(in alloc; "{:04}", number.saturating_add(1))?;
    let mut spelt = Page::new(alloc);
    spelt.hex(digits.as_bytes());
    let text = replace(alloc, text, '#', digits.as_str())?;
    let text = replace(alloc, text.as_str(), '~', spelt.as_str())?;
    page.text(replace(alloc, text.as_str(), '^', next.as_str())?.as_str());
    Ok(())
}

// The text with another in the place of each mark.
fn replace(alloc: Global, text: &str, mark: char, other: &str) -> Result<String, AllocError> {
    let mut page = Page::new(alloc);
    for (place, piece) in text.split(mark).enumerate() {
        page.text(if place == 0 { "" } else { other });
        page.text(piece);
    }
    page.finish()
}

fn make_objects(alloc: Global, text: &str) -> Result<String, AllocError> {
    let mut page = Page::new(alloc);
    for piece in text.split('(') {
        let rest = match piece.split_once(')') {
            Some((object, rest)) => {
                if put_object(alloc, object, &mut page).is_none() {
                    page.text("no object");
                }
                rest
            }
            None => piece,
        };
        page.text(rest);
    }
    page.finish()
}

// `None` if this is no object, or if no memory is left.
fn put_object(alloc: Global, text: &str, page: &mut Page) -> Option<()> {
    let (word, digits) = text.split_once(' ')?;
    let kind = Kind::from_bytes(word.strip_prefix('=').unwrap_or(word).as_bytes()).ok()?;
    let content = read_digits(alloc, digits)?;
    if word.starts_with('=') {
        page.hex(loose_header(kind, content.len() as u64).as_slice());
        page.hex(&content);
    } else {
        page.put(compute_hash(gix_hash::Kind::Sha1, kind, &content));
    }
    Some(())
}
