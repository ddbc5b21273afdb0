//! Streams and files that are hashed.

use crate::hash::fields;
use case_words::{Page, text_of};
use gix_hash::io::{Error, Interrupt, Progress, bytes, bytes_of_file};
use gix_hash::{Kind, ObjectId};
use std::alloc::Global;

#[derive(Drop)]
struct Amount(usize);

impl Progress for Amount {
    fn inc_by(&mut self, step: usize) {
        self.0 = self.0.saturating_add(step);
    }
}

// Says yes at the poll of that number, the first being 1; at 0 never.
#[derive(Drop)]
struct YesAt {
    number: usize,
    asked: usize,
}

impl Interrupt for YesAt {
    fn asked(&mut self) -> bool {
        self.asked = self.asked.saturating_add(1);
        self.asked == self.number
    }
}

// The id, or why there is none, and how many bytes were reported.
fn show(answer: Result<ObjectId, Error>, told: usize, page: &mut Page) {
    match answer {
        Ok(id) => page.put(id),
        Err(Error::Interrupted) => page.put(Error::Interrupted),
        Err(Error::Io(_)) => page.text("failed"),
    }
    page.value(told);
}

// How the hashing of a stream's first bytes ends, and how many of its bytes are left if they were
// all there.
fn hashed(kind: Kind, stream: &[u8], count: u64, number: usize, page: &mut Page) {
    let mut progress = Amount(0);
    let mut interrupt = YesAt { number, asked: 0 };
    let mut reader = stream;
    let answer = bytes(&mut reader, count, kind, &mut progress, &mut interrupt);
    show(answer, progress.0, page);
    if stream.len() as u64 >= count {
        page.value(reader.len());
    }
}

/// The hashing of a kind of so many first bytes of a stream, and the number of the poll that
/// returns yes.
pub fn stream(fields: &[Vec<u8>], page: &mut Page) -> Option<()> {
    let [kind, count, number, stream] = fields else {
        return None;
    };
    let count = fields::number(count)? as u64;
    let number = fields::number(number)?;
    hashed(fields::kind(kind)?, stream, count, number, page);
    Some(())
}

/// The same, of a stream of so many zero bytes.
pub fn zeros(alloc: Global, fields: &[Vec<u8>], page: &mut Page) -> Option<()> {
    let [kind, count, number, length] = fields else {
        return None;
    };
    let kind = fields::kind(kind)?;
    let count = fields::number(count)? as u64;
    let number = fields::number(number)?;
    let length = fields::number(length)?;
    let zeros = vec![in alloc; 0u8; length].ok()?;
    hashed(kind, &zeros, count, number, page);
    Some(())
}

/// The hashing of a kind of so many first bytes of the file at a path.
pub fn file(rt: &HostRuntime, fields: &[Vec<u8>], page: &mut Page) -> Option<()> {
    let [kind, count, path] = fields else {
        return None;
    };
    let kind = fields::kind(kind)?;
    let count = fields::number(count)? as u64;
    let path = text_of(path)?;
    let mut progress = Amount(0);
    let mut interrupt = YesAt {
        number: 0,
        asked: 0,
    };
    let answer = bytes_of_file(rt, path, count, kind, &mut progress, &mut interrupt);
    show(answer, progress.0, page);
    Some(())
}
