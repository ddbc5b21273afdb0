//! `Run`: neighbouring records of a file with the bytes of their lines, split at a name; the length of lines.

ghost use Rattle.std.specs.Prelude.{◌≡◌, ◌≤◌, IsTrue, length, take, drop};
ghost use Rattle.gix_hash.specs.Id.{id_of};
ghost use Rattle.gix_hash.specs.Spelling.{hex_text};
ghost use Rattle.gix_ref_format.specs.PackedBuffer.{entry_record, entry_records};
ghost use Rattle.gix_ref_format.specs.PackedText.{IsAfter, IsAround, NoneBelow, ascends, is_first_named};
ghost use Rattle.gix_ref_format.specs.Written.{record_text, records_text};

use crate::packed::buffer::{Buffer, Entry, name_of};
use crate::packed::write::HEADER;
use gix_hash::ObjectId;
use std::cmp::Ordering;

// Entries whose names ascend, each once, and the text that is written of them.
#[derive(Clone, Copy)]
pub(crate) struct Run<'a> {
    pub(crate) entries: &'a [Entry],
    pub(crate) text: &'a [u8],
    ghost ascend: { IsTrue (ascends (entry_records entries.now)) },
    ghost lines: { text.now ≡ records_text (entry_records entries.now) },
}

impl Buffer {
    // All entries.
    pub(crate) fn run(&self) -> Run<'_>
        requires { IsTrue self.now.is_written }
        ensures { result.entries.now ≡ self.now.entries.items }
    {
        Run {
            entries: self.entries.as_slice(),
            text: &self.bytes[HEADER.len()..],
        }
    }
}

impl<'a> Run<'a> {
    // Those before the name, and those after it.
    pub(crate) fn around(self, name: &[u8]) -> (Run<'a>, Run<'a>)
        ensures { IsAround name.now (entry_records self.entry.entries.now)
            (entry_records result.0.entries.now) (entry_records result.1.entries.now) }
    {
        let below = |entry: &Entry| name_of(entry).cmp(name) == Ordering::Less;
        let count = self.entries.partition_point(below);
        let (front, rest) = self.split_at(count);
        (front, rest.after(name))
    }

    // All but the one of the name, if that is first.
    fn after(self, name: &[u8]) -> Run<'a>
        requires { NoneBelow name.now (entry_records self.entries.now) }
        ensures { IsAfter name.now (entry_records self.entry.entries.now) (entry_records result.entries.now) }
    {
        if !is_first(self.entries, name) {
            return self;
        }
        let (_, rest) = self.split_at(1);
        rest
    }

    // The first of them, and the others.
    fn split_at(self, count: usize) -> (Run<'a>, Run<'a>)
        requires { count ≤ length self.entries.now }
        ensures front { result.0.entries.now ≡ take count self.entry.entries.now }
        ensures back { result.1.entries.now ≡ drop count self.entry.entries.now }
    {
        let _bound = self.text.len();
        let (first, last) = self.entries.split_at(count);
        let (front, back) = self.text.split_at(text_length(first));
        let front = Run {
            entries: first,
            text: front,
        };
        let back = Run {
            entries: last,
            text: back,
        };
        (front, back)
    }
}

// Returns whether the first entry has this name.
fn is_first(entries: &[Entry], name: &[u8]) -> bool
    ensures { result ≡ is_first_named name.now entries.now }
{
    match entries.first() {
        Some(entry) => name_of(entry) == name,
        None => false,
    }
}

// How many bytes are written of these entries.
fn text_length(entries: &[Entry]) -> usize
    requires { length (records_text (entry_records entries.now)) ≤ 18446744073709551615 }
    ensures { result ≡ length (records_text (entry_records entries.now)) }
{
    let mut count = 0;
    for entry in entries {
        count += record_length(entry);
    }
    count
}

fn record_length(entry: &Entry) -> usize
    ensures { result ≡ length (record_text (entry_record entry.now)) }
{
    let line = digit_count(&entry.target) + name_of(entry).len() + 2;
    match &entry.object {
        Some(id) => line + digit_count(id) + 2,
        None => line,
    }
}

fn digit_count(id: &ObjectId) -> usize
    ensures count { result ≡ length (hex_text (id_of id.now).digits) }
    ensures most { result ≤ 64 }
{
    let _bytes = id.as_slice();
    id.kind().len_in_hex()
}
