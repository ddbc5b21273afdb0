//! Opening `packed-refs` as a `Buffer`: records gathered, sorted, and compared in order and text with the file.

ghost use Rattle.std.specs.Prelude.{◌≡◌, Some, IfOk, IsErrOf, IsTrue, MatchResult, map, option_map};
ghost use Rattle.gix_ref_file.specs.Tree.{node_at, bytes_of};
ghost use Rattle.gix_ref_format.specs.Packed.{Good, item_view, packed_records, all_good, record_of};
ghost use Rattle.gix_ref_format.specs.PackedBuffer.{entry_record, entry_records, IsInOrder, Holds, Keeps, KeepsFile, OpenFault, FileFault, GatherFault, ItemFault};
ghost use Rattle.gix_ref_format.specs.PackedIter.{items_left};
ghost use Rattle.gix_ref_format.specs.PackedKept.{kept, text_of};
ghost use Rattle.gix_ref_format.specs.PackedText.{IsWritten, ascends, is_before};
ghost use Rattle.gix_ref_format.specs.declared.packed.buffer.Error.TheVariants.{Io};

use crate::packed::buffer::{Buffer, Entry, Error, name_of};
use crate::packed::iter::{self, Iter};
use crate::packed::{Reference, packed_text};
use gix_hash::Kind;
use gix_ref_file::Files;
use std::alloc::{AllocError, Global};
use std::cmp::Ordering;

impl Buffer {
    /// The buffer of these bytes, which are taken over, with ids of this kind. It reads each line
    /// once, and compares the bytes with the text of the records. Returns `Iter` with the number of
    /// the first bad line, and `HeaderParsing` if the first line begins with `#` and is no header;
    /// and `Memory` if no memory is left.
    pub fn from_bytes(alloc: Global, bytes: Vec<u8>, kind: Kind) -> Result<Buffer, Error>
        ensures kept { MatchResult result (λ buffer. Keeps kind bytes.items (kept buffer))
            (OpenFault kind bytes.items) }
        ensures bytes { IfOk result (λ buffer. buffer.bytes ≡ bytes) }
    {
        let entries = sorted_entries(collect(alloc, &bytes, kind)?)?;
        let is_written = are_written(alloc, &entries, &bytes)?;
        Ok(Buffer {
            bytes,
            entries,
            is_written,
        })
    }

    /// The buffer of the file at this path, with ids of this kind; `None` if there is no file.
    /// Returns `Io` if the file couldn't be read; the other errors are those of `from_bytes`.
    pub fn open<F: Files>(
        alloc: Global,
        files: &F,
        path: &[u8],
        kind: Kind,
    ) -> Result<Option<Buffer>, Error>
        ensures kept { F.is_honest files.now → MatchResult result
            (λ found. KeepsFile kind (bytes_of (node_at (F.history files.now).tree path.now))
            (option_map kept found))
            (FileFault kind (bytes_of (node_at (F.history files.now).tree path.now))) }
        ensures bytes { F.is_honest files.now → IfOk result
            (λ found. option_map text_of found
            ≡ bytes_of (node_at (F.history files.now).tree path.now)) }
        ensures failed { IsErrOf result Io → F.reading_may_fail }
    {
        Buffer::open_again(alloc, files, path, kind, None)
    }
}

// All records, in the order of the file.
fn collect(alloc: Global, bytes: &[u8], kind: Kind) -> Result<Vec<Entry>, Error>
    ensures { MatchResult result
        (λ entries. packed_records kind bytes.now ≡ Some (entry_records entries.items))
        (OpenFault kind bytes.now) }
{
    match Iter::new(bytes, kind) {
        Ok(records) => gather(alloc, records),
        Err(_) => Err(Error::HeaderParsing),
    }
}

// The records that are left, in their order.
fn gather(alloc: Global, records: Iter<'_>) -> Result<Vec<Entry>, Error>
    ensures { MatchResult result
        (λ entries. all_good (items_left records.entry) ≡ Some (entry_records entries.items))
        (GatherFault (items_left records.entry)) }
{
    let mut left = records;
    let mut entries = Vec::new(alloc);
    while let Some(item) = left.next() {
        entries.push(owned_record(alloc, item)?)?;
    }
    Ok(entries)
}

// The record of an item, with a name of its own.
fn owned_record(alloc: Global, item: Result<Reference<'_>, iter::Error<'_>>) -> Result<Entry, Error>
    ensures { MatchResult result (λ entry. item_view item.entry ≡ Good (entry_record entry))
        (ItemFault (item_view item.entry)) }
{
    match item {
        Ok(record) => Ok(Entry {
            name: record.name.to_owned(alloc)?,
            target: record.target,
            object: record.object,
        }),
        Err(iter::Error::Reference { line_number, .. }) => Err(Error::Iter { line_number }),
        Err(iter::Error::Header { .. }) => Err(Error::Iter { line_number: 1 }),
    }
}

// The entries in the order of their names; those of one name stay in theirs.
fn sorted_entries(mut entries: Vec<Entry>) -> Result<Vec<Entry>, AllocError>
    ensures order { IfOk result (λ found. IsInOrder found.items) }
    ensures holds { IfOk result
        (λ found. Holds (entry_records entries.items) (entry_records found.items)) }
{
    entries.sort_by(|one, other| name_of(one).cmp(name_of(other)))?;
    Ok(entries)
}

// Returns whether the bytes are what is written of these entries.
fn are_written(alloc: Global, entries: &[Entry], bytes: &[u8]) -> Result<bool, AllocError>
    ensures { IfOk result
        (λ are. IsTrue are → IsWritten (entry_records entries.now) bytes.now) }
{
    if !ascend(entries) {
        return Ok(false);
    }
    let records = records_of(alloc, entries)?;
    let text = packed_text(alloc, &records)?;
    Ok(text.as_slice() == bytes)
}

// Returns whether each name comes before the next.
fn ascend(entries: &[Entry]) -> bool
    ensures { result ≡ ascends (entry_records entries.now) }
{
    let mut rest = entries;
    'entries: while let Some((first, others)) = rest.split_first() {
        if !comes_before(first, others) {
            return false;
        }
        rest = others;
    }
    true
}

// Returns whether the name comes before that of the first of the others.
fn comes_before(entry: &Entry, others: &[Entry]) -> bool
    ensures { result ≡ is_before entry.now.name (entry_records others.now) }
{
    match others.first() {
        Some(next) => name_of(entry).cmp(name_of(next)) == Ordering::Less,
        None => true,
    }
}

// The records of the entries.
fn records_of<'a>(alloc: Global, entries: &'a [Entry]) -> Result<Vec<Reference<'a>>, AllocError>
    ensures { IfOk result (λ records. map record_of records.items ≡ entry_records entries.now) }
{
    let mut records = Vec::new(alloc);
    for entry in entries {
        records.push(entry.as_reference())?;
    }
    Ok(records)
}
