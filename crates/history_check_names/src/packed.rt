//! Reads the text of `packed-refs` line by line: its header, and records that are of names and in order.

ghost use Rattle.std.specs.Prelude.{◌≡◌, ◌++◌, ◌∷◌, [], ◌&&◌, ◌||◌, not, map, Some, IsTrue, MatchOption, MatchResult, bytes_eq, is_some, if◌then◌else◌, IsFalse};
ghost use Rattle.std.specs.List.{list_any};
ghost use Rattle.std.specs.Ordering.{is_lt};
ghost use Rattle.gix_ref_format.specs.Lines.{lines};
ghost use Rattle.gix_ref_format.specs.Packed.{header_line, is_headed, record_of};
ghost use Rattle.history_model.specs.Bytes.{by_bytes, has_byte};
ghost use Rattle.history_model.specs.Forms as forms;
ghost use Rattle.history_model.specs.PackedNames.{first_header, says_sorted};
ghost use Rattle.history_check_names.specs.Packed.{is_ascending, record_names};
ghost use Rattle.history_check_names.specs.PackedRead.{AreLinesOf, IsPackedFault, IsReadOf, names_in};

use gix_hash::Kind;
use gix_object_lines::cut::split_once;
use gix_ref_format::packed::{Header, Iter, Reference};
use history_texts::{OpenError, is_name};
use std::alloc::Global;
use std::collections::BTreeSet;

/// The records of `packed-refs`, in order, and their names.
#[derive(Drop)]
pub(crate) struct Packed<'a> {
    pub(crate) records: Vec<Reference<'a>>,
    pub(crate) names: BTreeSet<&'a [u8]>,
}

impl<'a> Packed<'a> {
    /// Returns the records of a text, read line by line: each is a record of a name, with or
    /// without a peeled id, no name occurs twice, they ascend if the header says so, and no line
    /// has a carriage return. Otherwise returns `BadPacked` with the first line that may not come
    /// after those before it.
    pub(crate) fn read(alloc: Global, kind: Kind, text: &'a [u8]) -> Result<Packed<'a>, OpenError>
        ensures { MatchResult result (IsReadOf kind text.now) (IsPackedFault kind text.now) }
    {
        match split_once(text, b'\r') {
            None => Packed::read_plain(alloc, kind, text),
            Some((front, _)) => {
                let (whole, count) = whole_lines(front);
                Packed::read_plain(alloc, kind, whole)?;
                Err(OpenError::BadPacked(count + 1))
            }
        }
    }

    // Returns the records of a text without a carriage return.
    fn read_plain(alloc: Global, kind: Kind, text: &'a [u8]) -> Result<Packed<'a>, OpenError>
        requires { IsFalse (has_byte 13 text.now) }
        ensures { MatchResult result (IsReadOf kind text.now) (IsPackedFault kind text.now) }
    {
        let Ok(mut left) = Iter::new(text, kind) else {
            return Err(OpenError::BadPacked(1));
        };
        let sorted = says_sorted(text);
        let mut number = first_number(text);
        let mut records = Vec::new(alloc);
        let mut names = BTreeSet::new(alloc);
        while let Some(item) = left.next() {
            let record = match item {
                Ok(record) => record,
                Err(_) => return Err(OpenError::BadPacked(number)),
            };
            if !may_follow(&records, sorted, &record) {
                return Err(OpenError::BadPacked(number));
            }
            if !names.insert(record.name.to_path())? {
                return Err(OpenError::BadPacked(number));
            }
            records.push(record)?;
            number += lines_of(&record);
        }
        Ok(Packed { records, names })
    }

    /// Returns whether there is a record of this name.
    pub(crate) fn has(&self, name: &[u8]) -> bool
        ensures { result ≡ list_any (bytes_eq name.now) (names_in self.now.names.keys) }
    {
        self.names.contains(name)
    }
}

/// Returns the lines that end in a text, and how many they are.
pub(crate) fn whole_lines(text: &[u8]) -> (&[u8], usize)
    ensures { AreLinesOf text.now result.0.now result.1 }
{
    let mut rest = text;
    let mut count = 0;
    'lines: while let Some((_, behind)) = split_once(rest, b'\n') {
        rest = behind;
        count += 1;
    }
    (&text[..text.len() - rest.len()], count)
}

// Returns whether the header says that the records ascend.
fn says_sorted(text: &[u8]) -> bool
    ensures { result ≡ says_sorted text.now }
{
    match Header::from_line(first_line(text)) {
        Some(header) => header.sorted,
        None => false,
    }
}

// Returns the first line, with its line feed if it has one.
fn first_line(text: &[u8]) -> &[u8]
    ensures { first_header (lines text.now) ≡ header_line result.now }
{
    match split_once(text, b'\n') {
        Some((line, _)) => &text[..line.len() + 1],
        None => text,
    }
}

// Returns the number of the first line that isn't the header.
fn first_number(text: &[u8]) -> usize
    ensures { result ≡ (if is_headed text.now then 2 else 1) }
{
    if text.starts_with(b"#") { 2 } else { 1 }
}

// Returns whether the record is of a name, and that ascends if it has to, after records that do.
fn may_follow(records: &[Reference<'_>], sorted: bool, next: &Reference<'_>) -> bool
    ensures { IsTrue (not sorted || is_ascending (record_names (map record_of records.now)))
        → result ≡ (forms.is_name (record_of next.now).name
        && (not sorted || is_ascending
        (record_names (map record_of records.now ++ record_of next.now ∷ [])))) }
{
    let name = next.name.to_path();
    if !is_name(name) {
        return false;
    }
    if !sorted {
        return true;
    }
    match records.last() {
        Some(last) => comes_before(last.name.to_path(), name),
        None => true,
    }
}

// Returns whether the one comes before the other, by their bytes.
fn comes_before(one: &[u8], other: &[u8]) -> bool
    ensures { result ≡ is_lt (by_bytes one.now other.now) }
{
    one.cmp(other).is_lt()
}

// Returns how many lines a record has: its own, and that of its peeled id.
fn lines_of(entry: &Reference<'_>) -> usize
    ensures { result ≡ (if is_some (record_of entry.now).peeled then 2 else 1) }
{
    if entry.object.is_some() { 2 } else { 1 }
}
