//! Reading one line of `packed-refs`: the header's words, a record's id and name, or a peeled id.

ghost use Rattle.std.specs.Prelude.{◌≡◌, ◌∷◌, [], ◌+◌, take, drop, IsTrue, IsFalse, MatchOption};
ghost use Rattle.gix_object_lines.specs.Bytes.{is_among};
ghost use Rattle.gix_object_lines.specs.NameTest.{begins};
ghost use Rattle.std.specs.List.{slice_split};
ghost use Rattle.std.specs.Prelude.{◌==◌, option_map};
ghost use Rattle.gix_hash.specs.Id.{id_of};
ghost use Rattle.gix_ref_name.specs.Names.{name_of};
ghost use Rattle.gix_ref_format.specs.Packed.{header_of, header_line, header_by, peeled_by, without_peel, record_text, record_line, peel_text, peel_line};
ghost use Rattle.gix_ref_format.specs.Packed as spec;

use crate::ids::parse_hex;
use crate::lines::text_of_line;
use crate::packed::{Header, Peeled};
use gix_hash::{Kind, ObjectId};
use gix_ref_name::FullNameRef;

impl Header {
    /// The header that a first line is, its line feed included: `# pack-refs with:` and words, of
    /// which `peeled`, `fully-peeled` and `sorted` have a meaning. `None` if it is no header.
    pub fn from_line(line: &[u8]) -> Option<Header>
        ensures { result ≡ header_line line.now }
    {
        header_in(text_of_line(line)?)
    }
}

// The header in a line's text.
fn header_in(text: &[u8]) -> Option<Header>
    ensures { result ≡ header_of text.now }
{
    if !text.starts_with(b"# pack-refs with:") {
        return None;
    }
    let words = &text[17..];
    Some(Header {
        peeled: peeled_in(words),
        sorted: has_word(words, b"sorted"),
    })
}

fn peeled_in(words: &[u8]) -> Peeled
    ensures { result ≡ peeled_by (slice_split (λ byte. byte == 32) words.now) }
{
    if has_word(words, b"fully-peeled") {
        Peeled::Fully
    } else if has_word(words, b"peeled") {
        Peeled::Partial
    } else {
        Peeled::Unspecified
    }
}

// Returns whether the word is one of those between spaces.
fn has_word(words: &[u8], word: &[u8]) -> bool
    ensures { result ≡ is_among (slice_split (λ byte. byte == 32) words.now) word.now }
{
    words.split(|byte| *byte == b' ').any(|other| other == word)
}

/// The name and the id that a line holds, its line feed included; `None` if it is no record.
pub(crate) fn record_in_line(line: &[u8], kind: Kind) -> Option<(FullNameRef<'_>, ObjectId)>
    ensures { option_map (λ r. without_peel (name_of r.0) (id_of r.1)) result
        ≡ record_line kind line.now }
{
    record_in(text_of_line(line)?, kind)
}

fn record_in(text: &[u8], kind: Kind) -> Option<(FullNameRef<'_>, ObjectId)>
    ensures { option_map (λ r. without_peel (name_of r.0) (id_of r.1)) result
        ≡ record_text kind text.now }
{
    let (digits, name) = split_at_space(text, kind.len_in_hex())?;
    let id = parse_hex(kind, digits)?;
    match FullNameRef::new(name) {
        Ok(name) => Some((name, id)),
        Err(_) => None,
    }
}

// The first bytes, and what follows the space after them; `None` if no space is there.
fn split_at_space(text: &[u8], at: usize) -> Option<(&[u8], &[u8])>
    ensures { MatchOption result (IsFalse (begins (32 ∷ []) (drop at text.now)))
        (λ cut. IsTrue (begins (32 ∷ []) (drop at text.now)) × (cut.0.now ≡ take at text.now)
        × (cut.1.now ≡ drop (at + 1) text.now)) }
{
    let (front, rest) = text.split_at_checked(at)?;
    if rest.starts_with(b" ") {
        Some((front, &text[at + 1..]))
    } else {
        None
    }
}

/// The peeled id that a line holds, its line feed included; `None` if it holds none.
pub(crate) fn peel_in_line(line: &[u8], kind: Kind) -> Option<ObjectId>
    ensures { option_map id_of result ≡ peel_line kind line.now }
{
    peel_in(text_of_line(line)?, kind)
}

fn peel_in(text: &[u8], kind: Kind) -> Option<ObjectId>
    ensures { option_map id_of result ≡ peel_text kind text.now }
{
    if text.starts_with(b"^") {
        parse_hex(kind, &text[1..])
    } else {
        None
    }
}
