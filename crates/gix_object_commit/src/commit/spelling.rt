//! Which parts of a commit have a written form.

ghost use Rattle.std.specs.Prelude.{◌≡◌, Option, List, ℕ, map};
ghost use Rattle.std.specs.Option.{option_map};
ghost use Rattle.bstr.specs.BStr.{bstr_bytes};
ghost use Rattle.gix_object_lines.specs.Person.{person_of};
ghost use Rattle.gix_object_commit.specs.Commit.{Field};
ghost use Rattle.gix_object_commit.specs.OwnedText.{is_whole_offset as is_spellable_offset, is_own_person as is_spellable_own_person};
ghost use Rattle.gix_object_commit.specs.LineViews.{field_of};
ghost use Rattle.gix_object_commit.specs.Writing.{unspellable_unless, holds as holds_byte, is_id_like as is_hex_id_like, is_plain as is_plain_text, is_person as is_spellable_person, is_folded as is_folded_text, is_word, is_field as is_spellable_field, is_encoding_first as is_named_first, encoding_cause as cause_of_encoding};

use crate::commit::HeaderRef;
use bstr::BStr;
use gix_object_lines::cut::{lacks, split_once, strip_prefix};
use gix_object_lines::encode::Error;
use gix_object_lines::hex_line::is_id;
use gix_object_lines::lines::{Actor, ActorRef, tells_time};

/// No refusal if the part is fine.
pub(crate) fn unless(fine: bool) -> Option<Error>
    ensures { result ≡ unspellable_unless fine }
{
    if fine { None } else { Some(Error::Unspellable) }
}

/// Returns whether it is the digits of an id that has as many as the tree's.
pub(crate) fn is_id_like(tree: &[u8], digits: &[u8]) -> bool
    ensures { result ≡ is_hex_id_like tree.now digits.now }
{
    digits.len() == tree.len() && is_id(digits)
}

/// Returns whether an actor's name and email hold no `<`, `>` or line feed, and its text of a time
/// is one.
pub(crate) fn is_person(actor: &ActorRef<'_>) -> bool
    ensures { result ≡ is_spellable_person (person_of actor.now) }
{
    is_plain(actor.name.as_bytes())
        && is_plain(actor.email.as_bytes())
        && tells_time(actor.time.as_bytes())
}

fn is_plain(part: &[u8]) -> bool
    ensures { result ≡ is_plain_text part.now }
{
    !holds(part, b'<') && !holds(part, b'>') && !holds(part, b'\n')
}

fn holds(bytes: &[u8], byte: u8) -> bool
    ensures { result ≡ holds_byte byte bytes.now }
{
    !lacks(bytes, byte)
}

/// Returns whether an actor that is owned may be written: its name and email hold no `<`, `>` or
/// line feed, and its offset is whole minutes below 100 hours.
pub(crate) fn is_own_person(actor: &Actor) -> bool
    ensures { result ≡ is_spellable_own_person actor.now }
{
    is_plain(actor.name.as_bytes())
        && is_plain(actor.email.as_bytes())
        && is_whole_offset(actor.time.offset)
}

fn is_whole_offset(offset: i32) -> bool
    ensures { result ≡ is_spellable_offset offset }
{
    let amount = offset.unsigned_abs();
    amount % 60 == 0 && amount < 360_000
}

/// Returns whether a header's name is one word, and its value is folded as in a header.
pub(crate) fn is_field(header: &HeaderRef<'_>) -> bool
    ensures { result ≡ is_spellable_field (field_of header.now) }
{
    is_name(header.name.as_bytes()) && is_folded(header.value.as_bytes())
}

/// Returns whether a header may have this name: it is one word.
pub(crate) fn is_name(name: &[u8]) -> bool
    ensures { result ≡ is_word name.now }
{
    !name.is_empty() && !holds(name, b' ') && !holds(name, b'\n')
}

// Returns whether each line feed is followed by a space.
fn is_folded(text: &[u8]) -> bool
    ensures { result ≡ is_folded_text text.now }
{
    let mut rest = text;
    'lines: while let Some((_line, after)) = split_once(rest, b'\n') {
        match strip_prefix(after, b" ") {
            Some(further) => rest = further,
            None => return false,
        }
    }
    true
}

/// Why an encoding isn't written: it is empty or holds a line feed, or there is none and the first
/// header has its name.
pub(crate) fn encoding_cause(encoding: Option<BStr<'_>>, is_first_header: bool) -> Option<Error>
    ensures { (headers : List Field) → is_first_header ≡ is_named_first headers
        → result ≡ cause_of_encoding (option_map bstr_bytes encoding.entry) headers }
{
    let Some(name) = encoding else {
        return unless(!is_first_header);
    };
    if name.as_bytes().is_empty() {
        return Some(Error::EmptyValue);
    }
    if holds(name.as_bytes(), b'\n') {
        return Some(Error::NewlineInHeaderValue);
    }
    None
}

/// Returns whether the first header is named as the encoding's line is.
pub(crate) fn is_encoding_first(headers: &[HeaderRef<'_>]) -> bool
    ensures { result ≡ is_named_first (map field_of headers.now) }
{
    match headers.first() {
        Some(header) => header.name.as_bytes() == b"encoding".as_slice(),
        None => false,
    }
}
