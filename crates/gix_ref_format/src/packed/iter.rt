//! `Iter`: the records of `packed-refs` line by line, each with its peeled id, and an error for a bad line.

ghost use Rattle.std.specs.Prelude.{◌≡◌, ◌≢◌, ◌∷◌, [], false, Some, None, Err, MatchResult, option_map};
ghost use Rattle.std.specs.Iterator.{YieldsFirstBy, item_count};
ghost use Rattle.gix_hash.specs.Id.{id_of};
ghost use Rattle.gix_ref_format.specs.Lines.{lines};
ghost use Rattle.gix_ref_format.specs.Packed.{items, item_view, Bad, next_number, packed_items, peel_line, HasPeel, IsHeaderFault};
ghost use Rattle.gix_ref_format.specs.PackedIter.{items_left};

use crate::lines::{split_line, strip_last};
use crate::packed::decode::{peel_in_line, record_in_line};
use crate::packed::{Header, Reference};
use bstr::BStr;
use gix_hash::{Kind, ObjectId};
use thiserror::Error;

/// Why a line of `packed-refs` isn't read.
#[derive(Debug, Clone, Copy, PartialEq, Eq, Error)]
pub enum Error<'a> {
    /// The first line begins with `#` and is no header.
    #[error("the header of the packed references can't be read")]
    Header {
        /// The line, its line feed included.
        invalid_first_line: BStr<'a>,
    },
    /// A line is neither a record nor the peeled id of the one before it, or no line feed ends it.
    #[error("line {line_number} of the packed references can't be read")]
    Reference {
        /// The line, its line feed included.
        invalid_line: BStr<'a>,
        /// Its number, from 1 on.
        line_number: u64,
    },
}

/// The records of `packed-refs` in their order, read one by one from its bytes, and an error for
/// each bad line, after which it goes on. It takes no memory.
#[derive(Debug, Clone, Copy)]
pub struct Iter<'a> {
    rest: &'a [u8],
    line_number: u64,
    kind: Kind,
}

impl<'a> Iter<'a> {
    /// The records of these bytes, whose ids are of this kind; `Header` if the first line begins
    /// with `#` and is no header.
    pub fn new(packed: &'a [u8], kind: Kind) -> Result<Iter<'a>, Error<'a>>
        ensures { MatchResult result (λ it. packed_items kind packed.now ≡ Some (items_left it))
            (λ error. (packed_items kind packed.now ≡ None) × IsHeaderFault packed.now error) }
    {
        if !packed.starts_with(b"#") {
            return Ok(Iter::at(packed, 1, kind));
        }
        let (line, rest) = split_line(packed);
        match Header::from_line(line) {
            Some(_) => Ok(Iter::at(rest, 2, kind)),
            None => Err(Error::Header {
                invalid_first_line: BStr::new(line),
            }),
        }
    }

    // The records from a line on.
    fn at(rest: &'a [u8], line_number: u64, kind: Kind) -> Iter<'a>
        ensures { items_left result ≡ items kind line_number false (lines rest.now) }
    {
        Iter {
            rest,
            line_number,
            kind,
        }
    }

    // What follows the line that comes next, given the rest of the bytes.
    fn behind(&self, rest: &'a [u8]) -> Iter<'a>
        ensures left { items_left result
            ≡ items self.now.kind (next_number self.now.line_number) false (lines rest.now) }
        ensures kind { result.kind ≡ self.now.kind }
        ensures number { result.line_number ≡ next_number self.now.line_number }
        ensures rest { result.rest.now ≡ rest.now }
    {
        Iter {
            rest,
            line_number: self.line_number.saturating_add(1),
            kind: self.kind,
        }
    }
}

impl<'a> Iterator for Iter<'a> {
    type Item = Result<Reference<'a>, Error<'a>>;

    ghost next_gives = { YieldsFirstBy item_view items_left };

    ghost remaining = { item_count items_left };

    fn next(&mut self) -> Option<Result<Reference<'a>, Error<'a>>> {
        if self.rest.is_empty() {
            return None;
        }
        let (item, after) = first_item(*self);
        *self = after;
        Some(item)
    }
}

// The first item, and what follows it.
fn first_item<'a>(before: Iter<'a>) -> (Result<Reference<'a>, Error<'a>>, Iter<'a>)
    requires { before.rest.now ≢ [] }
    ensures { items_left before.entry ≡ item_view result.0 ∷ items_left result.1 }
{
    let (line, rest) = split_line(before.rest);
    let after = before.behind(rest);
    let Some((name, target)) = record_in_line(line, before.kind) else {
        return (Err(bad_line(line, before.line_number)), after);
    };
    let (object, after) = next_peeled_id(after);
    let record = Reference {
        name,
        target,
        object,
    };
    (Ok(record), after)
}

// The error of a bad line.
fn bad_line<'a>(line: &'a [u8], line_number: u64) -> Error<'a>
    ensures { item_view (Err result) ≡ Bad line_number line.now }
{
    Error::Reference {
        invalid_line: BStr::new(line),
        line_number,
    }
}

// The peeled id in the line that comes next, if it has one, and what follows it.
fn next_peeled_id<'a>(before: Iter<'a>) -> (Option<ObjectId>, Iter<'a>)
    ensures { HasPeel before.entry.kind before.entry.line_number (lines before.entry.rest.now)
        (option_map id_of result.0) (items_left result.1) }
{
    if before.rest.is_empty() {
        return (None, before);
    }
    let (line, rest) = split_line(before.rest);
    match peel_in_line(line, before.kind) {
        Some(id) => (Some(id), before.behind(rest)),
        None => (None, before),
    }
}
