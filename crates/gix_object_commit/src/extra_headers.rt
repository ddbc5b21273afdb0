//! A commit's further headers by name.

ghost use Rattle.std.specs.Prelude.{◌≡◌, ◌<◌, ◌+◌, ◌^◌, map, position, codes, IfSome};
ghost use Rattle.std.specs.Iterator.{YieldsFirstBy, item_count};
ghost use Rattle.std.specs.List.{slice_get};
ghost use Rattle.std.specs.Option.{option_map};
ghost use Rattle.bstr.specs.BStr.{bstr_bytes};
ghost use Rattle.gix_object_commit.specs.Headers.{is_named as is_field_named, first_value, values_named};
ghost use Rattle.gix_object_commit.specs.HeaderViews.{own_header, fields_in, headers_of, values_left, merge_tags_left};
ghost use Rattle.gix_object_commit.specs.LineViews.{field_of};

use crate::header::{ExtraHeader, HeaderRef};
use bstr::BStr;

/// The further headers of a commit, in order. In a `CommitRef` each value is as in the commit, with
/// a space after each of its line feeds, and `HeaderRef::unfolded` returns it without; in a
/// `Commit` it is without them.
#[derive(Debug, Clone, Copy, PartialEq, Eq)]
pub struct ExtraHeaders<'h, 'a> {
    headers: Headers<'h, 'a>,
}

// As a `CommitRef` or a `Commit` has them.
#[derive(Debug, Clone, Copy, PartialEq, Eq)]
enum Headers<'h, 'a> {
    Lent(&'h [HeaderRef<'a>]),
    Own(&'a [ExtraHeader]),
}

impl<'h, 'a> Headers<'h, 'a> {
    // The name and the value at this place. An owned value has no spaces after its line feeds.
    fn get(self, place: usize) -> Option<HeaderRef<'a>>
        ensures given { option_map field_of result ≡ slice_get (fields_in self.entry) place }
        ensures in_range { IfSome result (λ _. place + 1 < 2 ^ 64) }
    {
        match self {
            Headers::Lent(headers) => headers.get(place).copied(),
            Headers::Own(headers) => headers.get(place).map(lend),
        }
    }
}

fn lend(header: &ExtraHeader) -> HeaderRef<'_>
    ensures { field_of result ≡ own_header header.now }
{
    HeaderRef {
        name: header.name.as_bstr(),
        value: header.value.as_bstr(),
    }
}

impl<'h, 'a> ExtraHeaders<'h, 'a> {
    /// These headers of a `CommitRef`.
    pub fn new(headers: &'h [HeaderRef<'a>]) -> ExtraHeaders<'h, 'a>
        ensures { headers_of result ≡ map field_of headers.now }
    {
        ExtraHeaders {
            headers: Headers::Lent(headers),
        }
    }

    /// These headers of a `Commit`.
    pub fn from_owned(headers: &'a [ExtraHeader]) -> ExtraHeaders<'h, 'a>
        ensures { headers_of result ≡ map own_header headers.now }
    {
        ExtraHeaders {
            headers: Headers::Own(headers),
        }
    }

    /// The value of the first header of this name.
    pub fn find(&self, name: &[u8]) -> Option<BStr<'a>>
        ensures { option_map bstr_bytes result ≡ first_value name.now (headers_of self.now) }
    {
        let mut values = self.find_all(name);
        values.next()
    }

    /// The place of the first header of this name, counted from 0.
    pub fn find_pos(&self, name: &[u8]) -> Option<usize>
        ensures { result ≡ position (is_field_named name.now) (headers_of self.now) }
    {
        let mut place = 0;
        while let Some(header) = self.headers.get(place) {
            if is_named(header, name) {
                return Some(place);
            }
            place += 1;
        }
        None
    }

    /// The values of all headers of this name, in order.
    pub fn find_all<'n>(&self, name: &'n [u8]) -> FindAll<'h, 'a, 'n>
        ensures { values_left result ≡ values_named name.now (headers_of self.now) }
    {
        FindAll {
            headers: self.headers,
            place: 0,
            name,
        }
    }

    /// The tags that were merged, in order: the values of the headers of the name `mergetag`.
    pub fn mergetags(&self) -> MergeTags<'h, 'a>
        ensures { merge_tags_left result ≡ values_named (codes "mergetag") (headers_of self.now) }
    {
        MergeTags {
            values: self.find_all(b"mergetag"),
        }
    }

    /// The signature over the commit with SHA-1 ids: the value of the first header of the name
    /// `gpgsig`.
    pub fn pgp_signature(&self) -> Option<BStr<'a>>
        ensures { option_map bstr_bytes result
            ≡ first_value (codes "gpgsig") (headers_of self.now) }
    {
        self.find(b"gpgsig")
    }
}

/// The values of all headers of a name, in order.
#[derive(Debug, Clone, Copy)]
pub struct FindAll<'h, 'a, 'n> {
    headers: Headers<'h, 'a>,
    place: usize,
    name: &'n [u8],
}

impl<'h, 'a, 'n> Iterator for FindAll<'h, 'a, 'n> {
    type Item = BStr<'a>;

    ghost next_gives = { YieldsFirstBy bstr_bytes values_left };

    ghost remaining = { item_count values_left };

    fn next(&mut self) -> Option<BStr<'a>> {
        while let Some(header) = self.headers.get(self.place) {
            self.place += 1;
            if is_named(header, self.name) {
                return Some(header.value);
            }
        }
        None
    }
}

/// The tags that a commit merged, in order.
#[derive(Debug, Clone, Copy)]
pub struct MergeTags<'h, 'a> {
    values: FindAll<'h, 'a, 'static>,
}

impl<'h, 'a> Iterator for MergeTags<'h, 'a> {
    type Item = BStr<'a>;

    ghost next_gives = { YieldsFirstBy bstr_bytes merge_tags_left };

    ghost remaining = { item_count merge_tags_left };

    fn next(&mut self) -> Option<BStr<'a>> {
        self.values.next()
    }
}

/// Returns whether the header has this name.
pub fn is_named(header: HeaderRef<'_>, name: &[u8]) -> bool
    ensures { result ≡ is_field_named name.now (field_of header.entry) }
{
    header.name.as_bytes() == name
}
