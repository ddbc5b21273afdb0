//! One trailer: a token and a value in one line, as `Signed-off-by: A U Thor <author@example.com>`.

ghost use Rattle.std.specs.Prelude.{◌≡◌, MatchOption};
ghost use Rattle.std.specs.Option.{option_map};
ghost use Rattle.bstr.specs.BStr.{bstr_bytes};
ghost use Rattle.gix_object_message.specs.Attribution as spec;
ghost use Rattle.gix_object_message.specs.Trailer.{Trailer, SpellsTrailer, trailer_of, token_len, is_token_byte};
ghost use Rattle.gix_object_message.specs.Views.{trailer_text};

use crate::white::trim;
use bstr::BStr;

/// A trailer, as its line has it.
#[derive(Debug, Clone, Copy, PartialEq, Eq)]
pub struct TrailerRef<'a> {
    /// The text before the colon: ASCII letters, digits and `-`.
    pub token: BStr<'a>,
    /// The text after the colon and a space, without white space at its ends.
    pub value: BStr<'a>,
}

impl TrailerRef<'_> {
    /// Returns whether the token is `Signed-off-by`, letter case aside.
    pub fn is_signed_off_by(self) -> bool
        ensures { result ≡ spec.is_signed_off_by (bstr_bytes self.entry.token) }
    {
        self.has_token(b"Signed-off-by")
    }

    /// Returns whether the token is `Co-authored-by`, letter case aside.
    pub fn is_co_authored_by(self) -> bool
        ensures { result ≡ spec.is_co_authored_by (bstr_bytes self.entry.token) }
    {
        self.has_token(b"Co-authored-by")
    }

    /// Returns whether the token is `Assisted-by`, letter case aside.
    pub fn is_assisted_by(self) -> bool
        ensures { result ≡ spec.is_assisted_by (bstr_bytes self.entry.token) }
    {
        self.has_token(b"Assisted-by")
    }

    /// Returns whether the token is `Acked-by`, letter case aside.
    pub fn is_acked_by(self) -> bool
        ensures { result ≡ spec.is_acked_by (bstr_bytes self.entry.token) }
    {
        self.has_token(b"Acked-by")
    }

    /// Returns whether the token is `Reviewed-by`, letter case aside.
    pub fn is_reviewed_by(self) -> bool
        ensures { result ≡ spec.is_reviewed_by (bstr_bytes self.entry.token) }
    {
        self.has_token(b"Reviewed-by")
    }

    /// Returns whether the token is `Tested-by`, letter case aside.
    pub fn is_tested_by(self) -> bool
        ensures { result ≡ spec.is_tested_by (bstr_bytes self.entry.token) }
    {
        self.has_token(b"Tested-by")
    }

    /// Returns whether the trailer names an author: one who signed off or a co-author.
    pub(crate) fn is_author(self) -> bool
        ensures { result ≡ spec.is_author (bstr_bytes self.entry.token) }
    {
        self.is_signed_off_by() || self.is_co_authored_by()
    }

    /// Returns whether the token is any of the six words, letter case aside.
    pub fn is_attribution(self) -> bool
        ensures { result ≡ spec.is_attribution (bstr_bytes self.entry.token) }
    {
        self.is_author()
            || self.is_assisted_by()
            || self.is_acked_by()
            || self.is_reviewed_by()
            || self.is_tested_by()
    }

    fn has_token(self, word: &[u8]) -> bool
        ensures { result ≡ spec.is_token word.now (bstr_bytes self.entry.token) }
    {
        self.token.as_bytes().eq_ignore_ascii_case(word)
    }
}

/// The trailer that a line holds; `None` if it holds none.
pub(crate) fn read_trailer(line: &[u8]) -> Option<TrailerRef<'_>>
    ensures value { option_map trailer_text result ≡ trailer_of line.now }
    ensures spells { MatchOption result ((trailer : Trailer) → ¬ SpellsTrailer line.now trailer)
        (λ trailer. SpellsTrailer line.now (trailer_text trailer)) }
{
    let (token, behind) = line.split_at_checked(token_len(line))?;
    if token.is_empty() {
        return None;
    }
    let value = behind.strip_prefix(b": ")?;
    Some(TrailerRef {
        token: BStr::new(token),
        value: BStr::new(trim(value)),
    })
}

// How many bytes of a token begin the line.
fn token_len(line: &[u8]) -> usize
    ensures { result ≡ token_len line.now }
{
    line.iter().take_while(|byte| is_token_byte(**byte)).count()
}

fn is_token_byte(byte: u8) -> bool
    ensures { result ≡ is_token_byte byte }
{
    byte.is_ascii_alphanumeric() || byte == b'-'
}
