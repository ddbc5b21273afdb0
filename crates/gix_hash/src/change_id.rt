//! Change ids, which are spelled in reverse hexadecimal.

ghost use Rattle.std.specs.Prelude.{◌≡◌, ◌≢◌, ◌↔◌, ◌≤◌, ℕ, List, [], ◌∷◌, length, take, Some, IsTrue, MatchResult, OnOk, OnErr};
ghost use Rattle.std.specs.Io.KnownBytes.{Appends};
ghost use Rattle.std.proofs.Common.{refl};
ghost use Rattle.bstr.specs.BStr.{bstr_bytes};
ghost use Rattle.gix_hash.specs.Kind.{hex_len};
ghost use Rattle.gix_hash.specs.Id.{id_of, null_id, digits_of, bytes_from};
ghost use Rattle.gix_hash.specs.Hasher.{id_of_message, empty_blob_text, empty_tree_text};
ghost use Rattle.gix_hash.specs.Order.{id_eq, id_cmp};
ghost use Rattle.gix_hash.specs.OrderLaws.{eq_laws, equivalence, total, id_tied, order_laws, same_feed};
ghost use Rattle.gix_hash.specs.Spelling.{hex_text};
ghost use Rattle.gix_hash.specs.ReverseSpelling.{reverse_hex_text, reverse_digit_value, IsReverseHexOfId};
ghost use Rattle.gix_hash.specs.Displays.{shown_hex};
ghost use Rattle.gix_hash.specs.ReverseDisplays.{shown_reverse_hex};
ghost use Rattle.gix_hash.specs.Writes.{AppendsFewer};
ghost use Rattle.gix_hash.specs.Views.{viewed_id, IsBytesOf, IsFaultOf};

pub mod display;
pub mod spelling;

use crate::{HexDisplay, Kind, ObjectId, decode, oid, verify};
use bstr::BStr;
pub use display::ReverseHexDisplay;
use spelling::hex_from_reverse;
use std::cmp::Ordering;
use std::hash::{Hash, Hasher};
use std::marker::Model;
use std::str::FromStr;
use std::{fmt, io};

/// The id of a change: an object id's digits, spelled in reverse hexadecimal.
#[derive(Debug, Clone, Copy)]
pub struct ChangeId(ObjectId);

impl Model for ChangeId {
    ghost use Rattle.gix_hash.specs.Id.{Id};

    ghost Value = { Id };

    ghost use Rattle.gix_hash.specs.ChangeIdInside.{change_view, change_inverse, change_inverse_ok};

    ghost view = { change_view };

    ghost inverse = { change_inverse };

    ghost inverse_ok = { λ c h. change_inverse_ok c };
}

impl ChangeId {
    /// The id that a text of 40 or 64 reverse digits, in any letter case, spells in full.
    ///
    /// Another length is `InvalidHexEncodingLength`, and else a character that is no digit is
    /// `Invalid`.
    pub fn from_reverse_hex(buffer: &[u8]) -> Result<ChangeId, decode::Error>
        ensures { MatchResult result (IsReverseHexOfId buffer.now)
            (IsFaultOf reverse_digit_value buffer.now) }
    {
        let len = buffer.len();
        if len != 40 && len != 64 {
            return Err(decode::Error::InvalidHexEncodingLength(len));
        }
        let Some(text) = hex_from_reverse(buffer) else {
            return Err(decode::Error::Invalid);
        };
        match ObjectId::from_hex(&text[..len]) {
            Ok(id) => Ok(ChangeId(id)),
            Err(_) => Err(decode::Error::Invalid),
        }
    }

    /// The id in reverse hexadecimal.
    pub fn to_reverse_hex(&self) -> ReverseHexDisplay<'_>
        ensures { shown_reverse_hex result ≡ reverse_hex_text self.now.digits }
    {
        self.to_reverse_hex_with_len(2 * self.as_bytes().len())
    }

    /// The id's first `len` digits in reverse hexadecimal, all if it has fewer.
    pub fn to_reverse_hex_with_len(&self, len: usize) -> ReverseHexDisplay<'_>
        ensures { shown_reverse_hex result ≡ take len (reverse_hex_text self.now.digits) }
    {
        ReverseHexDisplay {
            inner: self.as_oid(),
            hex_len: len,
        }
    }

    /// A view of the id.
    pub fn as_oid(&self) -> oid<'_>
        ensures { viewed_id result ≡ self.now }
    {
        self.0.as_oid()
    }

    /// The id's hash function.
    pub fn kind(&self) -> Kind
        ensures { result ≡ self.now.kind }
    {
        self.0.kind()
    }

    /// The id's bytes, each of two digits.
    pub fn as_bytes(&self) -> &[u8]
        ensures { IsBytesOf result.now self.now }
    {
        self.0.as_slice()
    }

    /// The id's first byte, of its first two digits.
    pub fn first_byte(&self) -> u8
        ensures { digits_of (result ∷ []) ≡ take 2 self.now.digits }
    {
        self.0.first_byte()
    }

    /// The id in lower-case hexadecimal.
    pub fn to_hex(&self) -> HexDisplay<'_>
        ensures { shown_hex result ≡ hex_text self.now.digits }
    {
        self.0.to_hex()
    }

    /// The id's first `len` digits in lower-case hexadecimal, all if it has fewer.
    pub fn to_hex_with_len(&self, len: usize) -> HexDisplay<'_>
        ensures { shown_hex result ≡ take len (hex_text self.now.digits) }
    {
        self.0.to_hex_with_len(len)
    }

    /// Writes the id in lower-case hexadecimal to the start of `buf`, and returns it.
    pub fn hex_to_buf<'b>(&self, buf: &'b mut [u8]) -> &'b str
        requires { hex_len self.now.kind ≤ length buf.old }
        ensures { result.now ≡ hex_text self.now.digits }
    {
        self.0.hex_to_buf(buf)
    }

    /// Writes the id in lower-case hexadecimal. Returns the writer's error if it fails; it has then
    /// taken the first characters, but not all. A write that a signal interrupted is tried again.
    pub fn write_hex_to<W: io::Write>(&self, out: &mut W) -> io::Result<()>
        ensures written { OnOk result
            (Appends (W.contents out.old) (W.contents out.new) (hex_text self.now.digits)) }
        ensures stopped { OnErr result
            (AppendsFewer (W.contents out.old) (W.contents out.new) (hex_text self.now.digits)) }
    {
        self.0.write_hex_to(out)
    }

    /// Returns whether the id is its kind's null id.
    pub fn is_null(&self) -> bool
        ensures { IsTrue result ↔ (self.now ≡ null_id self.now.kind) }
    {
        self.0.is_null()
    }

    /// Returns whether the id is that of the blob without content.
    pub fn is_empty_blob(&self) -> bool
        ensures { IsTrue result ↔ (self.now ≡ id_of_message self.now.kind empty_blob_text) }
    {
        self.0.is_empty_blob()
    }

    /// Returns whether the id is that of the tree without entries.
    pub fn is_empty_tree(&self) -> bool
        ensures { IsTrue result ↔ (self.now ≡ id_of_message self.now.kind empty_tree_text) }
    {
        self.0.is_empty_tree()
    }

    /// Returns whether the two are one id.
    pub fn eq_oid(&self, other: oid<'_>) -> bool
        ensures { IsTrue result ↔ (self.now ≡ viewed_id other.entry) }
    {
        self.0.eq_oid(other)
    }

    /// Returns whether the text is what the change id prints as: the id in full, in reverse
    /// hexadecimal.
    pub fn eq_str(&self, text: &str) -> bool
        ensures { IsTrue result ↔ (reverse_hex_text self.now.digits ≡ text.now) }
    {
        self.to_reverse_hex().eq_str(text)
    }

    /// Returns whether the bytes are what the change id prints as: the id in full, in reverse
    /// hexadecimal.
    pub fn eq_bstr(&self, text: BStr<'_>) -> bool
        ensures { IsTrue result ↔ (reverse_hex_text self.now.digits ≡ bstr_bytes text.entry) }
    {
        self.to_reverse_hex().eq_bytes(text.as_bytes())
    }

    /// Compares the id with the expected one. If they differ, the error holds both.
    pub fn verify(&self, expected: oid<'_>) -> Result<(), verify::Error>
        ensures { MatchResult result (λ _. self.now ≡ viewed_id expected.entry)
            (λ e. (self.now ≢ viewed_id expected.entry) × (id_of e.actual ≡ self.now)
            × (id_of e.expected ≡ viewed_id expected.entry)) }
    {
        self.0.verify(expected)
    }
}

impl From<ObjectId> for ChangeId {
    ghost from_gives = { λ id change. change ≡ id_of id };

    fn from(value: ObjectId) -> ChangeId {
        ChangeId(value)
    }
}

impl From<oid<'_>> for ChangeId {
    ghost from_gives = { λ view change. change ≡ viewed_id view };

    fn from(value: oid<'_>) -> ChangeId {
        ChangeId(ObjectId::from(value))
    }
}

impl From<ChangeId> for ObjectId {
    ghost from_gives = { λ change id. id_of id ≡ change };

    fn from(value: ChangeId) -> ObjectId {
        value.0
    }
}

impl FromStr for ChangeId {
    type Err = decode::Error;

    ghost from_str_gives = { λ text r. MatchResult r (IsReverseHexOfId text)
        (IsFaultOf reverse_digit_value text) };

    fn from_str(s: &str) -> Result<ChangeId, decode::Error> {
        ChangeId::from_reverse_hex(s.as_bytes())
    }
}

// Change ids are equal if their kinds and digits are.
impl PartialEq for ChangeId {
    ghost eq = { λ x y. id_eq x y };

    ghost laws = { eq_laws (λ x. x) };

    fn eq(&self, other: &ChangeId) -> bool {
        self.0 == other.0
    }
}

impl Eq for ChangeId {
    ghost laws = { equivalence (λ x. x) };
}

// The kind decides, and in one kind the digits.
impl Ord for ChangeId {
    ghost cmp = { λ x y. id_cmp x y };

    ghost total = { total (λ x. x) };

    ghost matches_partial_cmp = { λ x y. refl };

    ghost matches_eq = { λ x y. id_tied x y };

    fn cmp(&self, other: &ChangeId) -> Ordering {
        self.0.cmp(&other.0)
    }
}

impl PartialOrd for ChangeId {
    ghost partial_cmp = { λ x y. Some (id_cmp x y) };

    ghost laws = { order_laws (λ x. x) };

    fn partial_cmp(&self, other: &ChangeId) -> Option<Ordering> {
        Some(self.cmp(other))
    }
}

impl Hash for ChangeId {
    ghost hash_input = { λ x. bytes_from x.digits ∷ [] };

    ghost respects_eq = { same_feed (λ x. x) (λ x. bytes_from x.digits) };

    fn hash<H: Hasher>(&self, state: &mut H) {
        self.0.hash(state);
    }
}

impl fmt::Display for ChangeId {
    ghost output = { λ change. Some (reverse_hex_text change.digits) };

    fn fmt<W: fmt::Write>(&self, f: &mut fmt::Formatter<W>) -> fmt::Result {
        fmt::Display::fmt(&self.to_reverse_hex(), f)
    }
}
