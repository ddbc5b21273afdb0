//! Object ids as views of bytes.

ghost use Rattle.std.specs.Prelude.{◌≡◌, ◌≢◌, ◌↔◌, ◌≤◌, ◌*◌, ℕ, List, [], ◌∷◌, ◌⊎◌, length, take, Some, IsTrue, MatchResult, OnOk, OnErr, IsOk, IfErr};
ghost use Rattle.std.specs.Io.KnownBytes.{Appends};
ghost use Rattle.bstr.specs.BStr.{bstr_bytes};
ghost use Rattle.gix_hash.specs.Id.{Id, id_of, null_id, digits_of};
ghost use Rattle.gix_hash.specs.Kind.{kind_of_byte_len, hex_len};
ghost use Rattle.gix_hash.specs.Hasher.{id_of_message, empty_blob_text, empty_tree_text};
ghost use Rattle.gix_hash.specs.Spelling.{hex_text};
ghost use Rattle.gix_hash.specs.Views.{viewed_id, IsBytesOf, IsWrongLength, debug_text};
ghost use Rattle.gix_hash.specs.Displays.{shown_hex};
ghost use Rattle.gix_hash.specs.Writes.{AppendsFewer};

mod view;

use crate::display::HexDisplay;
use crate::spelling::{hex_digits, written};
use crate::write::write_bytes;
use crate::{Kind, ObjectId, verify};
use bstr::BStr;
use std::convert::TryFrom;
use std::hash::{Hash, Hasher};
use std::{fmt, io};
pub use view::oid;

/// The bytes are no id.
#[derive(Debug, Clone, Copy, PartialEq, Eq, thiserror::Error)]
pub enum Error {
    /// An id has 20 or 32 bytes, and this many were given.
    #[error("Cannot instantiate git hash from a digest of length {0}")]
    InvalidByteSliceLength(usize),
}

impl<'a> oid<'a> {
    /// The view of these bytes, which are 20 or 32: any other number is `InvalidByteSliceLength`.
    pub fn try_from_bytes(digest: &'a [u8]) -> Result<oid<'a>, Error>
        ensures { MatchResult result (λ view. IsBytesOf digest.now (viewed_id view))
            (IsWrongLength digest.now) }
    {
        match digest.len() {
            20 | 32 => Ok(oid { bytes: digest }),
            len => Err(Error::InvalidByteSliceLength(len)),
        }
    }

    /// The view of these 20 or 32 bytes.
    pub fn from_bytes_unchecked(value: &'a [u8]) -> oid<'a>
        requires { (length value.now ≡ 20) ⊎ (length value.now ≡ 32) }
        ensures { IsBytesOf value.now (viewed_id result) }
    {
        oid { bytes: value }
    }

    /// The id's hash function.
    pub fn kind(&self) -> Kind
        ensures { result ≡ (viewed_id self.now).kind }
    {
        if self.bytes.len() == 20 {
            Kind::Sha1
        } else {
            Kind::Sha256
        }
    }

    /// The id's first byte, of its first two digits.
    pub fn first_byte(&self) -> u8
        ensures { digits_of (result ∷ []) ≡ take 2 (viewed_id self.now).digits }
    {
        self.bytes[0]
    }

    /// The id's bytes, each of two digits.
    pub fn as_bytes(&self) -> &'a [u8]
        ensures { IsBytesOf result.now (viewed_id self.now) }
    {
        self.bytes
    }

    /// The id in lower-case hexadecimal.
    pub fn to_hex(&self) -> HexDisplay<'a>
        ensures { shown_hex result ≡ hex_text (viewed_id self.now).digits }
    {
        self.to_hex_with_len(2 * self.bytes.len())
    }

    /// The id's first `len` digits in lower-case hexadecimal, all if it has fewer.
    pub fn to_hex_with_len(&self, len: usize) -> HexDisplay<'a>
        ensures { shown_hex result ≡ take len (hex_text (viewed_id self.now).digits) }
    {
        HexDisplay {
            inner: *self,
            hex_len: len,
        }
    }

    /// Writes the id in lower-case hexadecimal to the start of `buf`, and returns it.
    pub fn hex_to_buf<'b>(&self, buf: &'b mut [u8]) -> &'b str
        requires { hex_len (viewed_id self.now).kind ≤ length buf.old }
        ensures { result.now ≡ hex_text (viewed_id self.now).digits }
    {
        let digits = hex_digits(self.bytes);
        written(&digits[..2 * self.bytes.len()], buf)
    }

    /// Writes the id in lower-case hexadecimal. Returns the writer's error if it fails; it has then
    /// taken the first characters, but not all. A write that a signal interrupted is tried again.
    pub fn write_hex_to<W: io::Write>(&self, out: &mut W) -> io::Result<()>
        ensures written { OnOk result
            (Appends (W.contents out.old) (W.contents out.new)
            (hex_text (viewed_id self.now).digits)) }
        ensures stopped { OnErr result
            (AppendsFewer (W.contents out.old) (W.contents out.new)
            (hex_text (viewed_id self.now).digits)) }
    {
        let mut buffer = [0u8; 64];
        write_bytes(out, self.hex_to_buf(&mut buffer).as_bytes())
    }

    /// Returns whether the id is its kind's null id.
    pub fn is_null(&self) -> bool
        ensures { IsTrue result ↔ (viewed_id self.now ≡ null_id (viewed_id self.now).kind) }
    {
        self.eq_oid(ObjectId::null(self.kind()).as_oid())
    }

    /// Returns whether the id is that of the blob without content.
    pub fn is_empty_blob(&self) -> bool
        ensures { IsTrue result
            ↔ (viewed_id self.now ≡ id_of_message (viewed_id self.now).kind empty_blob_text) }
    {
        self.eq_oid(ObjectId::empty_blob(self.kind()).as_oid())
    }

    /// Returns whether the id is that of the tree without entries.
    pub fn is_empty_tree(&self) -> bool
        ensures { IsTrue result
            ↔ (viewed_id self.now ≡ id_of_message (viewed_id self.now).kind empty_tree_text) }
    {
        self.eq_oid(ObjectId::empty_tree(self.kind()).as_oid())
    }

    /// Returns whether the two are one id.
    pub fn eq_oid(&self, other: oid<'_>) -> bool
        ensures { IsTrue result ↔ (viewed_id self.now ≡ viewed_id other.entry) }
    {
        self.bytes == other.bytes
    }

    /// Returns whether the text is the id in full, in lower-case hexadecimal.
    pub fn eq_str(&self, text: &str) -> bool
        ensures { IsTrue result ↔ (hex_text (viewed_id self.now).digits ≡ text.now) }
    {
        self.eq_bytes(text.as_bytes())
    }

    /// Returns whether the bytes are the id in full, in lower-case hexadecimal.
    pub fn eq_bstr(&self, text: BStr<'_>) -> bool
        ensures { IsTrue result ↔ (hex_text (viewed_id self.now).digits ≡ bstr_bytes text.entry) }
    {
        self.eq_bytes(text.as_bytes())
    }

    // Returns whether the bytes are the id in full, in lower-case hexadecimal.
    fn eq_bytes(&self, text: &[u8]) -> bool
        ensures { IsTrue result ↔ (hex_text (viewed_id self.now).digits ≡ text.now) }
    {
        let mut buffer = [0u8; 64];
        self.hex_to_buf(&mut buffer).as_bytes() == text
    }

    /// The id itself, of which this is a view.
    pub fn to_owned(&self) -> ObjectId
        ensures { id_of result ≡ viewed_id self.now }
    {
        ObjectId::from(*self)
    }

    /// Compares the id with the expected one. If they differ, the error holds both.
    pub fn verify(&self, expected: oid<'_>) -> Result<(), verify::Error>
        ensures { MatchResult result (λ _. viewed_id self.now ≡ viewed_id expected.entry)
            (λ e. (viewed_id self.now ≢ viewed_id expected.entry)
            × (id_of e.actual ≡ viewed_id self.now)
            × (id_of e.expected ≡ viewed_id expected.entry)) }
    {
        if self.eq_oid(expected) {
            return Ok(());
        }
        Err(verify::Error {
            actual: self.to_owned(),
            expected: expected.to_owned(),
        })
    }
}

impl<'a> From<&'a [u8; 20]> for oid<'a> {
    ghost from_gives = { λ bytes view. IsBytesOf bytes.now (viewed_id view) };

    fn from(value: &'a [u8; 20]) -> oid<'a> {
        oid::from_bytes_unchecked(value)
    }
}

impl<'a> From<&'a [u8; 32]> for oid<'a> {
    ghost from_gives = { λ bytes view. IsBytesOf bytes.now (viewed_id view) };

    fn from(value: &'a [u8; 32]) -> oid<'a> {
        oid::from_bytes_unchecked(value)
    }
}

impl<'a> TryFrom<&'a [u8]> for oid<'a> {
    type Error = Error;

    ghost try_from_gives = { λ bytes r. MatchResult r (λ view. IsBytesOf bytes.now (viewed_id view))
        (IsWrongLength bytes.now) };

    fn try_from(value: &'a [u8]) -> Result<oid<'a>, Error> {
        oid::try_from_bytes(value)
    }
}

// A view feeds a hasher its bytes in one write, as the id does.
impl Hash for oid<'_> {
    ghost hash_input = { λ view. view.bytes.now ∷ [] };

    ghost use Rattle.gix_hash.specs.SameWrites.{same_write};

    ghost respects_eq = { λ x y h. same_write x.bytes.now y.bytes.now h };

    fn hash<H: Hasher>(&self, state: &mut H) {
        state.write(self.bytes);
    }
}

impl fmt::Display for oid<'_> {
    ghost output = { λ view. Some (hex_text (viewed_id view).digits) };

    fn fmt<W: fmt::Write>(&self, f: &mut fmt::Formatter<W>) -> fmt::Result {
        let mut buffer = [0u8; 64];
        f.write_str(self.hex_to_buf(&mut buffer))
    }
}

impl fmt::Debug for oid<'_> {
    ghost debug_output = { λ view. Some (debug_text (viewed_id view)) };

    fn fmt<W: fmt::Write>(&self, f: &mut fmt::Formatter<W>) -> fmt::Result {
        match self.kind() {
            Kind::Sha1 => write!(f, "Sha1({self})"),
            Kind::Sha256 => write!(f, "Sha256({self})"),
        }
    }
}
