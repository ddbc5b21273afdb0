//! Owned object ids.

ghost use Rattle.std.specs.Prelude.{◌≡◌, ◌↔◌, ◌≤◌, ◌≢◌, ℕ, List, [], ◌∷◌, ◌++◌, ◌⊎◌, length, take, codes, Some, IfOk, IfErr, IsOk, OnOk, OnErr, MatchResult, IsTrue};
ghost use Rattle.std.specs.Io.KnownBytes.{Appends};
ghost use Rattle.std.specs.Borrow.{sem};
ghost use Rattle.hex.specs.Hex.{hex_digit_value};
ghost use Rattle.gix_hash.specs.declared.kind.Kind.TheVariants as kinds;
ghost use Rattle.gix_hash.specs.Id.{Id, id_of, bytes_of, null_id, digits_of, bytes_from};
ghost use Rattle.gix_hash.specs.Hasher.{id_of_message, empty_blob_text, empty_tree_text};
ghost use Rattle.gix_hash.specs.Order.{id_eq, id_cmp};
ghost use Rattle.std.proofs.Common.{refl};
ghost use Rattle.gix_hash.specs.OrderLaws.{eq_laws, equivalence, total, id_tied, order_laws, same_feed};
ghost use Rattle.gix_hash.specs.Spelling.{hex_text};
ghost use Rattle.gix_hash.specs.Kind.{hex_len};
ghost use Rattle.bstr.specs.BStr.{bstr_bytes};
ghost use Rattle.gix_hash.specs.Displays.{shown_hex};
ghost use Rattle.gix_hash.specs.Writes.{AppendsFewer};
ghost use Rattle.gix_hash.specs.Lending.{LendsBytes};
ghost use Rattle.gix_hash.specs.Views.{IsBytesOf, IsHexOfId, IsFaultOf, IsWrongLength, viewed_id, debug_text};

use crate::display::HexDisplay;
use crate::id_view::{self, oid};
use crate::{Kind, verify};
use bstr::BStr;
use hex::FromHex;
use std::cmp::Ordering;
use std::convert::TryFrom;
use std::default::MadeWith;
use std::hash::{Hash, Hasher};
use std::str::FromStr;
use std::{fmt, io};

/// The errors of reading an id's hexadecimal digits.
pub mod decode {
    /// Why a text is no id.
    #[derive(Debug, Clone, Copy, PartialEq, Eq, thiserror::Error)]
    pub enum Error {
        /// An id has 40 or 64 digits, and the text has another number of bytes: this many.
        #[error("A hash sized {0} hexadecimal characters is invalid")]
        InvalidHexEncodingLength(usize),
        /// The text has such a length, and a character of it is no digit.
        #[error("Invalid character encountered")]
        Invalid,
    }
}

const EMPTY_BLOB_SHA1: [u8; 20] = [
    0xe6, 0x9d, 0xe2, 0x9b, 0xb2, 0xd1, 0xd6, 0x43, 0x4b, 0x8b, 0x29, 0xae, 0x77, 0x5a, 0xd8, 0xc2,
    0xe4, 0x8c, 0x53, 0x91,
];

const EMPTY_TREE_SHA1: [u8; 20] = [
    0x4b, 0x82, 0x5d, 0xc6, 0x42, 0xcb, 0x6e, 0xb9, 0xa0, 0x60, 0xe5, 0x4b, 0xf8, 0xd6, 0x92, 0x88,
    0xfb, 0xee, 0x49, 0x04,
];

const EMPTY_BLOB_SHA256: [u8; 32] = [
    0x47, 0x3a, 0x0f, 0x4c, 0x3b, 0xe8, 0xa9, 0x36, 0x81, 0xa2, 0x67, 0xe3, 0xb1, 0xe9, 0xa7, 0xdc,
    0xda, 0x11, 0x85, 0x43, 0x6f, 0xe1, 0x41, 0xf7, 0x74, 0x91, 0x20, 0xa3, 0x03, 0x72, 0x18, 0x13,
];

const EMPTY_TREE_SHA256: [u8; 32] = [
    0x6e, 0xf1, 0x9b, 0x41, 0x22, 0x5c, 0x53, 0x69, 0xf1, 0xc1, 0x04, 0xd4, 0x5d, 0x8d, 0x85, 0xef,
    0xa9, 0xb0, 0x57, 0xb5, 0x3b, 0x14, 0xb4, 0xb9, 0xb9, 0x39, 0xdd, 0x74, 0xde, 0xcc, 0x53, 0x21,
];

/// An object id: the digest of an object, by the hash function of its variant.
#[derive(Clone, Copy)]
pub enum ObjectId {
    /// A SHA-1 digest.
    Sha1([u8; 20]),
    /// A SHA-256 digest.
    Sha256([u8; 32]),
}

impl ObjectId {
    /// The id that a text of 40 or 64 hexadecimal digits, in any letter case, spells in full.
    ///
    /// Another length is `InvalidHexEncodingLength`, and else a character that is no digit is
    /// `Invalid`.
    pub fn from_hex(buffer: &[u8]) -> Result<ObjectId, decode::Error>
        ensures { MatchResult result (λ id. IsHexOfId buffer.now (id_of id))
            (IsFaultOf hex_digit_value buffer.now) }
    {
        match buffer.len() {
            40 => match <[u8; 20] as FromHex>::from_hex(buffer) {
                Ok(bytes) => Ok(ObjectId::Sha1(bytes)),
                Err(_) => Err(decode::Error::Invalid),
            },
            64 => match <[u8; 32] as FromHex>::from_hex(buffer) {
                Ok(bytes) => Ok(ObjectId::Sha256(bytes)),
                Err(_) => Err(decode::Error::Invalid),
            },
            len => Err(decode::Error::InvalidHexEncodingLength(len)),
        }
    }

    /// The id of these 20 or 32 bytes.
    pub fn from_bytes_or_panic(bytes: &[u8]) -> ObjectId
        requires { (length bytes.now ≡ 20) ⊎ (length bytes.now ≡ 32) }
        ensures { IsBytesOf bytes.now (id_of result) }
    {
        ObjectId::from(oid::from_bytes_unchecked(bytes))
    }

    /// The id's hash function.
    pub const fn kind(&self) -> Kind
        ensures { result ≡ (id_of self.now).kind }
    {
        match self {
            ObjectId::Sha1(_) => Kind::Sha1,
            ObjectId::Sha256(_) => Kind::Sha256,
        }
    }

    /// The id's bytes, each of two digits.
    pub fn as_slice(&self) -> &[u8]
        ensures { IsBytesOf result.now (id_of self.now) }
    {
        match self {
            ObjectId::Sha1(bytes) => bytes,
            ObjectId::Sha256(bytes) => bytes,
        }
    }

    /// The id's bytes, each of two digits, for writing: the id is then that of the bytes left
    /// there.
    pub fn as_mut_slice(&mut self) -> &mut [u8]
        ensures* writes_back { sem 𝓛 (LendsBytes self.entry result) }
        ensures bytes { IsBytesOf result.now (id_of self.old) }
    {
        // All of them: what is lent has the id's length.
        let _all = self.as_slice();
        match self {
            ObjectId::Sha1(bytes) => bytes.as_mut_slice(),
            ObjectId::Sha256(bytes) => bytes.as_mut_slice(),
        }
    }

    /// The id's bytes, each of two digits.
    pub fn as_bytes(&self) -> &[u8]
        ensures { IsBytesOf result.now (id_of self.now) }
    {
        self.as_oid().as_bytes()
    }

    /// A view of the id.
    pub fn as_oid(&self) -> oid<'_>
        ensures { viewed_id result ≡ id_of self.now }
    {
        oid::from_bytes_unchecked(self.as_slice())
    }

    /// The id's first byte, of its first two digits.
    pub fn first_byte(&self) -> u8
        ensures { digits_of (result ∷ []) ≡ take 2 (id_of self.now).digits }
    {
        self.as_oid().first_byte()
    }

    /// The id in lower-case hexadecimal.
    pub fn to_hex(&self) -> HexDisplay<'_>
        ensures { shown_hex result ≡ hex_text (id_of self.now).digits }
    {
        self.as_oid().to_hex()
    }

    /// The id's first `len` digits in lower-case hexadecimal, all if it has fewer.
    pub fn to_hex_with_len(&self, len: usize) -> HexDisplay<'_>
        ensures { shown_hex result ≡ take len (hex_text (id_of self.now).digits) }
    {
        self.as_oid().to_hex_with_len(len)
    }

    /// Writes the id in lower-case hexadecimal to the start of `buf`, and returns it.
    pub fn hex_to_buf<'b>(&self, buf: &'b mut [u8]) -> &'b str
        requires { hex_len (id_of self.now).kind ≤ length buf.old }
        ensures { result.now ≡ hex_text (id_of self.now).digits }
    {
        self.as_oid().hex_to_buf(buf)
    }

    /// Writes the id in lower-case hexadecimal. Returns the writer's error if it fails; it has then
    /// taken the first characters, but not all. A write that a signal interrupted is tried again.
    pub fn write_hex_to<W: io::Write>(&self, out: &mut W) -> io::Result<()>
        ensures written { OnOk result
            (Appends (W.contents out.old) (W.contents out.new)
            (hex_text (id_of self.now).digits)) }
        ensures stopped { OnErr result
            (AppendsFewer (W.contents out.old) (W.contents out.new)
            (hex_text (id_of self.now).digits)) }
    {
        self.as_oid().write_hex_to(out)
    }

    /// Returns whether the two are one id.
    pub fn eq_oid(&self, other: oid<'_>) -> bool
        ensures { IsTrue result ↔ (id_of self.now ≡ viewed_id other.entry) }
    {
        self.as_oid().eq_oid(other)
    }

    /// Returns whether the text is the id in full, in lower-case hexadecimal.
    pub fn eq_str(&self, text: &str) -> bool
        ensures { IsTrue result ↔ (hex_text (id_of self.now).digits ≡ text.now) }
    {
        self.as_oid().eq_str(text)
    }

    /// Returns whether the bytes are the id in full, in lower-case hexadecimal.
    pub fn eq_bstr(&self, text: BStr<'_>) -> bool
        ensures { IsTrue result ↔ (hex_text (id_of self.now).digits ≡ bstr_bytes text.entry) }
    {
        self.as_oid().eq_bstr(text)
    }

    /// Compares the id with the expected one. If they differ, the error holds both.
    pub fn verify(&self, expected: oid<'_>) -> Result<(), verify::Error>
        ensures { MatchResult result (λ _. id_of self.now ≡ viewed_id expected.entry)
            (λ e. (id_of self.now ≢ viewed_id expected.entry) × (id_of e.actual ≡ id_of self.now)
            × (id_of e.expected ≡ viewed_id expected.entry)) }
    {
        self.as_oid().verify(expected)
    }

    /// The id of a kind whose digits are all zero, which no object has.
    pub const fn null(kind: Kind) -> ObjectId
        ensures { id_of result ≡ null_id kind }
    {
        match kind {
            Kind::Sha1 => ObjectId::Sha1([0; 20]),
            Kind::Sha256 => ObjectId::Sha256([0; 32]),
        }
    }

    /// The id of the blob without content.
    pub const fn empty_blob(hash: Kind) -> ObjectId
        ensures { id_of result ≡ id_of_message hash empty_blob_text }
    {
        match hash {
            Kind::Sha1 => ObjectId::Sha1(EMPTY_BLOB_SHA1),
            Kind::Sha256 => ObjectId::Sha256(EMPTY_BLOB_SHA256),
        }
    }

    /// The id of the tree without entries.
    pub const fn empty_tree(hash: Kind) -> ObjectId
        ensures { id_of result ≡ id_of_message hash empty_tree_text }
    {
        match hash {
            Kind::Sha1 => ObjectId::Sha1(EMPTY_TREE_SHA1),
            Kind::Sha256 => ObjectId::Sha256(EMPTY_TREE_SHA256),
        }
    }

    /// Returns whether the id is its kind's null id.
    pub fn is_null(&self) -> bool
        ensures { IsTrue result ↔ (id_of self.now ≡ null_id (id_of self.now).kind) }
    {
        self.as_oid().is_null()
    }

    /// Returns whether the id is that of the blob without content.
    pub fn is_empty_blob(&self) -> bool
        ensures { IsTrue result
            ↔ (id_of self.now ≡ id_of_message (id_of self.now).kind empty_blob_text) }
    {
        self.as_oid().is_empty_blob()
    }

    /// Returns whether the id is that of the tree without entries.
    pub fn is_empty_tree(&self) -> bool
        ensures { IsTrue result
            ↔ (id_of self.now ≡ id_of_message (id_of self.now).kind empty_tree_text) }
    {
        self.as_oid().is_empty_tree()
    }
}

// What fills the places of a `SmallVec` that hold no id.
impl<A: Drop> MadeWith<A> for ObjectId {
    ghost is_made_with = { λ id. id_of id ≡ null_id kinds.Sha1 };

    fn made_with(_alloc: A) -> ObjectId {
        ObjectId::null(Kind::Sha1)
    }
}

impl From<[u8; 20]> for ObjectId {
    ghost from_gives = { λ bytes id. id_of id
        ≡ record { kind = kinds.Sha1; digits = digits_of bytes } };

    fn from(value: [u8; 20]) -> ObjectId {
        ObjectId::Sha1(value)
    }
}

impl From<[u8; 32]> for ObjectId {
    ghost from_gives = { λ bytes id. id_of id
        ≡ record { kind = kinds.Sha256; digits = digits_of bytes } };

    fn from(value: [u8; 32]) -> ObjectId {
        ObjectId::Sha256(value)
    }
}

impl From<oid<'_>> for ObjectId {
    ghost from_gives = { λ view id. id_of id ≡ viewed_id view };

    fn from(value: oid<'_>) -> ObjectId {
        match value.kind() {
            Kind::Sha1 => {
                let mut bytes = [0u8; 20];
                bytes.copy_from_slice(value.as_bytes());
                ObjectId::Sha1(bytes)
            }
            Kind::Sha256 => {
                let mut bytes = [0u8; 32];
                bytes.copy_from_slice(value.as_bytes());
                ObjectId::Sha256(bytes)
            }
        }
    }
}

impl<'a> TryFrom<&'a [u8]> for ObjectId {
    type Error = id_view::Error;

    // The id of these bytes, or their number, which is then neither 20 nor 32.
    ghost try_from_gives = { λ bytes r. MatchResult r (λ id. IsBytesOf bytes.now (id_of id))
        (λ e. IsWrongLength bytes.now e) };

    fn try_from(value: &'a [u8]) -> Result<ObjectId, id_view::Error> {
        Ok(ObjectId::from(oid::try_from_bytes(value)?))
    }
}

impl FromStr for ObjectId {
    type Err = decode::Error;

    ghost from_str_gives = { λ text r. MatchResult r (λ id. IsHexOfId text (id_of id))
        (IsFaultOf hex_digit_value text) };

    fn from_str(s: &str) -> Result<ObjectId, decode::Error> {
        ObjectId::from_hex(s.as_bytes())
    }
}

// Ids are equal if their kinds and digits are.
impl PartialEq for ObjectId {
    ghost eq = { λ x y. id_eq (id_of x) (id_of y) };

    ghost laws = { eq_laws id_of };

    fn eq(&self, other: &ObjectId) -> bool {
        self.as_slice() == other.as_slice()
    }
}

impl Eq for ObjectId {
    ghost laws = { equivalence id_of };
}

// The kind decides, and in one kind the digits.
impl Ord for ObjectId {
    ghost cmp = { λ x y. id_cmp (id_of x) (id_of y) };

    ghost total = { total id_of };

    ghost matches_partial_cmp = { λ x y. refl };

    ghost matches_eq = { λ x y. id_tied (id_of x) (id_of y) };

    fn cmp(&self, other: &ObjectId) -> Ordering {
        self.kind()
            .number()
            .cmp(&other.kind().number())
            .then(self.as_slice().cmp(other.as_slice()))
    }
}

impl PartialOrd for ObjectId {
    ghost partial_cmp = { λ x y. Some (id_cmp (id_of x) (id_of y)) };

    ghost laws = { order_laws id_of };

    fn partial_cmp(&self, other: &ObjectId) -> Option<Ordering> {
        Some(self.cmp(other))
    }
}

// An id feeds a hasher its bytes in one write, as its view does.
impl Hash for ObjectId {
    ghost hash_input = { λ id. bytes_from (id_of id).digits ∷ [] };

    ghost respects_eq = { same_feed id_of (λ a. bytes_from a.digits) };

    fn hash<H: Hasher>(&self, state: &mut H) {
        state.write(self.as_slice());
    }
}

impl fmt::Display for ObjectId {
    ghost output = { λ id. Some (hex_text (id_of id).digits) };

    fn fmt<W: fmt::Write>(&self, f: &mut fmt::Formatter<W>) -> fmt::Result {
        fmt::Display::fmt(&self.as_oid(), f)
    }
}

impl fmt::Debug for ObjectId {
    ghost debug_output = { λ id. Some (debug_text (id_of id)) };

    fn fmt<W: fmt::Write>(&self, f: &mut fmt::Formatter<W>) -> fmt::Result {
        fmt::Debug::fmt(&self.as_oid(), f)
    }
}
