//! The hash functions that Git names objects by.

ghost use Rattle.std.specs.Prelude.{◌≡◌, ℕ, List, [], ◌∷◌, replicate, Contains, IfOk, OnErr, IfErr, ◌≢◌, Some, None, MatchResult, Option};
ghost use Rattle.gix_hash.specs.Kind.{byte_len, hex_len, kind_number, kind_name, names_of, kind_for_digits};
ghost use Rattle.gix_hash.specs.Id.{id_of, null_id};
ghost use Rattle.gix_hash.specs.Hasher.{id_of_message, empty_blob_text, empty_tree_text};
ghost use Rattle.gix_hash.specs.Views.{viewed_id};
ghost use Rattle.gix_hash.specs.declared.kind.Kind.{Kind};
ghost use Rattle.gix_hash.specs.declared.kind.Kind.TheVariants.{Sha1, Sha256};

use crate::{ObjectId, oid};
use std::convert::TryFrom;
use std::fmt;
use std::str::FromStr;

static NULL_SHA1: [u8; 20] = [0; 20];

static NULL_SHA256: [u8; 32] = [0; 32];

/// The hash function of an id: its number is the one that Git's files of format version 2 use.
#[derive(Debug, Clone, Copy, PartialEq, Eq, PartialOrd, Ord, Hash)]
pub enum Kind {
    /// SHA-1, whose ids have 20 bytes.
    Sha1 = 1,
    /// SHA-256, whose ids have 32 bytes.
    Sha256 = 2,
}

/// A text that names no hash function.
#[derive(Debug, Clone, Copy, PartialEq, Eq, thiserror::Error)]
#[error("the text names no hash function")]
pub struct UnknownName;

impl Kind {
    /// The kind with the shortest ids.
    pub const fn shortest() -> Kind
        ensures { result ≡ Sha1 }
    {
        Kind::Sha1
    }

    /// The kind with the longest ids.
    pub const fn longest() -> Kind
        ensures { result ≡ Sha256 }
    {
        Kind::Sha256
    }

    /// A buffer of zero bytes that has room for the hexadecimal digits of every id.
    pub const fn hex_buf() -> [u8; 64]
        ensures { result ≡ replicate 64 0 }
    {
        [0; 64]
    }

    /// A buffer of zero bytes that has room for the bytes of every id.
    pub const fn buf() -> [u8; 32]
        ensures { result ≡ replicate 32 0 }
    {
        [0; 32]
    }

    /// How many hexadecimal digits an id of this kind has: 40 or 64.
    pub const fn len_in_hex(&self) -> usize
        ensures { result ≡ hex_len self.now }
    {
        match self {
            Kind::Sha1 => 40,
            Kind::Sha256 => 64,
        }
    }

    /// How many bytes an id of this kind has: 20 or 32.
    pub const fn len_in_bytes(&self) -> usize
        ensures { result ≡ byte_len self.now }
    {
        match self {
            Kind::Sha1 => 20,
            Kind::Sha256 => 32,
        }
    }

    /// The kind that so many hexadecimal digits may belong to: SHA-1 up to 40, SHA-256 from 41 to
    /// 64, and otherwise `None`.
    pub const fn from_hex_len(hex_len: usize) -> Option<Kind>
        ensures { result ≡ kind_for_digits hex_len }
    {
        match hex_len {
            0..=40 => Some(Kind::Sha1),
            41..=64 => Some(Kind::Sha256),
            _ => None,
        }
    }

    // The kind's number.
    pub(crate) fn number(&self) -> u8
        ensures { result ≡ kind_number self.now }
    {
        match self {
            Kind::Sha1 => 1,
            Kind::Sha256 => 2,
        }
    }

    /// The id of this kind whose digits are all zero, which no object has.
    pub const fn null(&self) -> ObjectId
        ensures { id_of result ≡ null_id self.now }
    {
        ObjectId::null(*self)
    }

    /// A view of the id of this kind whose digits are all zero.
    pub fn null_ref(&self) -> oid<'static>
        ensures { viewed_id result ≡ null_id self.now }
    {
        match self {
            Kind::Sha1 => oid::from(&NULL_SHA1),
            Kind::Sha256 => oid::from(&NULL_SHA256),
        }
    }

    /// The id of this kind of the blob without content.
    pub const fn empty_blob(&self) -> ObjectId
        ensures { id_of result ≡ id_of_message self.now empty_blob_text }
    {
        ObjectId::empty_blob(*self)
    }

    /// The id of this kind of the tree without entries.
    pub const fn empty_tree(&self) -> ObjectId
        ensures { id_of result ≡ id_of_message self.now empty_tree_text }
    {
        ObjectId::empty_tree(*self)
    }

    /// All kinds, the shortest first.
    pub const fn all() -> &'static [Kind]
        ensures { result.now ≡ Sha1 ∷ Sha256 ∷ [] }
    {
        &[Kind::Sha1, Kind::Sha256]
    }
}

impl Default for Kind {
    ghost is_default = { λ kind. kind ≡ Sha1 };

    fn default() -> Kind {
        Kind::Sha1
    }
}

impl TryFrom<u8> for Kind {
    type Error = u8;

    // The kind of that number, or the number, which is then no kind's.
    ghost try_from_gives = { λ n r. MatchResult r (λ kind. n ≡ kind_number kind)
        (λ e. (e ≡ n) × (n ≢ 1) × (n ≢ 2)) };

    fn try_from(value: u8) -> Result<Kind, u8> {
        match value {
            1 => Ok(Kind::Sha1),
            2 => Ok(Kind::Sha256),
            unknown => Err(unknown),
        }
    }
}

impl FromStr for Kind {
    type Err = UnknownName;

    // The kind that the text names, or an error if it names none.
    ghost from_str_gives = { λ text r. MatchResult r (λ kind. Contains (names_of kind) text)
        (λ _. (kind : Kind) → Contains (names_of kind) text → ⊥) };

    fn from_str(s: &str) -> Result<Kind, UnknownName> {
        match s {
            "sha1" | "SHA1" | "SHA-1" => Ok(Kind::Sha1),
            "sha256" | "SHA256" | "SHA-256" => Ok(Kind::Sha256),
            _ => Err(UnknownName),
        }
    }
}

impl fmt::Display for Kind {
    ghost output = { λ kind. Some (kind_name kind) };

    fn fmt<W: fmt::Write>(&self, f: &mut fmt::Formatter<W>) -> fmt::Result {
        match self {
            Kind::Sha1 => f.write_str("sha1"),
            Kind::Sha256 => f.write_str("sha256"),
        }
    }
}
