//! Prefixes: the first digits of object ids.

ghost use Rattle.std.specs.Prelude.{◌≡◌, ◌≤◌, ◌*◌, ◌+◌, ◌-◌, ◌<◌, ◌++◌, ℕ, List, [], ◌∷◌, length, take, drop, replicate, map, Some, None, IfOk, MatchResult, MatchOption, OnOk, OnErr, Any, Option, IsTrue, ◌↔◌};
ghost use Rattle.bstr.specs.BStr.{bstr_bytes};
ghost use Rattle.std.specs.Io.KnownBytes.{Appends};
ghost use Rattle.hex.specs.Hex.{hex_digit_value};
ghost use Rattle.gix_hash.specs.Kind.{hex_len, hex_len as digits_in, kind_for_digits};
ghost use Rattle.gix_hash.specs.declared.prefix.from_hex.Error.TheVariants.{Invalid};
ghost use Rattle.gix_hash.specs.Id.{Id, id_of, digits_of};
ghost use Rattle.gix_hash.specs.Views.{viewed_id};
ghost use Rattle.gix_hash.specs.ReverseDisplays.{shown_reverse_hex};
ghost use Rattle.gix_hash.specs.Writes.{AppendsFewer};
ghost use Rattle.gix_hash.specs.Spelling.{hex_text};
ghost use Rattle.gix_hash.specs.ReverseSpelling.{reverse_hex_text, reverse_digit_value};
ghost use Rattle.gix_hash.specs.Order.{digits_cmp, id_eq, id_cmp};
ghost use Rattle.gix_hash.specs.OrderLaws.{eq_laws, equivalence, total, id_tied, order_laws};
ghost use Rattle.gix_hash.specs.PrefixInput.{prefix_input, same_input};
ghost use Rattle.std.proofs.Common.{refl};
ghost use Rattle.gix_hash.specs.Prefix.{first_digits, IsPrefixLength, IsLengthFault, SpellsPrefix, IsTextFault, IsNoLength, IsReadAs};

use crate::change_id::spelling::hex_from_reverse;
use crate::spelling::{hex_digits, written};
use crate::write::write_bytes;
use crate::{ChangeId, Kind, ObjectId, ReverseHexDisplay, oid};
use bstr::BStr;
use std::cmp::Ordering;
use std::convert::TryFrom;
use std::hash::{Hash, Hasher};
use std::marker::Model;
use std::{fmt, io};

/// The errors of reading a prefix.
pub mod from_hex {
    /// Why a text is no prefix. Its length is tested before its characters.
    #[derive(Debug, Clone, Copy, PartialEq, Eq, thiserror::Error)]
    pub enum Error {
        /// The text has fewer characters than a prefix has digits: this many.
        #[error("The minimum hex length of a short object id is 4, got {hex_len}")]
        TooShort { hex_len: usize },
        /// The text has more characters than the longest ids have digits: this many.
        #[error("An id cannot be larger than 64 chars in hex, but {hex_len} was requested")]
        TooLong { hex_len: usize },
        /// A character is no digit.
        #[error("Invalid hex character")]
        Invalid,
    }
}

/// Why there is no prefix of so many digits.
#[derive(Debug, Clone, Copy, PartialEq, Eq, thiserror::Error)]
pub enum Error {
    /// A prefix has at least four digits, and this many were requested.
    #[error("The minimum hex length of a short object id is 4, got {hex_len}")]
    TooShort { hex_len: usize },
    /// Ids of this kind have fewer digits than were requested.
    #[error("An object of kind {object_kind} cannot be larger than {} in hex, but {hex_len} was requested", .object_kind.len_in_hex())]
    TooLong { object_kind: Kind, hex_len: usize },
}

/// The first digits of object ids of one kind.
#[derive(Debug, Clone, Copy)]
pub struct Prefix {
    // The digits two to a byte, and then zeros.
    bytes: ObjectId,
    hex_len: usize,
}

impl Model for Prefix {
    ghost use Rattle.gix_hash.specs.Id.{Id};

    ghost Value = { Id };

    ghost use Rattle.gix_hash.specs.PackedBeginning.{IsZeroFrom};
    ghost use Rattle.gix_hash.specs.PrefixInside.{prefix_view, prefix_inverse, prefix_inverse_ok};

    ghost view = { prefix_view };

    ghost invariant = { λ p. IsZeroFrom p.bytes p.hex_len };

    ghost inverse = { prefix_inverse };

    ghost inverse_ok = { prefix_inverse_ok };
}

impl Prefix {
    /// The fewest digits of a prefix, unless a call says that one is enough.
    pub const MIN_HEX_LEN: usize = 4;

    /// The prefix of an id's first `hex_len` digits; `TooShort` if these are fewer than four, and
    /// `TooLong` if they are more than the id has.
    pub fn new(id: oid<'_>, hex_len: usize) -> Result<Prefix, Error>
        ensures ok { IfOk result (λ prefix. prefix ≡ first_digits (viewed_id id.entry) hex_len) }
        ensures length { MatchResult result (λ _. IsPrefixLength (viewed_id id.entry) hex_len)
            (IsLengthFault (viewed_id id.entry) hex_len) }
    {
        let object_kind = id.kind();
        if hex_len > object_kind.len_in_hex() {
            return Err(Error::TooLong {
                object_kind,
                hex_len,
            });
        }
        if hex_len < Prefix::MIN_HEX_LEN {
            return Err(Error::TooShort { hex_len });
        }
        let bytes = first_digits_of(id.as_bytes(), hex_len);
        Ok(Prefix {
            bytes: ObjectId::from_bytes_or_panic(&bytes[..object_kind.len_in_bytes()]),
            hex_len,
        })
    }

    /// The prefix that a text of 4 to 64 hexadecimal digits, in any letter case, spells: of SHA-1
    /// ids up to 40 digits, and of SHA-256 ids from 41. Returns `TooShort` or `TooLong` for another
    /// length, and otherwise `Invalid` if a character is no digit.
    pub fn from_hex(value: &str) -> Result<Prefix, from_hex::Error>
        ensures { MatchResult result (SpellsPrefix hex_digit_value 4 value.now)
            (IsTextFault hex_digit_value 4 value.now) }
    {
        let hex_len = value.len();
        if hex_len < Prefix::MIN_HEX_LEN {
            return Err(from_hex::Error::TooShort { hex_len });
        }
        Prefix::from_hex_nonempty(value)
    }

    /// The same of a text of 1 to 64 hexadecimal digits. The errors are those of `from_hex`.
    pub fn from_hex_nonempty(value: &str) -> Result<Prefix, from_hex::Error>
        ensures { MatchResult result (SpellsPrefix hex_digit_value 1 value.now)
            (IsTextFault hex_digit_value 1 value.now) }
    {
        let digits = value.as_bytes();
        let hex_len = digits.len();
        let kind = kind_of_length(hex_len)?;
        let mut text = [b'0'; 64];
        text[..hex_len].copy_from_slice(digits);
        read_padded(&text, hex_len, kind)
    }

    /// The prefix that a text of 4 to 64 reverse digits, in any letter case, spells: of SHA-1 ids
    /// up to 40 digits, and of SHA-256 ids from 41. The errors are those of `from_hex`.
    pub fn from_reverse_hex(value: &str) -> Result<Prefix, from_hex::Error>
        ensures { MatchResult result (SpellsPrefix reverse_digit_value 4 value.now)
            (IsTextFault reverse_digit_value 4 value.now) }
    {
        let hex_len = value.len();
        if hex_len < Prefix::MIN_HEX_LEN {
            return Err(from_hex::Error::TooShort { hex_len });
        }
        Prefix::from_reverse_hex_nonempty(value)
    }

    /// The same of a text of 1 to 64 reverse digits. The errors are those of `from_hex`.
    pub fn from_reverse_hex_nonempty(value: &str) -> Result<Prefix, from_hex::Error>
        ensures { MatchResult result (SpellsPrefix reverse_digit_value 1 value.now)
            (IsTextFault reverse_digit_value 1 value.now) }
    {
        let letters = value.as_bytes();
        let hex_len = letters.len();
        let kind = kind_of_length(hex_len)?;
        let Some(text) = hex_from_reverse(letters) else {
            return Err(from_hex::Error::Invalid);
        };
        read_padded(&text, hex_len, kind)
    }

    /// The prefix in reverse hexadecimal.
    pub fn to_reverse_hex(&self) -> ReverseHexDisplay<'_>
        ensures { shown_reverse_hex result ≡ reverse_hex_text self.now.digits }
    {
        ReverseHexDisplay {
            inner: self.bytes.as_oid(),
            hex_len: self.hex_len,
        }
    }

    /// Writes the prefix in lower-case hexadecimal to the start of `buf`, and returns it.
    pub fn hex_to_buf<'b>(&self, buf: &'b mut [u8]) -> &'b str
        requires { length self.now.digits ≤ length buf.old }
        ensures { result.now ≡ hex_text self.now.digits }
    {
        let digits = hex_digits(self.bytes.as_slice());
        written(&digits[..self.hex_len], buf)
    }

    /// Writes the prefix in lower-case hexadecimal. Returns the writer's error if it fails; it has
    /// then taken the first characters, but not all. A write that a signal interrupted is tried
    /// again.
    pub fn write_hex_to<W: io::Write>(&self, out: &mut W) -> io::Result<()>
        ensures written { OnOk result
            (Appends (W.contents out.old) (W.contents out.new) (hex_text self.now.digits)) }
        ensures stopped { OnErr result
            (AppendsFewer (W.contents out.old) (W.contents out.new) (hex_text self.now.digits)) }
    {
        let digits = hex_digits(self.bytes.as_slice());
        write_bytes(out, &digits[..self.hex_len])
    }

    /// Returns whether the text is the prefix in lower-case hexadecimal.
    pub fn eq_str(&self, text: &str) -> bool
        ensures { IsTrue result ↔ (hex_text self.now.digits ≡ text.now) }
    {
        self.eq_bytes(text.as_bytes())
    }

    /// Returns whether the bytes are the prefix in lower-case hexadecimal.
    pub fn eq_bstr(&self, text: BStr<'_>) -> bool
        ensures { IsTrue result ↔ (hex_text self.now.digits ≡ bstr_bytes text.entry) }
    {
        self.eq_bytes(text.as_bytes())
    }

    // Returns whether the bytes are the prefix in lower-case hexadecimal.
    fn eq_bytes(&self, text: &[u8]) -> bool
        ensures { IsTrue result ↔ (hex_text self.now.digits ≡ text.now) }
    {
        let mut buffer = [0u8; 64];
        let digits = &mut buffer[..self.hex_len];
        self.hex_to_buf(digits).as_bytes() == text
    }

    /// A view of the prefix's digits with zeros after them, as many as an id of its kind has.
    pub fn as_oid(&self) -> oid<'_>
        ensures kind { (viewed_id result).kind ≡ self.now.kind }
        ensures digits { (viewed_id result).digits
            ≡ self.now.digits ++ replicate (hex_len self.now.kind - length self.now.digits) 0 }
    {
        self.bytes.as_oid()
    }

    /// How many digits the prefix has.
    pub fn hex_len(&self) -> usize
        ensures { result ≡ length self.now.digits }
    {
        self.hex_len
    }

    /// Compares the prefix's digits with as many first digits of the candidate, which must have so
    /// many, in dictionary order and whatever its kind. Returns `Equal` if the prefix begins the
    /// candidate.
    pub fn cmp_oid(&self, candidate: oid<'_>) -> Ordering
        requires { length self.now.digits ≤ length (viewed_id candidate).digits }
        ensures { result ≡ digits_cmp self.now.digits
            (take (length self.now.digits) (viewed_id candidate.entry).digits) }
    {
        compare_digits(self.bytes.as_slice(), candidate.as_bytes(), self.hex_len)
    }
}

// The prefix of a kind that a text spells, which zeros follow.
fn read_padded(text: &[u8; 64], hex_len: usize, kind: Kind) -> Result<Prefix, from_hex::Error>
    requires fits { hex_len ≤ digits_in kind }
    requires zeros { drop hex_len text.now ≡ replicate (64 - hex_len) 48 }
    ensures { MatchResult result (IsReadAs kind (take hex_len text.now))
        (λ e. (e ≡ Invalid) × Any (λ c. hex_digit_value c ≡ None) (take hex_len text.now)) }
{
    match ObjectId::from_hex(&text[..kind.len_in_hex()]) {
        Ok(bytes) => Ok(Prefix { bytes, hex_len }),
        Err(_) => Err(from_hex::Error::Invalid),
    }
}

// The dictionary order of as many first digits of bytes.
fn compare_digits(bytes: &[u8], candidate: &[u8], count: usize) -> Ordering
    requires bytes { count ≤ 2 * length bytes.now }
    requires candidate { count ≤ 2 * length candidate.now }
    ensures { result
        ≡ digits_cmp (take count (digits_of bytes.now)) (take count (digits_of candidate.now)) }
{
    let whole = count / 2;
    let order = bytes[..whole].cmp(&candidate[..whole]);
    if count % 2 == 0 {
        return order;
    }
    order.then((bytes[whole] / 16).cmp(&(candidate[whole] / 16)))
}

// The kind of ids that a prefix read from so many characters belongs to.
fn kind_of_length(hex_len: usize) -> Result<Kind, from_hex::Error>
    ensures { MatchResult result (λ kind. (1 ≤ hex_len) × (kind_for_digits hex_len ≡ Some kind))
        (λ e. IsNoLength hex_len e) }
{
    if hex_len == 0 {
        return Err(from_hex::Error::TooShort { hex_len });
    }
    match Kind::from_hex_len(hex_len) {
        Some(kind) => Ok(kind),
        None => Err(from_hex::Error::TooLong { hex_len }),
    }
}

// The first digits of some bytes, two to a byte, and then zeros.
fn first_digits_of(bytes: &[u8], hex_len: usize) -> [u8; 32]
    requires room { length bytes.now ≤ 32 }
    requires digits { hex_len ≤ 2 * length bytes.now }
    ensures { digits_of (take (length bytes.now) result)
        ≡ take hex_len (digits_of bytes.now) ++ replicate (2 * length bytes.now - hex_len) 0 }
{
    let whole = hex_len / 2;
    let mut first = [0u8; 32];
    first[..whole].copy_from_slice(&bytes[..whole]);
    if hex_len % 2 == 1 {
        first[whole] = bytes[whole] / 16 * 16;
    }
    first
}

impl From<ObjectId> for Prefix {
    ghost from_gives = { λ id prefix. prefix ≡ id_of id };

    fn from(value: ObjectId) -> Prefix {
        Prefix {
            bytes: value,
            hex_len: 2 * value.as_slice().len(),
        }
    }
}

impl From<ChangeId> for Prefix {
    ghost from_gives = { λ change prefix. prefix ≡ change };

    fn from(value: ChangeId) -> Prefix {
        Prefix::from(ObjectId::from(value))
    }
}

impl<'a> TryFrom<&'a str> for Prefix {
    type Error = from_hex::Error;

    ghost try_from_gives = { λ text r. MatchResult r (SpellsPrefix hex_digit_value 4 text.now)
        (IsTextFault hex_digit_value 4 text.now) };

    fn try_from(value: &'a str) -> Result<Prefix, from_hex::Error> {
        Prefix::from_hex(value)
    }
}

// Prefixes are equal if their kinds and digits are.
impl PartialEq for Prefix {
    ghost eq = { λ x y. id_eq x y };

    ghost laws = { eq_laws (λ x. x) };

    fn eq(&self, other: &Prefix) -> bool {
        self.cmp(other).is_eq()
    }
}

impl Eq for Prefix {
    ghost laws = { equivalence (λ x. x) };
}

// The kind decides, and in one kind the dictionary order of the digits.
impl Ord for Prefix {
    ghost cmp = { λ x y. id_cmp x y };

    ghost total = { total (λ x. x) };

    ghost matches_partial_cmp = { λ x y. refl };

    ghost matches_eq = { λ x y. id_tied x y };

    fn cmp(&self, other: &Prefix) -> Ordering {
        let padded = self.bytes.cmp(&other.bytes);
        padded.then(self.hex_len.cmp(&other.hex_len))
    }
}

impl PartialOrd for Prefix {
    ghost partial_cmp = { λ x y. Some (id_cmp x y) };

    ghost laws = { order_laws (λ x. x) };

    fn partial_cmp(&self, other: &Prefix) -> Option<Ordering> {
        Some(self.cmp(other))
    }
}

// A prefix feeds a hasher its bytes with zeros after them, and then how many digits it has.
impl Hash for Prefix {
    ghost hash_input = { prefix_input };

    ghost respects_eq = { same_input };

    fn hash<H: Hasher>(&self, state: &mut H) {
        self.bytes.hash(state);
        self.hex_len.hash(state);
    }
}

impl fmt::Display for Prefix {
    ghost output = { λ prefix. Some (hex_text prefix.digits) };

    fn fmt<W: fmt::Write>(&self, f: &mut fmt::Formatter<W>) -> fmt::Result {
        let mut buffer = [0u8; 64];
        let digits = &mut buffer[..self.hex_len];
        f.write_str(self.hex_to_buf(digits))
    }
}
