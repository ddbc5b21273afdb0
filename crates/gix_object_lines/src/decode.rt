//! Reading, and why bytes are refused.

ghost use Rattle.std.specs.Prelude.{◌≡◌, ◌++◌, ◌^◌, ◌<◌, ◌≤◌, ℕ, List, Ok, length, drop, IfOk, IfErr};
ghost use Rattle.gix_object_lines.specs.Header.{header_text, HeaderFault};
ghost use Rattle.gix_object_lines.specs.declared.kind.Kind.{Kind};
ghost use Rattle.gix_object_lines.specs.declared.decode.LooseHeaderDecodeError.TheVariants.{ObjectHeader};

use crate::cut::split_once;
use crate::decimal::read_unsigned;
use crate::{Kind, kind};
use thiserror::Error;

/// Why bytes aren't what a reader reads.
#[derive(Debug, Clone, Copy, PartialEq, Eq, Error)]
pub enum Error {
    /// The line doesn't begin with the word that is expected there and a space.
    #[error("another field was expected")]
    FieldName,
    /// The word is followed by fewer bytes than the id has digits, or one of them is no hexadecimal
    /// digit.
    #[error("an id of hexadecimal digits was expected")]
    HexDigits,
    /// The value isn't followed by a line feed.
    #[error("the end of the line was expected")]
    LineEnd,
    /// The line isn't a name, a space, an email between `<` and `>` and a space, or name or email
    /// has a line feed.
    #[error("a name, an email between angle brackets and a time were expected")]
    InvalidActor,
    /// The text, or what follows an actor's email, isn't seconds of 64 bits, a space, a sign, two
    /// digits of hours and two of minutes.
    #[error("seconds and an offset were expected")]
    InvalidTime,
    /// No memory is left.
    #[error("out of memory")]
    Memory,
}

/// Why bytes don't begin with the header of an object.
#[derive(Debug, Clone, Copy, PartialEq, Eq, Error)]
pub enum LooseHeaderDecodeError {
    /// The size isn't a decimal number without a leading zero, of at most
    /// 18,446,744,073,709,551,615.
    #[error("the object's size is no number")]
    ParseIntegerError,
    /// The kind isn't followed by a space, or the size not by a zero byte.
    #[error("the header has no space or no zero byte")]
    InvalidHeader,
    /// What comes before the first space names no kind.
    #[error(transparent)]
    ObjectHeader(kind::Error),
}

impl From<kind::Error> for LooseHeaderDecodeError {
    ghost from_gives = { λ error given. given ≡ ObjectHeader error };

    fn from(error: kind::Error) -> LooseHeaderDecodeError {
        LooseHeaderDecodeError::ObjectHeader(error)
    }
}

/// The kind of an object, the length of its content in bytes, and how many bytes its header takes,
/// from bytes that begin with it: the kind's word, one space, the length in decimal without a
/// leading zero, and a zero byte.
///
/// The error names the first part that fails, in this order: the space, the kind, the zero byte,
/// the number.
pub fn loose_header(input: &[u8]) -> Result<(Kind, u64, usize), LooseHeaderDecodeError>
    ensures read { IfOk result (λ header. (header.2 ≡ length (header_text header.0 header.1))
        × (input.now ≡ header_text header.0 header.1 ++ drop header.2 input.now)) }
    ensures back { (kind : Kind) (size : ℕ) (content : List ℕ) → size < 2 ^ 64
        → input.now ≡ header_text kind size ++ content
        → result ≡ Ok (kind, size, length (header_text kind size)) }
    ensures refused { IfErr result (λ error. HeaderFault input.now error) }
{
    let (word, rest) = split_once(input, b' ').ok_or(LooseHeaderDecodeError::InvalidHeader)?;
    let kind = Kind::from_bytes(word)?;
    let (digits, content) = split_once(rest, 0).ok_or(LooseHeaderDecodeError::InvalidHeader)?;
    let size = read_unsigned(digits).ok_or(LooseHeaderDecodeError::ParseIntegerError)?;
    Ok((kind, size, input.len() - content.len()))
}
