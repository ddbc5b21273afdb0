//! Lines of a word, a space and the hexadecimal digits of an id, as commits and tags have them.

ghost use Rattle.std.specs.Prelude.{◌≡◌, ◌++◌, ◌∷◌, ℕ, List, IsTrue, IfOk, IfErr, IsOkAnd, OnOk, OnErr};
ghost use Rattle.std.specs.Io.KnownBytes.{Appends};
ghost use Rattle.bstr.specs.BStr.{bstr_bytes};
ghost use Rattle.gix_hash.specs.Id.{id_of};
ghost use Rattle.gix_hash.specs.Views.{IsHexOfId};
ghost use Rattle.gix_hash.specs.Writes.{AppendsFewer};
ghost use Rattle.gix_object_lines.specs.HexLine.{hex_line, is_hex, IsHex, HexLineFault};
ghost use Rattle.gix_object_lines.specs.HexLine as test;
ghost use Rattle.gix_object_lines.specs.declared.decode.Error.TheVariants.{HexDigits};

use crate::cut::{strip_prefix, strip_word};
use crate::decode::Error;
use crate::write::write_bytes;
use bstr::BStr;
use gix_hash::ObjectId;
use std::io;

/// The digits of a line that begins the input, and what follows the line: the word, a space,
/// exactly `hex_len` hexadecimal digits in any letter case, and a line feed.
///
/// The error names the first part that fails, in this order: the word with its space, the digits,
/// the line feed.
pub fn read_hex_line<'a>(
    input: &'a [u8],
    word: &[u8],
    hex_len: usize,
) -> Result<(&'a [u8], &'a [u8]), Error>
    ensures read { IfOk result
        (λ line. (input.now ≡ hex_line word.now line.0.now ++ line.1.now)
        × IsHex hex_len line.0.now) }
    ensures back { (digits rest : List ℕ) → IsHex hex_len digits
        → input.now ≡ hex_line word.now digits ++ rest
        → IsOkAnd result (λ line. (line.0.now ≡ digits) × (line.1.now ≡ rest)) }
    ensures refused { IfErr result (λ error. HexLineFault word.now hex_len input.now error) }
{
    let rest = strip_word(input, word).ok_or(Error::FieldName)?;
    let (digits, rest) = rest.split_at_checked(hex_len).ok_or(Error::HexDigits)?;
    if !is_hexadecimal(digits) {
        return Err(Error::HexDigits);
    }
    match strip_prefix(rest, b"\n") {
        Some(rest) => Ok((digits, rest)),
        None => Err(Error::LineEnd),
    }
}

// Returns whether all bytes are hexadecimal digits.
fn is_hexadecimal(bytes: &[u8]) -> bool
    ensures { result ≡ is_hex bytes.now }
{
    bytes.iter().all(|byte| byte.is_ascii_hexdigit())
}

/// Returns whether it is the digits of an id: 40 or 64 hexadecimal digits, in any letter case.
pub fn is_id(digits: &[u8]) -> bool
    ensures { result ≡ test.is_id digits.now }
{
    (digits.len() == 40 || digits.len() == 64) && is_hexadecimal(digits)
}

/// The id that the digits spell.
pub fn id_of_digits(digits: &[u8]) -> ObjectId
    requires { IsTrue (test.is_id digits.now) }
    ensures { IsHexOfId digits.now (id_of result) }
{
    ObjectId::from_hex(digits).unwrap()
}

/// The id that the digits spell; `HexDigits` if they aren't an id's.
pub fn own_id(digits: BStr<'_>) -> Result<ObjectId, Error>
    ensures own { IfOk result (λ id. IsHexOfId (bstr_bytes digits.entry) (id_of id)) }
    ensures tested { IfOk result (λ id. IsTrue (test.is_id (bstr_bytes digits.entry))) }
    ensures refused { IfErr result
        (λ error. (error ≡ HexDigits) × ¬ IsTrue (test.is_id (bstr_bytes digits.entry))) }
{
    match ObjectId::from_hex(digits.as_bytes()) {
        Ok(id) => Ok(id),
        Err(_) => Err(Error::HexDigits),
    }
}

/// Writes a line: the word, a space, the digits as they are, and a line feed. If the writer fails,
/// it has taken a beginning of the line.
pub fn write_hex_line<W: io::Write>(word: &[u8], digits: &[u8], out: &mut W) -> io::Result<()>
    ensures ok { OnOk result
        (Appends (W.contents out.old) (W.contents out.new) (hex_line word.now digits.now)) }
    ensures err { OnErr result
        (AppendsFewer (W.contents out.old) (W.contents out.new) (hex_line word.now digits.now)) }
{
    write_bytes(out, word)?;
    write_bytes(out, b" ")?;
    write_bytes(out, digits)?;
    write_bytes(out, b"\n")
}
