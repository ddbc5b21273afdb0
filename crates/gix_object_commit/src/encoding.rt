//! The line for the encoding of a commit's message.

ghost use Rattle.std.specs.Prelude.{ℕ, List, Option, None, ◌≡◌, ◌++◌, IfOk, IfErr, IfSome, IsOkAnd, codes};
ghost use Rattle.std.specs.Option.{option_map};
ghost use Rattle.bstr.specs.BStr.{bstr_bytes};
ghost use Rattle.gix_object_lines.specs.Bytes.{IsBeginningOf, Lacks};
ghost use Rattle.gix_object_commit.specs.Commit.{encoding_text};
ghost use Rattle.gix_object_commit.specs.Faults.{EncodingFault};

use bstr::BStr;
use gix_object_lines::cut::{split_once, strip_prefix};
use gix_object_lines::decode::Error;

/// The name of the encoding, if its line begins the input, and what follows. Returns `LineEnd` if
/// the line has no end.
pub fn read_encoding(input: &[u8]) -> Result<(Option<BStr<'_>>, &[u8]), Error>
    ensures read { IfOk result
        (λ read. (input.now ≡ encoding_text (option_map bstr_bytes read.0) ++ read.1.now)
        × IfSome (option_map bstr_bytes read.0) (Lacks 10)
        × (option_map bstr_bytes read.0 ≡ None → ¬ IsBeginningOf (codes "encoding ") input.now)) }
    ensures every { (encoding : Option (List ℕ)) (rest : List ℕ) → IfSome encoding (Lacks 10)
        → (encoding ≡ None → ¬ IsBeginningOf (codes "encoding ") rest)
        → input.now ≡ encoding_text encoding ++ rest
        → IsOkAnd result (λ read. (option_map bstr_bytes read.0 ≡ encoding) × (read.1.now ≡ rest)) }
    ensures refused { IfErr result (λ error. EncodingFault input.now error) }
{
    let Some(text) = strip_prefix(input, b"encoding ") else {
        return Ok((None, input));
    };
    let (name, rest) = split_once(text, b'\n').ok_or(Error::LineEnd)?;
    Ok((Some(BStr::new(name)), rest))
}
