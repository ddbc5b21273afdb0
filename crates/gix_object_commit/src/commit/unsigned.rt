//! Writing a commit without its signatures.

ghost use Rattle.std.specs.Prelude.{◌≡◌, [], ◌∷◌, map};
ghost use Rattle.gix_object_lines.specs.Writes.{Writes};
ghost use Rattle.gix_object_commit.specs.OwnedText.{own_field, own_refusal_with};
ghost use Rattle.gix_object_commit.specs.Signing as spec;
ghost use Rattle.gix_object_commit.specs.Signing.{unsigned, unsigned_text};
ghost use Rattle.gix_object_commit.specs.Writing.{field_piece, is_encoding_first};
ghost use Rattle.gix_object_lines.specs.Pieces.{WritesPieces};

use crate::commit::write::write_message;
use crate::commit::write_owned::{is_named_encoding, write_own_front, write_own_header};
use crate::commit::{Commit, ExtraHeader, SIGNATURE_FIELD_NAME, SIGNATURE_FIELD_NAME_SHA256};
use gix_object_lines::write::Error;
use std::io;

/// Returns whether the header holds a signature of the commit, over its content with ids of either
/// hash function.
pub(crate) fn is_signature(header: &ExtraHeader) -> bool
    ensures { result ≡ spec.is_signature header.now }
{
    let name = header.name.as_bytes();
    name == SIGNATURE_FIELD_NAME.as_bytes() || name == SIGNATURE_FIELD_NAME_SHA256.as_bytes()
}

/// Writes the commit as `write_to` does, without the headers that hold signatures.
pub(crate) fn write_unsigned<W: io::Write>(commit: &Commit, out: &mut W) -> Result<(), Error>
    ensures { Writes (W.contents out.old) (W.contents out.new) (unsigned_text commit.now)
        (own_refusal_with (unsigned commit.now.extra_headers.items) commit.now) result }
{
    let headers = commit.extra_headers.as_slice();
    write_own_front(commit, is_encoding_first_unsigned(headers), out)?;
    write_unsigned_headers(headers, out)?;
    write_message(commit.message.as_bstr(), out)
}

// Returns whether the first header but signatures is named as the line for the encoding is.
fn is_encoding_first_unsigned(headers: &[ExtraHeader]) -> bool
    ensures { result ≡ is_encoding_first (map own_field (unsigned headers.now)) }
{
    for header in headers {
        if !is_signature(header) {
            return is_named_encoding(header);
        }
    }
    false
}

fn write_unsigned_headers<W: io::Write>(headers: &[ExtraHeader], out: &mut W) -> Result<(), Error>
    ensures { WritesPieces (W.contents out.old) (W.contents out.new)
        (map field_piece (map own_field (unsigned headers.now))) result }
{
    for header in headers {
        write_unless_signature(header, out)?;
    }
    Ok(())
}

fn write_unless_signature<W: io::Write>(header: &ExtraHeader, out: &mut W) -> Result<(), Error>
    ensures { WritesPieces (W.contents out.old) (W.contents out.new)
        (map field_piece (map own_field (unsigned (header.now ∷ [])))) result }
{
    if is_signature(header) {
        return Ok(());
    }
    write_own_header(header, out)
}
