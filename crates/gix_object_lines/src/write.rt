//! Writing objects, and why it stops.

ghost use Rattle.std.specs.Prelude.{◌≡◌, ◌+◌, ◌^◌, ◌≤◌, [], ◌∷◌, OnOk, OnErr, MatchOption, flat_map, length, option_map};
ghost use Rattle.std.specs.Io.KnownBytes.{Appends};
ghost use Rattle.gix_hash.specs.Writes.{AppendsFewer};
ghost use Rattle.gix_object_lines.specs.Pieces.{WritesPieces};
ghost use Rattle.gix_object_lines.specs.declared.write.Error.TheVariants.{Header};

use crate::encode;
pub use gix_hash::write::write_bytes;
use std::io;

/// Why a name is no tag's.
#[derive(Debug, Clone, Copy, PartialEq, Eq, thiserror::Error)]
pub enum TagNameError {
    /// It begins with `-`, which commands read as an option.
    #[error("a tag's name must not begin with a dash")]
    StartsWithDash,
    /// It is no partial name of a reference.
    #[error("the tag's name is no name of a reference")]
    InvalidRefName,
}

/// Why a name is no entry's of a tree.
#[derive(Debug, Clone, Copy, PartialEq, Eq, thiserror::Error)]
pub enum FilenameError {
    /// It holds a zero byte, which would end it.
    #[error("a name in a tree must not hold a zero byte")]
    NullbyteInFilename,
}

/// Why an object wasn't written whole.
#[derive(Debug, Drop, thiserror::Error)]
pub enum Error {
    /// The writer failed. Over memory: a growth was refused.
    #[error("the writer failed")]
    Writer(io::Error),
    /// A value in the object's header lines can't be spelled.
    #[error(transparent)]
    Header(encode::Error),
    /// The name is no tag's.
    #[error(transparent)]
    TagName(TagNameError),
    /// A name is no entry's of a tree.
    #[error(transparent)]
    Filename(FilenameError),
}

/// Writes the parts in order. If the writer fails, it has taken a beginning of them.
pub fn write_parts<W: io::Write>(out: &mut W, parts: &[&[u8]]) -> io::Result<()>
    ensures ok { OnOk result (Appends (W.contents out.old) (W.contents out.new)
        (flat_map (λ part. part.now) parts.now)) }
    ensures err { OnErr result (AppendsFewer (W.contents out.old) (W.contents out.new)
        (flat_map (λ part. part.now) parts.now)) }
{
    for part in parts {
        write_bytes(out, part)?;
    }
    Ok(())
}

/// Writes a piece of an object, given in parts. If it is refused, returns `Header` of the cause and
/// writes nothing.
pub fn write_piece<W: io::Write>(
    refused: Option<encode::Error>,
    parts: &[&[u8]],
    out: &mut W,
) -> Result<(), Error>
    ensures { let text = flat_map (λ part. part.now) parts.now in
        WritesPieces (W.contents out.old) (W.contents out.new)
        (record { text = text; cause = option_map Header refused } ∷ []) result }
{
    if let Some(cause) = refused {
        return Err(Error::Header(cause));
    }
    if let Err(error) = write_parts(out, parts) {
        return Err(Error::Writer(error));
    }
    Ok(())
}

/// This length and those of the parts; `None` if the sum is more than 18,446,744,073,709,551,615.
pub fn add_lengths(before: u64, parts: &[&[u8]]) -> Option<u64>
    ensures { let text = flat_map (λ part. part.now) parts.now in
        MatchOption result (2 ^ 64 ≤ before + length text) (λ total. total ≡ before + length text) }
{
    let mut total = before;
    for part in parts {
        total = total.checked_add(part.len() as u64)?;
    }
    Some(total)
}
