//! Bytes that are written one after the other.

ghost use Rattle.std.specs.Prelude.{None, flat_map};
ghost use Rattle.gix_object_lines.specs.Writes.{Writes};
ghost use Rattle.gix_object_tag.specs.TagText.{unspellable_unless};

use gix_object_lines::encode;
use gix_object_lines::write::{Error, write_parts};
use std::io;

/// Writes the parts in order. If the writer fails, it has taken a beginning of them.
pub(crate) fn write_all<W: io::Write>(parts: &[&[u8]], out: &mut W) -> Result<(), Error>
    ensures { Writes (W.contents out.old) (W.contents out.new)
        (flat_map (λ part. part.now) parts.now) None result }
{
    if let Err(error) = write_parts(out, parts) {
        return Err(Error::Writer(error));
    }
    Ok(())
}

/// Writes the parts in order if they have a written form. Otherwise returns `Header(Unspellable)`
/// and writes nothing.
pub(crate) fn write_spellable<W: io::Write>(
    fine: bool,
    parts: &[&[u8]],
    out: &mut W,
) -> Result<(), Error>
    ensures { Writes (W.contents out.old) (W.contents out.new)
        (flat_map (λ part. part.now) parts.now) (unspellable_unless fine) result }
{
    if !fine {
        return Err(Error::Header(encode::Error::Unspellable));
    }
    write_all(parts, out)
}
