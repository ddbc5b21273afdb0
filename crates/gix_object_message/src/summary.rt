//! A title in one line.

ghost use Rattle.std.specs.Prelude.{◌≡◌, IfOk, map};
ghost use Rattle.std.specs.List.{join_with_byte};
ghost use Rattle.gix_object_message.specs.Lines.{lines_of};
ghost use Rattle.gix_object_message.specs.White.{trim_end};

use crate::lines::split_line;
use crate::white::trim_end;
use std::alloc::{AllocError, Global};

/// The lines of a text, each without white space at its end, with one space between them.
pub(crate) fn join_lines(alloc: Global, text: &[u8]) -> Result<Vec<u8>, AllocError>
    ensures { IfOk result
        (λ joined. joined.items ≡ join_with_byte 32 (map trim_end (lines_of text.now))) }
{
    let mut joined = Vec::with_capacity(alloc, text.len())?;
    let mut rest = text;
    while let Some((line, behind)) = split_line(rest) {
        joined.extend_from_slice(trim_end(line))?;
        if !behind.is_empty() {
            joined.push(b' ')?;
        }
        rest = behind;
    }
    Ok(joined)
}
