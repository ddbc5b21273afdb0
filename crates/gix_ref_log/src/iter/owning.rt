//! The last line before an offset in a log, found in the buffer and copied from it as a `Line`.

ghost use Rattle.std.specs.Prelude.{◌≡◌, ◌≢◌, ◌≤◌, ◌-◌, length, take, drop, IfOk, IfErr, IsErrOf};
ghost use Rattle.gix_ref_file.specs.declared.files.FileError.TheVariants.{Failed};
ghost use Rattle.gix_ref_log.specs.LogOwned.{IsCopied};
ghost use Rattle.gix_ref_log.specs.LogPlace.{IsLastLine, IsTooLong, IsWindow};
ghost use Rattle.gix_ref_log.specs.declared.iter.decode.Error.{Error as DecodeError};
ghost use Rattle.gix_ref_log.specs.declared.iter.error.Error.TheVariants.{Decode, Io, Memory};
ghost use Rattle.gix_ref_log.specs.declared.iter.error.IoError.TheVariants.{LineTooLong, NoBuffer, Reader, Short};

use crate::Line;
use crate::iter::error::Error;
use crate::iter::place::last_line;
use crate::iter::reader::ReadAt;
use crate::line::decode::read_line;
use std::alloc::Global;

/// Where the last line of the log's bytes before `end` begins in the buffer, where it ends there,
/// and a copy of it, `None` if it is no line of a log.
pub(crate) fn read_last<R: ReadAt>(
    alloc: Global,
    log: &R,
    end: u64,
    held: usize,
    buffer: &mut [u8],
) -> Result<(usize, usize, Option<Line>), Error>
    requires ordered { held ≤ end }
    requires within { held ≤ length buffer.old }
    ensures bounds { IfOk result
        (λ found. (found.0 ≤ found.1) × (found.1 ≤ end) × (found.1 ≤ length buffer.new)) }
    ensures len { length buffer.new ≡ length buffer.old }
    ensures told { R.is_honest log.now → IsWindow (R.contents log.now) end held buffer.old
        → IfOk result (λ found. IsLastLine (R.contents log.now) end found.1 found.0 buffer.new) }
    ensures own { IfOk result
        (λ found. IsCopied (take (found.1 - found.0) (drop found.0 buffer.new)) found.2) }
    ensures too_long { R.is_honest log.now → IsWindow (R.contents log.now) end held buffer.old
        → IsErrOf result (Io LineTooLong) → IsTooLong (R.contents log.now) end (length buffer.old) }
    ensures failed { IsErrOf result (Io (Reader Failed)) → R.may_fail }
    ensures short { R.is_honest log.now → R.gives_all
        → IsWindow (R.contents log.now) end held buffer.old → ¬ IsErrOf result (Io Short) }
    ensures some_buffer { ¬ IsErrOf result (Io NoBuffer) }
    ensures no_decode { IfErr result (λ error. (line : DecodeError) → error ≢ Decode line) }
{
    let (start, held) = match last_line(log, end, held, buffer) {
        Ok(found) => found,
        Err(error) => return Err(Error::Io(error)),
    };
    let line = own_line(alloc, &buffer[start..held])?;
    Ok((start, held, line))
}

// A copy of the line that the text spells, and `None` if it spells none.
fn own_line(alloc: Global, text: &[u8]) -> Result<Option<Line>, Error>
    ensures own { IfOk result (λ line. IsCopied text.now line) }
    ensures refused { IfErr result (λ error. error ≡ Memory) }
{
    let Some(read) = read_line(text) else {
        return Ok(None);
    };
    match read.to_owned(alloc) {
        Ok(line) => Ok(Some(line)),
        Err(_) => Err(Error::Memory),
    }
}
