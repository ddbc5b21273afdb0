//! The place in the buffer of a log's last line before an offset; the buffer is filled anew if it lacks it.

ghost use Rattle.std.specs.Prelude.{◌≡◌, ◌≢◌, ◌≤◌, false, length, min, IfOk, IfErr, IsErrOf, MatchOption};
ghost use Rattle.gix_object_lines.specs.Bytes.{Lacks};
ghost use Rattle.gix_ref_file.specs.declared.files.FileError.TheVariants.{Failed};
ghost use Rattle.gix_ref_log.specs.LogPlace.{IsLastLine, IsTooLong, IsWindow};
ghost use Rattle.gix_ref_log.specs.LogFound.{IsLineStart};
ghost use Rattle.gix_ref_log.specs.declared.iter.error.IoError.TheVariants.{LineTooLong, NoBuffer, Reader, Short};

use crate::iter::error::IoError;
use crate::iter::reader::ReadAt;
use memchr::memrchr;

/// Where the last line of the log's bytes before `end` begins in the buffer, and where it ends
/// there: the buffer is read anew if it doesn't hold the line whole, and then holds as many of
/// these bytes as it has room for.
pub(crate) fn last_line<R: ReadAt>(
    log: &R,
    end: u64,
    held: usize,
    buffer: &mut [u8],
) -> Result<(usize, usize), IoError>
    requires ordered { held ≤ end }
    requires within { held ≤ length buffer.old }
    ensures bounds { IfOk result
        (λ found. (found.0 ≤ found.1) × (found.1 ≤ end) × (found.1 ≤ length buffer.new)) }
    ensures len { length buffer.new ≡ length buffer.old }
    ensures told { R.is_honest log.now → IsWindow (R.contents log.now) end held buffer.old
        → IfOk result (λ found. IsLastLine (R.contents log.now) end found.1 found.0 buffer.new) }
    ensures too_long { R.is_honest log.now → IsWindow (R.contents log.now) end held buffer.old
        → IsErrOf result LineTooLong → IsTooLong (R.contents log.now) end (length buffer.old) }
    ensures failed { IsErrOf result (Reader Failed) → R.may_fail }
    ensures short { R.is_honest log.now → R.gives_all
        → IsWindow (R.contents log.now) end held buffer.old → ¬ IsErrOf result Short }
    ensures some_buffer { ¬ IsErrOf result NoBuffer }
{
    if let Some(start) = line_start(&buffer[..held], held as u64 == end) {
        return Ok((start, held));
    }
    let held = read_before(log, end, buffer)?;
    match line_start(&buffer[..held], held as u64 == end) {
        Some(start) => Ok((start, held)),
        None => Err(IoError::LineTooLong),
    }
}

// Where the last line begins, if a line feed is before it or the bytes are all that there are.
fn line_start(bytes: &[u8], is_all: bool) -> Option<usize>
    ensures { MatchOption result ((is_all ≡ false) × Lacks 10 bytes.now)
        (IsLineStart bytes.now is_all) }
{
    match memrchr(b'\n', bytes) {
        Some(at) => Some(at + 1),
        None if is_all => Some(0),
        None => None,
    }
}

/// Puts the log's last bytes before `end` into the buffer, as many as it has room for, and returns
/// how many. `Short` if the reading gives fewer: what the buffer held is never taken for bytes of
/// the log.
pub(crate) fn read_before<R: ReadAt>(log: &R, end: u64, buffer: &mut [u8]) -> Result<usize, IoError>
    ensures held { IfOk result (λ held. held ≡ min end (length buffer.old)) }
    ensures len { length buffer.new ≡ length buffer.old }
    ensures told { R.is_honest log.now → end ≤ length (R.contents log.now)
        → IfOk result (λ held. IsWindow (R.contents log.now) end held buffer.new) }
    ensures failed { IsErrOf result (Reader Failed) → R.may_fail }
    ensures short { R.is_honest log.now → R.gives_all → end ≤ length (R.contents log.now)
        → ¬ IsErrOf result Short }
    ensures other { IfErr result (λ error. (error ≢ LineTooLong) × (error ≢ NoBuffer)) }
{
    let held = end.min(buffer.len() as u64) as usize;
    match log.read_at(end - held as u64, &mut buffer[..held]) {
        Ok(count) if count == held => Ok(held),
        Ok(_) => Err(IoError::Short),
        Err(error) => Err(IoError::Reader(error)),
    }
}
