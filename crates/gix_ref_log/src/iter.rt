//! `forward` and `reverse`, which begin the walks over a log's lines from its first and from its last line.

ghost use Rattle.std.specs.Prelude.{◌≡◌, ◌↔◌, [], length, reverse as reversed, IfOk, IsErrOf};
ghost use Rattle.gix_ref_file.specs.declared.files.FileError.TheVariants.{Failed};
ghost use Rattle.gix_ref_log.specs.LogLine.{split_lines};
ghost use Rattle.gix_ref_log.specs.LogForward.{lines_of};
ghost use Rattle.gix_ref_log.specs.LogBackward.{StandsAt};
ghost use Rattle.gix_ref_log.specs.LogReverse.{stand_of};
ghost use Rattle.gix_ref_log.specs.declared.iter.error.IoError.TheVariants.{LineTooLong, NoBuffer, Reader, Short};

mod backward;
pub mod decode;
mod error;
mod lines;
mod owning;
mod place;
mod reader;

pub use crate::iter::backward::Reverse;
pub use crate::iter::error::{Error, IoError};
pub use crate::iter::lines::Forward;
use crate::iter::place::read_before;
pub use crate::iter::reader::{FileAt, ReadAt};
use crate::line::decode::without_feed;
use std::alloc::Global;

/// Reads a log from its beginning. Each of its lines comes as what it says; if it is no line of a
/// log, it comes as one error with its number, and then the next line comes.
///
/// Lines end with a line feed, which the last may lack; a carriage return before it is a byte of
/// the message.
pub fn forward(lines: &[u8]) -> Forward<'_>
    ensures lines { (lines_of result).left ≡ split_lines lines.now }
    ensures given { (lines_of result).given ≡ 0 }
{
    let rest = if lines.is_empty() {
        None
    } else {
        Some(without_feed(lines))
    };
    Forward { rest, given: 0 }
}

/// Reads a log from its end, through a buffer of any size above zero. Each of its lines comes as
/// what it says; if it is no line of a log, it comes as one error with its number from the end, and
/// then the line before it comes.
///
/// A line fits if the buffer has room for it and one line feed, the log's first line if it has room
/// for it alone. A line that doesn't fit comes as one error, and nothing after it; so does a
/// reading that fails, or refused memory.
///
/// Here an empty buffer is `NoBuffer`, a reading that fails its own error, and one that gives fewer
/// bytes than the log has there `Short`: what the buffer held before is never given as a line.
pub fn reverse<R: ReadAt + Drop>(
    alloc: Global,
    log: R,
    buffer: &mut [u8],
) -> Result<Reverse<'_, R>, IoError>
    ensures begins { R.is_honest log → IfOk result (λ reader. (reader.log ≡ log)
        × StandsAt (R.contents log) (stand_of reader) (reversed (split_lines (R.contents log)))) }
    ensures given { IfOk result (λ reader. reader.given ≡ 0) }
    ensures room { IfOk result (λ reader. length reader.buffer.now ≡ length buffer.old) }
    ensures empty { IsErrOf result NoBuffer ↔ (buffer.old ≡ []) }
    ensures failed { IsErrOf result (Reader Failed) → R.may_fail }
    ensures short { R.is_honest log → R.gives_all → ¬ IsErrOf result Short }
    ensures some_line { ¬ IsErrOf result LineTooLong }
{
    if buffer.is_empty() {
        return Err(IoError::NoBuffer);
    }
    let end = match log.len() {
        Ok(len) => len,
        Err(error) => return Err(IoError::Reader(error)),
    };
    let held = read_before(&log, end, buffer)?;
    let kept = without_feed(&buffer[..held]).len();
    Ok(Reverse {
        alloc,
        log,
        buffer,
        held: kept,
        end: end - (held - kept) as u64,
        is_done: end == 0,
        given: 0,
    })
}
