//! Tests a log, read in pieces: each line is a move, with its two ids, actor and message, and not too long.

ghost use Rattle.std.specs.Prelude.{◌≡◌, ◌<◌, ◌≤◌, ◌+◌, ◌++◌, ◌^◌, length, drop, true, IfErr, IfOk, IsErrOf, IsFalse, MatchOption, MatchResult};
ghost use Rattle.gix_ref_file.specs.Calls.{Finds};
ghost use Rattle.gix_ref_file.specs.Tree.{bytes_at};
ghost use Rattle.gix_ref_file.specs.declared.files.FileError.TheVariants.{Failed};
ghost use Rattle.history_model.specs.Bytes.{Bytes, has_byte};
ghost use Rattle.history_check_names.specs.Logs.{AreParts, HasFault, IsEndless, IsFoundIn, IsLineFault, IsPiece, IsUncut, SpellsEntry, TellsIds, TellsLower, BeginsWithMoves, parts_of};

use crate::pieces::piece_at;
use gix_hash::Kind;
use gix_object_lines::cut::split_once;
use gix_ref_file::{FileError, Files};
use gix_ref_format::ids::parse_hex;
use history_model::limits::MAX_TITLE;
use history_texts::{Actor, hex_digits};
use std::alloc::{AllocError, Global};

/// The most bytes of a line that is read, with its line feed.
const MAX_LOG_LINE: usize = 4_096;

/// Why a log isn't read: a line that is no move's, or one that is too long, by its number, counted
/// from 1; or no memory is left.
#[derive(Clone, Copy)]
pub(crate) enum LogFault {
    Bad(usize),
    Long(usize),
    Memory,
}

impl From<AllocError> for LogFault {
    ghost use Rattle.history_check_names.specs.declared.log.LogFault.TheVariants.{Memory};

    ghost from_gives = { λ _ given. given ≡ Memory };

    fn from(_: AllocError) -> LogFault {
        LogFault::Memory
    }
}

/// Returns the first fault of the log at a path, a file of so many bytes; `None` if each line is a
/// move in the written form, within the limits.
///
/// The log is read in pieces, each from the beginning of a line, so that a long log takes no more
/// memory than one piece.
pub(crate) fn log_fault<F: Files>(
    alloc: Global,
    files: &F,
    kind: Kind,
    path: &[u8],
    len: u64,
) -> Result<Option<LogFault>, FileError>
    requires { Finds F.is_honest F.history files.now
        (λ tree. len ≡ length (bytes_at tree path.now)) }
    ensures found { Finds F.is_honest F.history files.now
        (λ tree. IfOk result (IsFoundIn kind (bytes_at tree path.now))) }
    ensures failed { IsErrOf result Failed → F.reading_may_fail }
{
    let mut at = 0;
    let mut lines = 0;
    'pieces: while at < len {
        let piece = piece_at(alloc, files, path, at, len - at)?;
        match test_piece(alloc, kind, &piece, lines) {
            Ok((last, taken)) => {
                lines = last;
                at += taken as u64;
            }
            Err(fault) => return Ok(Some(fault)),
        }
    }
    Ok(None)
}

// Tests the lines that end in a piece of a log: each is a move in the written form, within the
// limits. So many lines are before the piece. Returns how many are before what is left of it, and
// how many of its bytes were taken, at least one.
//
// If no line ends in the piece, the error is the fault of the line that the piece begins with.
fn test_piece(
    alloc: Global,
    kind: Kind,
    piece: &[u8],
    before: usize,
) -> Result<(usize, usize), LogFault>
    requires room { before + length piece.now < 2 ^ 64 }
    requires next { before + 1 < 2 ^ 64 }
    ensures lines { (log more : Bytes) → BeginsWithMoves kind log (piece.now ++ more) before
        → IfOk result (λ read. BeginsWithMoves kind log (drop read.1 (piece.now ++ more)) read.0) }
    ensures taken { IfOk result (λ read. (0 < read.1) × (read.1 ≤ length piece.now)
        × (read.0 ≤ before + read.1)) }
    ensures wrong { (log more : Bytes) → BeginsWithMoves kind log (piece.now ++ more) before
        → IsPiece piece.now more → IfErr result (HasFault kind log) }
{
    let mut rest = piece;
    let mut number = before;
    'lines: while let Some((line, behind)) = split_once(rest, b'\n') {
        number += 1;
        test_line(alloc, kind, line, number)?;
        rest = behind;
    }
    let taken = piece.len() - rest.len();
    if taken == 0 {
        return Err(unended_line_fault(piece, before + 1));
    }
    Ok((number, taken))
}

// Tests the line of this number, without its line feed.
fn test_line(alloc: Global, kind: Kind, line: &[u8], number: usize) -> Result<(), LogFault>
    requires { IsFalse (has_byte 10 line.now) }
    ensures { MatchResult result (λ _. SpellsEntry kind line.now true)
        (IsLineFault kind line.now number) }
{
    if line.len() >= MAX_LOG_LINE {
        return Err(LogFault::Long(number));
    }
    if !is_entry(alloc, kind, line)? {
        return Err(LogFault::Bad(number));
    }
    Ok(())
}

// Returns what is wrong with a line without a line feed.
fn unended_line_fault(text: &[u8], number: usize) -> LogFault
    ensures { IsEndless text.now number result }
{
    if text.len() > MAX_LOG_LINE {
        LogFault::Long(number)
    } else {
        LogFault::Bad(number)
    }
}

// Returns whether the line, given without its line feed, is a move's.
fn is_entry(alloc: Global, kind: Kind, line: &[u8]) -> Result<bool, AllocError>
    requires { IsFalse (has_byte 10 line.now) }
    ensures { IfOk result (SpellsEntry kind line.now) }
{
    let Some(parts) = LineParts::cut(line) else {
        return Ok(false);
    };
    if !parts.has_ids(kind) {
        return Ok(false);
    }
    if parts.message.len() > MAX_TITLE {
        return Ok(false);
    }
    Ok(Actor::parse(alloc, parts.actor)?.is_some())
}

// Returns whether the digits are those of an id of the kind, in lower case.
fn is_id(kind: Kind, digits: &[u8]) -> bool
    ensures { TellsLower kind digits.now result }
{
    let Some(id) = parse_hex(kind, digits) else {
        return false;
    };
    let mut lower = Kind::hex_buf();
    hex_digits(&id, &mut lower) == digits
}

// `<before> <after> <actor>`, a tab and the message.
#[derive(Clone, Copy)]
struct LineParts<'a> {
    before: &'a [u8],
    after: &'a [u8],
    actor: &'a [u8],
    message: &'a [u8],
}

impl<'a> LineParts<'a> {
    // Returns the parts of a line: no space is in the first two, and no tab in the third.
    fn cut(line: &'a [u8]) -> Option<LineParts<'a>>
        ensures { MatchOption result (IsUncut line.now)
            (λ parts. AreParts (parts_of parts) line.now) }
    {
        let (before, rest) = split_once(line, b' ')?;
        let (after, rest) = split_once(rest, b' ')?;
        let (actor, message) = split_once(rest, b'\t')?;
        Some(LineParts {
            before,
            after,
            actor,
            message,
        })
    }

    // Returns whether the first two are ids of the kind.
    fn has_ids(&self, kind: Kind) -> bool
        ensures { TellsIds kind (parts_of self.now) result }
    {
        if !is_id(kind, self.before) {
            return false;
        }
        is_id(kind, self.after)
    }
}
