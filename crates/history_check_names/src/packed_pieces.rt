//! Tests the lines of a long `packed-refs` in pieces, so that what is none isn't read whole.

ghost use Rattle.std.specs.Prelude.{◌≡◌, length, IfErr, IfOk, IsErrOf, OnOk};
ghost use Rattle.gix_ref_file.specs.Calls.{Finds};
ghost use Rattle.gix_ref_file.specs.Tree.{bytes_at};
ghost use Rattle.gix_ref_file.specs.declared.files.FileError.TheVariants.{Failed};
ghost use Rattle.history_model.specs.Places.{packed_place};
ghost use Rattle.history_check_names.specs.PackedRead.{HasGoodFront, IsLinesEnd, IsPackedCause, MayBePacked};

use crate::file::file_len;
use crate::packed::{Packed, whole_lines};
use crate::pieces::{MAX_PIECE, part_at, piece_at};
use gix_hash::Kind;
use gix_ref_file::{FileError, Files};
use history_store::PACKED;
use history_texts::OpenError;
use std::alloc::Global;

/// Tests `packed-refs`, if it is longer than a piece, 65,536 bytes: the lines that end in its first
/// piece are a file of packed names, and after its header each line ends within a piece. Otherwise
/// returns a cause that holds: `BadPacked` with the number of a line, `File` if a call of the files
/// failed, or `Memory` if no memory is left.
///
/// No more is read at once than a piece, or the lines before the one that has no such end.
pub fn test_long_packed<F: Files>(alloc: Global, files: &F, kind: Kind) -> Result<(), OpenError>
    ensures tested { Finds F.is_honest F.history files.now
        (λ tree. OnOk result (MayBePacked kind (bytes_at tree packed_place))) }
    ensures wrong { Finds F.is_honest F.history files.now
        (λ tree. IfErr result (IsPackedCause F.reading_may_fail kind (bytes_at tree packed_place))) }
{
    let Some(len) = file_len(files, PACKED)? else {
        return Ok(());
    };
    if len <= MAX_PIECE {
        return Ok(());
    }
    next_number(alloc, files, kind, MAX_PIECE)?;
    let end = lines_end(alloc, files, len)?;
    if end == len {
        return Ok(());
    }
    let number = next_number(alloc, files, kind, end)?;
    Err(OpenError::BadPacked(number))
}

// Returns the number of the line after those that end in the first bytes, so many, of
// `packed-refs`, if these lines are a file of packed names.
fn next_number<F: Files>(
    alloc: Global,
    files: &F,
    kind: Kind,
    most: u64,
) -> Result<usize, OpenError>
    ensures good { Finds F.is_honest F.history files.now (λ tree. IfOk result
        (HasGoodFront kind (bytes_at tree packed_place) most)) }
    ensures wrong { Finds F.is_honest F.history files.now
        (λ tree. IfErr result (IsPackedCause F.reading_may_fail kind (bytes_at tree packed_place))) }
{
    let front = part_at(alloc, files, PACKED, 0, most)?;
    let (whole, count) = whole_lines(&front);
    Packed::read(alloc, kind, whole)?;
    Ok(count + 1)
}

// Returns how many bytes of `packed-refs`, which has so many, are before the first one from which
// on no line ends within a piece: all, if there is none. Its header may have any length, but if it
// has no end, no bytes are.
fn lines_end<F: Files>(alloc: Global, files: &F, len: u64) -> Result<u64, FileError>
    requires { Finds F.is_honest F.history files.now
        (λ tree. len ≡ length (bytes_at tree packed_place)) }
    ensures found { Finds F.is_honest F.history files.now
        (λ tree. IfOk result (IsLinesEnd (bytes_at tree packed_place))) }
    ensures failed { IsErrOf result Failed → F.reading_may_fail }
{
    let mut in_header = piece_at(alloc, files, PACKED, 0, 1)?.starts_with(b"#");
    let mut at = 0;
    'pieces: while at < len {
        let piece = piece_at(alloc, files, PACKED, at, len - at)?;
        let (whole, _) = whole_lines(&piece);
        if !whole.is_empty() {
            in_header = false;
            at += whole.len() as u64;
        } else if in_header {
            at += (len - at).min(MAX_PIECE);
        } else {
            return Ok(at);
        }
    }
    if in_header { Ok(0) } else { Ok(at) }
}
