//! Reads parts of a file: so many bytes from a position on, or no more of them than a piece has.

ghost use Rattle.std.specs.Prelude.{◌≡◌, ◌≤◌, length, min, IfOk, IsErrOf};
ghost use Rattle.gix_ref_file.specs.Calls.{Finds};
ghost use Rattle.gix_ref_file.specs.Tree.{bytes_at, part};
ghost use Rattle.gix_ref_file.specs.declared.files.FileError.TheVariants.{Failed};
ghost use Rattle.history_check_names.specs.Logs.{max_piece};

use gix_ref_file::{FileError, Files};
use std::alloc::Global;

/// The most bytes of a piece, more than a line may have.
pub(crate) const MAX_PIECE: u64 = 65_536;

/// Returns the bytes of a file from a position on, at most so many, and at most those of a piece.
pub(crate) fn piece_at<F: Files>(
    alloc: Global,
    files: &F,
    path: &[u8],
    at: u64,
    most: u64,
) -> Result<Vec<u8>, FileError>
    ensures bytes { Finds F.is_honest F.history files.now (λ tree. IfOk result
        (λ piece. piece.items ≡ part (bytes_at tree path.now) at (min most max_piece))) }
    ensures few { IfOk result (λ piece. length piece.items ≤ most) }
    ensures failed { IsErrOf result Failed → F.reading_may_fail }
{
    part_at(alloc, files, path, at, most.min(MAX_PIECE))
}

/// Returns the bytes of a file from a position on, at most so many.
pub(crate) fn part_at<F: Files>(
    alloc: Global,
    files: &F,
    path: &[u8],
    at: u64,
    most: u64,
) -> Result<Vec<u8>, FileError>
    ensures bytes { Finds F.is_honest F.history files.now (λ tree. IfOk result
        (λ found. found.items ≡ part (bytes_at tree path.now) at most)) }
    ensures few { IfOk result (λ found. length found.items ≤ most) }
    ensures failed { IsErrOf result Failed → F.reading_may_fail }
{
    let mut found = vec![in alloc; 0; most as usize]?;
    let count = files.read_at(path, at, &mut found)?.unwrap_or(0);
    found.truncate(count);
    Ok(found)
}
