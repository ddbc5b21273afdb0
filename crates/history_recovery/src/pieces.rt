//! Files of any size, read in pieces.
ghost use Rattle.std.specs.Prelude.{◌≡◌, ◌≤◌, min, IfOk, IsErrOf, length};
ghost use Rattle.gix_ref_file.specs.Calls.{Finds};
ghost use Rattle.gix_ref_file.specs.Tree.{bytes_at, part};
ghost use Rattle.gix_ref_file.specs.declared.files.FileError.TheVariants.{Failed};
ghost use Rattle.history_recovery.specs.Clearing.{max_piece};

use gix_ref_file::{FileError, Files};
use std::alloc::Global;

/// The most bytes of a file that are read at once.
pub(crate) const MAX_PIECE: u64 = 65_536;

/// Returns the bytes of a file from a position on, at most so many, and at most those of a piece.
pub(crate) fn piece_at<F: Files>(
    alloc: Global,
    files: &F,
    path: &[u8],
    at: u64,
    most: u64,
) -> Result<Vec<u8>, FileError>
    ensures bytes { Finds F.is_honest F.history files.now (λ tree. IfOk result
        (λ piece. piece.items ≡ part (bytes_at tree path.now) at (min most max_piece))) }
    ensures few { IfOk result (λ piece. length piece.items ≤ most) }
    ensures failed { IsErrOf result Failed → F.reading_may_fail }
{
    let room = most.min(MAX_PIECE) as usize;
    let mut piece = vec![in alloc; 0; room]?;
    let count = files.read_at(path, at, &mut piece)?.unwrap_or(0);
    piece.truncate(count);
    Ok(piece)
}
