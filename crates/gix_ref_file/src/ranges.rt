//! Where the paths of a folder lie in the order of paths, which goes by bytes.
ghost use Rattle.std.specs.Prelude.{◌≡◌, ◌++◌, ◌∷◌, ◌≤◌, ◌<◌, [], length, slice_index, IfOk, IfSome};
ghost use Rattle.gix_ref_file.specs.Below.{IsStart, IsEnd, IsBehind};

use std::alloc::{AllocError, Global};
use std::ops::Bound;

/// The range of all paths below a folder: from `folder/` on, before `folder0`, since `0` is the
/// byte after `/`.
pub fn below(alloc: Global, folder: &[u8]) -> Result<(Bound<Vec<u8>>, Bound<Vec<u8>>), AllocError>
    ensures { IfOk result (λ range. IsStart folder.now range.0 × IsEnd folder.now range.1) }
{
    if folder.is_empty() {
        return Ok((Bound::Unbounded, Bound::Unbounded));
    }
    let first = with_byte(alloc, folder, b'/')?;
    let end = with_byte(alloc, folder, b'0')?;
    Ok((Bound::Included(first), Bound::Excluded(end)))
}

// A path and one more byte.
fn with_byte(alloc: Global, path: &[u8], byte: u8) -> Result<Vec<u8>, AllocError>
    ensures { IfOk result (λ longer. longer.items ≡ path.now ++ byte ∷ []) }
{
    let mut longer = path.to_vec(alloc)?;
    longer.push(byte)?;
    Ok(longer)
}

/// The place after a path below a folder, and after all of its subfolder if it is in one.
pub fn behind(alloc: Global, folder: &[u8], path: &[u8]) -> Result<Bound<Vec<u8>>, AllocError>
    ensures { IfOk result (λ next. IsBehind folder.now path.now next) }
{
    match slash_from(path, folder.len() + 1) {
        Some(at) => Ok(Bound::Included(with_byte(alloc, &path[..at], b'0')?)),
        None => Ok(Bound::Excluded(path.to_vec(alloc)?)),
    }
}

// Where the first slash is from a place on.
fn slash_from(path: &[u8], from: usize) -> Option<usize>
    ensures { IfSome result (λ at. (from ≤ at) × (at < length path.now)
        × (slice_index path.now at ≡ 47)) }
{
    (from..path.len()).find(|at| path[*at] == b'/')
}
