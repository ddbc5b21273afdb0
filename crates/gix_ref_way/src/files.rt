//! Which files are in the way of a file.
ghost use Rattle.std.specs.Prelude.{◌≡◌, ◌≢◌, [], IfOk, IsErrOf};
ghost use Rattle.gix_ref_file.specs.Changes.{is_file_at};
ghost use Rattle.gix_ref_file.specs.Calls.{Finds};
ghost use Rattle.gix_ref_file.specs.declared.files.FileError.TheVariants.{Failed};
ghost use Rattle.gix_ref_way.specs.Ways.{TellsAbove, TellsBelow};

use gix_ref_file::paths::{is_deeper, joined};
use gix_ref_file::{FileError, Files, Place};
use std::alloc::Global;

/// Returns whether a file exists at the path. Returns `Failed` only if a reading failed.
pub fn is_file<F: Files>(files: &F, path: &[u8]) -> Result<bool, FileError>
    ensures found { Finds F.is_honest F.history files.now
        (λ tree. IfOk result (λ found. found ≡ is_file_at tree path.now)) }
    ensures failed { IsErrOf result Failed → F.reading_may_fail }
{
    match files.kind_of(path)? {
        Place::File(_) => Ok(true),
        Place::Folder => Ok(false),
        Place::Absent => Ok(false),
    }
}

/// Returns whether a file exists where the path needs a folder. Returns `Failed` only if a reading
/// failed.
pub fn has_file_above<F: Files>(files: &F, path: &[u8]) -> Result<bool, FileError>
    ensures found { Finds F.is_honest F.history files.now
        (λ tree. IfOk result (λ found. TellsAbove path.now tree found)) }
    ensures failed { IsErrOf result Failed → F.reading_may_fail }
{
    for (end, byte) in path.iter().enumerate() {
        if *byte == b'/' {
            if is_file(files, &path[..end])? {
                return Ok(true);
            }
        }
    }
    Ok(false)
}

/// Returns whether a file exists below a path that isn't the root's. Returns `Failed` only if a
/// reading failed.
pub fn has_file_below<F: Files>(alloc: Global, files: &F, path: &[u8]) -> Result<bool, FileError>
    ensures found { path.now ≢ [] → Finds F.is_honest F.history files.now
        (λ tree. IfOk result (λ found. TellsBelow path.now tree found)) }
    ensures failed { IsErrOf result Failed → F.reading_may_fail }
{
    for name in &files.list(alloc, path)? {
        let inner = joined(alloc, path, name)?;
        if is_file(files, &inner)? {
            return Ok(true);
        }
        if is_deeper(&inner, path) {
            if has_file_below(alloc, files, &inner)? {
                return Ok(true);
            }
        }
    }
    Ok(false)
}
