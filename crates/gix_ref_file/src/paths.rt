//! The parts of a path.
ghost use Rattle.std.specs.Prelude.{◌≡◌, ◌-◌, ◌≤◌, ◌&&◌, not, length, nat_lt, nat_le, IfOk};
ghost use Rattle.std.specs.List.{suffix_len, after_last};
ghost use Rattle.gix_ref_file.specs.Tree.{is_slash, is_component, is_path, max_path, parent, under};

use std::alloc::{AllocError, Global};

/// The most bytes that a path has.
pub const MAX_PATH: usize = 4096;

/// Returns whether these bytes are a path: at most 4,096, components with slashes between.
pub fn is_path(path: &[u8]) -> bool
    ensures { result ≡ is_path path.now }
{
    path.len() <= MAX_PATH
        && path
            .split(|byte| *byte == b'/')
            .all(|part| is_component(part))
}

/// Returns whether these bytes are a component of a path: at least one, not `.` or `..`, and no
/// zero byte among them.
pub fn is_component(part: &[u8]) -> bool
    ensures { result ≡ is_component part.now }
{
    !part.is_empty() && part != b".".as_slice() && part != b"..".as_slice() && !part.contains(&0)
}

/// Returns whether the path is longer than the folder's, and no longer than a path may be.
pub fn is_deeper(path: &[u8], folder: &[u8]) -> bool
    ensures { result
        ≡ (nat_lt (length folder.now) (length path.now) && nat_le (length path.now) max_path) }
{
    folder.len() < path.len() && path.len() <= MAX_PATH
}

/// The path, from the root, of this path in a folder.
pub fn joined(alloc: Global, folder: &[u8], path: &[u8]) -> Result<Vec<u8>, AllocError>
    ensures { IfOk result (λ joined. joined.items ≡ under folder.now path.now) }
{
    let mut joined = Vec::from_slice(alloc, folder)?;
    if !folder.is_empty() {
        joined.push(b'/')?;
    }
    joined.extend_from_slice(path)?;
    Ok(joined)
}

// Where the last part begins.
fn last_part_start(path: &[u8]) -> usize
    ensures within { result ≤ length path.now }
    ensures start { result ≡ length path.now - suffix_len (λ byte. not (is_slash byte)) path.now }
{
    let mut start = path.len();
    while start > 0 && path[start - 1] != b'/' {
        start -= 1;
    }
    start
}

/// The folder that a path is in.
pub fn parent(path: &[u8]) -> &[u8]
    ensures { result.now ≡ parent path.now }
{
    &path[..last_part_start(path).saturating_sub(1)]
}

/// The last part.
pub fn name(path: &[u8]) -> &[u8]
    ensures { result.now ≡ after_last is_slash path.now }
{
    &path[last_part_start(path)..]
}
