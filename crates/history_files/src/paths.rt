//! Paths of files: whether one is well-formed, and the names between its slashes.

ghost use Rattle.std.specs.Prelude.{◌≡◌, map, not, IfOk};
ghost use Rattle.std.specs.List.{list_any};
ghost use Rattle.history_model.specs.Bytes.{is_empty};
ghost use Rattle.history_model.specs.FileMap.{components, is_path};

use std::alloc::{AllocError, Global};

/// Returns whether a path may be a file's: no name is empty, and no byte is zero.
pub fn is_file_path(path: &[u8]) -> bool
    ensures { result ≡ is_path path.now }
{
    has_names(path) && !path.contains(&0)
}

fn has_names(path: &[u8]) -> bool
    ensures { result ≡ not (list_any is_empty (components path.now)) }
{
    path.split(|byte| *byte == b'/')
        .all(|name| !name.is_empty())
}

/// Returns the names between the slashes of a path.
pub(crate) fn names_of(alloc: Global, path: &[u8]) -> Result<Vec<&[u8]>, AllocError>
    ensures { IfOk result (λ names. map (λ name. name.now) names.items ≡ components path.now) }
{
    path.split(|byte| *byte == b'/').collect(alloc)
}
