//! The paths that edits concern (files, locks, logs): whether each is one, and none occurs twice.

ghost use Rattle.std.specs.Prelude.{◌≡◌, ◌++◌, IfOk, OnOk, map};
ghost use Rattle.std.specs.List.{list_all};
ghost use Rattle.gix_ref_file.specs.Tree as tree;
ghost use Rattle.gix_ref_lock.specs.Locks.{lock_of};
ghost use Rattle.gix_ref_store.specs.Stores.{base_of};
ghost use Rattle.gix_ref_transaction.specs.Paths.{bytes_of, edit_paths, has_twice, name_paths};

use gix_ref_edit::RefEdit;
use gix_ref_file::Files;
use gix_ref_file::paths::is_path;
use gix_ref_store::store::file::Store;
use std::alloc::{AllocError, Global};
use std::collections::BTreeSet;

// Returns the paths that the edits concern, and those of packed records and of their lock.
pub(crate) fn paths_of<F: Files>(
    alloc: Global,
    store: &Store<F>,
    edits: &[RefEdit],
) -> Result<Vec<Vec<u8>>, AllocError>
    ensures { IfOk result (λ paths. map bytes_of paths.items ≡ edit_paths (base_of store.now) edits.now) }
{
    let mut paths = Vec::new(alloc);
    let place = store.packed_refs_path(alloc)?;
    let lock = lock_path(alloc, &place)?;
    paths.push(place)?;
    paths.push(lock)?;
    add_paths(alloc, store, edits, &mut paths)?;
    Ok(paths)
}

// Adds the paths of the edits.
fn add_paths<F: Files>(
    alloc: Global,
    store: &Store<F>,
    edits: &[RefEdit],
    paths: &mut Vec<Vec<u8>>,
) -> Result<(), AllocError>
    ensures { OnOk result (map bytes_of paths.new.items
        ≡ map bytes_of paths.old.items ++ name_paths (base_of store.now) edits.now) }
{
    for edit in edits {
        let place = store.reference_path(alloc, edit.name.as_ref())?;
        let lock = lock_path(alloc, &place)?;
        paths.push(place)?;
        paths.push(lock)?;
        paths.push(store.reflog_path(alloc, edit.name.as_ref())?)?;
    }
    Ok(())
}

// Returns the path of a place's lock.
fn lock_path(alloc: Global, place: &[u8]) -> Result<Vec<u8>, AllocError>
    ensures { IfOk result (λ path. path.items ≡ lock_of place.now) }
{
    let mut path = place.to_vec(alloc)?;
    path.extend_from_slice(b".lock")?;
    Ok(path)
}

// Returns whether each of them is a path.
pub(crate) fn are_paths(paths: &[Vec<u8>]) -> bool
    ensures { result ≡ list_all (λ path. tree.is_path path.items) paths.now }
{
    paths.iter().all(|path| is_path(path))
}

// Returns whether a path occurs twice.
pub(crate) fn have_twice(alloc: Global, paths: &[Vec<u8>]) -> Result<bool, AllocError>
    ensures { IfOk result (λ twice. twice ≡ has_twice (map bytes_of paths.now)) }
{
    let mut seen = BTreeSet::new(alloc);
    let mut rest = paths;
    'paths: while let Some((path, others)) = rest.split_first() {
        if !seen.insert(path.as_slice())? {
            return Ok(true);
        }
        rest = others;
    }
    Ok(false)
}
