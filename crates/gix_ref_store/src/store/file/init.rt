//! Making a store; folders that are refused: whether a path is below a folder, or in its `refs` or `logs`.

ghost use Rattle.std.specs.Prelude.{◌≡◌, ◌<◌, [], Some, None, length, IfOk, IfErr, IsTrue};
ghost use Rattle.gix_ref_store.specs.Folders as spec;
ghost use Rattle.gix_ref_store.specs.Folders.{IsStoreOf, IsRefused};
ghost use Rattle.gix_ref_store.specs.Stores.{IsUsual};

use crate::options::Options;
use crate::store::file::Store;
use gix_ref_file::Files;
use gix_ref_file::paths::is_path;
use std::alloc::Global;
use thiserror::Error;

/// Why no store is of a folder.
#[derive(Debug, Clone, Copy, PartialEq, Eq, Error)]
pub enum FolderError {
    /// A folder is neither the root, which is empty, nor a path: at most 4,096 bytes, components
    /// with slashes between.
    #[error("a folder of the repository has no clean path")]
    NoPath,
    /// One of the folders lies in the `refs` or `logs` of the other.
    #[error("a folder of the repository lies among the references of the other")]
    Nested,
}

/// Files of which no store was made.
#[derive(Drop)]
pub struct Refused<F: Files> {
    /// The files, as they were given.
    pub files: F,
    /// Why there is no store of them.
    pub error: FolderError,
}

// From how many bytes on Git maps packed references into memory.
const USUAL_THRESHOLD: u64 = 32 * 1024;

impl<F: Files> Store<F> {
    /// The store of the repository in this folder, with the usual options. Refused as `at_opts` is.
    pub fn at(files: F, git_dir: Vec<u8>) -> Result<Store<F>, Refused<F>>
        ensures made { IfOk result (λ store. IsUsual store.options
            × IsStoreOf files git_dir.items None store.options store) }
        ensures refused { IfErr result (IsRefused files git_dir.items None) }
    {
        Store::at_opts(files, git_dir, Options::default())
    }

    /// The store of the repository in this folder; `NoPath` if the folder has no clean path.
    pub fn at_opts(files: F, git_dir: Vec<u8>, options: Options) -> Result<Store<F>, Refused<F>>
        ensures made { IfOk result (IsStoreOf files git_dir.items None options) }
        ensures refused { IfErr result (IsRefused files git_dir.items None) }
    {
        if !is_folder_path(&git_dir) {
            return Err(Refused {
                files,
                error: FolderError::NoPath,
            });
        }
        Ok(Store {
            files,
            git_dir,
            common_dir: None,
            options,
            mmap_threshold: USUAL_THRESHOLD,
        })
    }

    /// The store of the repository at the root of the files, which is never refused.
    pub fn at_root(alloc: Global, files: F, options: Options) -> Store<F>
        ensures { IsStoreOf files [] None options result }
    {
        Store {
            files,
            git_dir: Vec::new(alloc),
            common_dir: None,
            options,
            mmap_threshold: USUAL_THRESHOLD,
        }
    }

    /// The store of a linked worktree, whose own folder is the first, with the usual options.
    /// Refused as `for_linked_worktree_opts` is.
    pub fn for_linked_worktree(
        files: F,
        git_dir: Vec<u8>,
        common_dir: Vec<u8>,
    ) -> Result<Store<F>, Refused<F>>
        ensures made { IfOk result (λ store. IsUsual store.options
            × IsStoreOf files git_dir.items (Some common_dir.items) store.options store) }
        ensures refused { IfErr result (IsRefused files git_dir.items (Some common_dir.items)) }
    {
        Store::for_linked_worktree_opts(files, git_dir, common_dir, Options::default())
    }

    /// The store of a linked worktree, whose own folder is the first, and the other that which all
    /// worktrees share. Returns `NoPath` if one of them has no clean path, and otherwise `Nested`
    /// if one lies in the `refs` or `logs` of the other.
    pub fn for_linked_worktree_opts(
        files: F,
        git_dir: Vec<u8>,
        common_dir: Vec<u8>,
        options: Options,
    ) -> Result<Store<F>, Refused<F>>
        ensures made { IfOk result (IsStoreOf files git_dir.items (Some common_dir.items) options) }
        ensures refused { IfErr result (IsRefused files git_dir.items (Some common_dir.items)) }
    {
        if !is_folder_path(&git_dir) || !is_folder_path(&common_dir) {
            return Err(Refused {
                files,
                error: FolderError::NoPath,
            });
        }
        if !are_apart(&git_dir, &common_dir) {
            return Err(Refused {
                files,
                error: FolderError::Nested,
            });
        }
        Ok(Store {
            files,
            git_dir,
            common_dir: Some(common_dir),
            options,
            mmap_threshold: USUAL_THRESHOLD,
        })
    }
}

// Returns whether a folder may have this path.
fn is_folder_path(folder: &[u8]) -> bool
    ensures { result ≡ spec.is_folder_path folder.now }
{
    folder == b"".as_slice() || is_path(folder)
}

// Returns whether neither folder lies among the names or logs of the other.
fn are_apart(one: &[u8], other: &[u8]) -> bool
    ensures { result ≡ spec.are_apart one.now other.now }
{
    !lies_in_names(one, other) && !lies_in_names(other, one)
}

// Returns whether the path lies in the `refs` or `logs` of the folder.
fn lies_in_names(folder: &[u8], path: &[u8]) -> bool
    ensures { result ≡ spec.lies_in_names folder.now path.now }
{
    if folder == b"".as_slice() {
        return is_of_names(path);
    }
    is_below(folder, path) && is_of_names(&path[folder.len() + 1..])
}

// Returns whether the path is below the folder.
pub(crate) fn is_below(folder: &[u8], path: &[u8]) -> bool
    ensures below { result ≡ spec.is_below folder.now path.now }
    ensures longer { IsTrue result → length folder.now < length path.now }
{
    path.starts_with(folder) && path[folder.len()..].starts_with(b"/")
}

fn is_of_names(path: &[u8]) -> bool
    ensures { result ≡ spec.is_of_names path.now }
{
    path == b"refs".as_slice()
        || path.starts_with(b"refs/")
        || path == b"logs".as_slice()
        || path.starts_with(b"logs/")
}
