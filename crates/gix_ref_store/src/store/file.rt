//! A store of references in a tree of files (`Store`): its files, folders, options, the path of `packed-refs`.

ghost use Rattle.std.specs.Prelude.{◌≡◌, IfOk, option_map};
ghost use Rattle.gix_ref_store.specs.Places.{packed_place};
ghost use Rattle.gix_ref_store.specs.Stores.{base_of};

mod asked;
pub mod find;
pub mod follow;
mod gather;
mod init;
pub mod iter;
mod known;
mod listing;
pub mod log;
mod logged;
pub mod loose;
mod own;
mod packed;
pub mod peel;
mod place;
mod pristine;
mod raw_ext;
mod search;
mod walk;

use crate::options::Options;
pub use crate::store::file::init::{FolderError, Refused};
pub use crate::store::file::listing::Platform;
pub use crate::store::file::logged::Platform as LogPlatform;
use crate::store::file::place::push_under;
pub use crate::store::file::raw_ext::ReferenceExt;
use gix_ref_file::Files;
use std::alloc::{AllocError, Global};

/// The references of a repository, or of one of its worktrees, in a tree of files.
#[derive(Drop)]
pub struct Store<F> {
    /// The files.
    pub files: F,
    pub(crate) git_dir: Vec<u8>,
    // `None` if the folder of the worktree is the shared one.
    pub(crate) common_dir: Option<Vec<u8>>,
    pub(crate) options: Options,
    pub(crate) mmap_threshold: u64,
}

impl<F: Files> Store<F> {
    /// The files.
    pub fn files(&self) -> &F
        ensures { result.now ≡ self.now.files }
    {
        &self.files
    }

    /// The files, taken out.
    pub fn into_files(self) -> F
        ensures { result ≡ self.files }
    {
        let Store { files, .. } = self;
        files
    }

    /// What the store knows of its repository.
    pub fn options(&self) -> Options
        ensures { result ≡ self.now.options }
    {
        self.options
    }

    /// The folder of the worktree that the store is of.
    pub fn git_dir(&self) -> &[u8]
        ensures { result.now ≡ (base_of self.now).git }
    {
        self.git_dir.as_slice()
    }

    /// The folder that all worktrees share, as a store of a linked worktree was given it; `None` of
    /// any other store.
    pub fn common_dir(&self) -> Option<&[u8]>
        ensures { option_map (λ folder. folder.now) result
            ≡ option_map (λ folder. folder.items) self.now.common_dir }
    {
        match &self.common_dir {
            Some(folder) => Some(folder.as_slice()),
            None => None,
        }
    }

    /// The folder that all worktrees share.
    pub fn common_dir_resolved(&self) -> &[u8]
        ensures { result.now ≡ (base_of self.now).common }
    {
        match &self.common_dir {
            Some(folder) => folder.as_slice(),
            None => self.git_dir.as_slice(),
        }
    }

    /// The path of packed references.
    pub fn packed_refs_path(&self, alloc: Global) -> Result<Vec<u8>, AllocError>
        ensures { IfOk result (λ path. path.items ≡ packed_place (base_of self.now)) }
    {
        let mut path = self.common_dir_resolved().to_vec(alloc)?;
        push_under(&mut path, b"packed-refs")?;
        Ok(path)
    }

    /// Keeps the number of bytes from which packed references would be mapped into memory, and
    /// returns the one kept before. No call of the store uses it.
    pub fn set_packed_buffer_mmap_threshold(&mut self, threshold: u64) -> u64
        ensures before { result ≡ self.old.mmap_threshold }
        ensures kept { self.new ≡ record self.old { mmap_threshold = threshold } }
    {
        let before = self.mmap_threshold;
        self.mmap_threshold = threshold;
        before
    }
}
