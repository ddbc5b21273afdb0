//! The paths of a name's own file and of its log, in the folder of its worktree (`Home`); paths joined.

ghost use Rattle.std.specs.Prelude.{◌≡◌, option_map, IfOk, OnOk};
ghost use Rattle.gix_ref_file.specs.Tree.{under};
ghost use Rattle.gix_ref_name.specs.Names.{name_of};
ghost use Rattle.gix_ref_store.specs.Places as spec;
ghost use Rattle.gix_ref_store.specs.Places.{place_in, log_place_in, main_home, linked_home};
ghost use Rattle.gix_ref_store.specs.Stores.{base_of};
ghost use Rattle.gix_ref_store.specs.Homes.{home_of};

use crate::store::file::Store;
use gix_object_lines::lines::is_capitals;
use gix_ref_file::Files;
use gix_ref_format::lookup::{behind_slash, is_per_worktree};
use gix_ref_name::FullNameRef;
use std::alloc::{AllocError, Global};

// A folder, a folder below it if there is one, and a path in that.
#[derive(Clone, Copy)]
pub(crate) struct Home<'a> {
    folder: &'a [u8],
    // The front of a linked worktree's name, which is the path of its folder.
    worktree: Option<&'a [u8]>,
    path: &'a [u8],
}

impl<F: Files> Store<F> {
    // The folder and the path in it that belong to a full name.
    pub(crate) fn home<'a>(&'a self, name: &'a [u8]) -> Home<'a>
        ensures { home_of result ≡ spec.home (base_of self.now) name.now }
    {
        if is_per_worktree(name) {
            return Home {
                folder: self.git_dir(),
                worktree: None,
                path: name,
            };
        }
        if name.starts_with(b"main-worktree/") {
            return self.home_in_main(name, &name[14..]);
        }
        if name.starts_with(b"worktrees/") {
            return self.home_in_linked(name, behind_slash(&name[10..]));
        }
        self.shared_home(name)
    }

    /// The path of a reference's own file.
    pub fn reference_path(
        &self,
        alloc: Global,
        name: FullNameRef<'_>,
    ) -> Result<Vec<u8>, AllocError>
        ensures { IfOk result (λ path.
            path.items ≡ spec.place (base_of self.now) (name_of name.entry)) }
    {
        self.home(name.to_path()).place(alloc)
    }

    /// The path of its log.
    pub fn reflog_path(&self, alloc: Global, name: FullNameRef<'_>) -> Result<Vec<u8>, AllocError>
        ensures { IfOk result (λ path.
            path.items ≡ spec.log_place (base_of self.now) (name_of name.entry)) }
    {
        self.home(name.to_path()).log_place(alloc)
    }

    fn shared_home<'a>(&'a self, path: &'a [u8]) -> Home<'a>
        ensures { home_of result ≡ spec.shared_home (base_of self.now) path.now }
    {
        Home {
            folder: self.common_dir_resolved(),
            worktree: None,
            path,
        }
    }

    // The home of a name that has this rest after the main worktree's front.
    fn home_in_main<'a>(&'a self, name: &'a [u8], rest: &'a [u8]) -> Home<'a>
        ensures { home_of result ≡ main_home (base_of self.now) name.now rest.now }
    {
        if is_capitals(rest) || rest.starts_with(b"refs/") {
            self.shared_home(rest)
        } else {
            self.shared_home(name)
        }
    }

    // The home of a name that has this rest after a linked worktree's front.
    fn home_in_linked<'a>(&'a self, name: &'a [u8], rest: Option<&'a [u8]>) -> Home<'a>
        ensures { home_of result
            ≡ linked_home (base_of self.now) name.now (option_map (λ rest. rest.now) rest.entry) }
    {
        match rest {
            Some(rest) if is_per_worktree(rest) => Home {
                folder: self.common_dir_resolved(),
                worktree: Some(front_of(name, rest)),
                path: rest,
            },
            Some(rest) if rest.starts_with(b"refs/") => self.shared_home(rest),
            _ => self.shared_home(name),
        }
    }
}

// What precedes the rest, without the slash between them.
fn front_of<'a>(name: &'a [u8], rest: &[u8]) -> &'a [u8]
    ensures { result.now ≡ spec.front_of name.now rest.now }
{
    &name[..name.len().saturating_sub(rest.len()).saturating_sub(1)]
}

impl Home<'_> {
    // The path of the folder.
    fn folder(self, alloc: Global) -> Result<Vec<u8>, AllocError>
        ensures { IfOk result (λ path. path.items ≡ (home_of self.entry).folder) }
    {
        let mut path = self.folder.to_vec(alloc)?;
        if let Some(worktree) = self.worktree {
            push_under(&mut path, worktree)?;
        }
        Ok(path)
    }

    // Where the name's file is.
    pub(crate) fn place(self, alloc: Global) -> Result<Vec<u8>, AllocError>
        ensures { IfOk result (λ path. path.items ≡ place_in (home_of self.entry)) }
    {
        let mut path = self.folder(alloc)?;
        push_under(&mut path, self.path)?;
        Ok(path)
    }

    // Where the name's log is.
    pub(crate) fn log_place(self, alloc: Global) -> Result<Vec<u8>, AllocError>
        ensures { IfOk result (λ path. path.items ≡ log_place_in (home_of self.entry)) }
    {
        let mut path = self.folder(alloc)?;
        push_under(&mut path, b"logs")?;
        push_under(&mut path, self.path)?;
        Ok(path)
    }
}

// Extends a folder's path by this path in it.
pub(crate) fn push_under(folder: &mut Vec<u8>, path: &[u8]) -> Result<(), AllocError>
    ensures { OnOk result (folder.new.items ≡ under folder.old.items path.now) }
{
    if !folder.is_empty() {
        folder.push(b'/')?;
    }
    folder.extend_from_slice(path)?;
    Ok(())
}
