//! The calls of `Category`: its prefix, whether it is remote or private to worktrees, a short name's full name.

ghost use Rattle.std.specs.Prelude.{◌≡◌, ◌++◌, IfOk, codes};
ghost use Rattle.bstr.specs.BStr.{bstr_bytes};
ghost use Rattle.gix_object_lines.specs.NameTest.{is_full_name};
ghost use Rattle.gix_ref_name.specs.Names.{Makes};
ghost use Rattle.gix_ref_name.specs.Categories as spec;

use crate::category::Category;
use crate::front::{with_front, without_front};
use crate::fullname::FullName;
use crate::name::Error;
use bstr::BStr;
use gix_object_lines::ByteString;
use std::alloc::{AllocError, Global};

impl Category<'_> {
    /// What begins all names of the category. For linked worktrees it ends before the worktree's
    /// name.
    pub fn prefix(&self) -> BStr<'static>
        ensures { bstr_bytes result ≡ spec.prefix_text self.now }
    {
        match self {
            Category::Tag => BStr::new(b"refs/tags/"),
            Category::LocalBranch => BStr::new(b"refs/heads/"),
            Category::RemoteBranch => BStr::new(b"refs/remotes/"),
            Category::Note => BStr::new(b"refs/notes/"),
            Category::PseudoRef => BStr::new(b""),
            Category::MainPseudoRef => BStr::new(b"main-worktree/"),
            Category::MainRef => BStr::new(b"main-worktree/refs/"),
            Category::LinkedPseudoRef { .. } => BStr::new(b"worktrees/"),
            Category::LinkedRef { .. } => BStr::new(b"worktrees/"),
            Category::Bisect => BStr::new(b"refs/bisect/"),
            Category::Rewritten => BStr::new(b"refs/rewritten/"),
            Category::WorktreePrivate => BStr::new(b"refs/worktree/"),
        }
    }

    /// Returns whether each worktree has names of the category of its own.
    pub fn is_worktree_private(&self) -> bool
        ensures { result ≡ spec.is_private self.now }
    {
        match self {
            Category::Tag => false,
            Category::LocalBranch => false,
            Category::RemoteBranch => false,
            Category::Note => false,
            Category::PseudoRef => true,
            Category::MainPseudoRef => true,
            Category::MainRef => false,
            Category::LinkedPseudoRef { .. } => true,
            Category::LinkedRef { .. } => false,
            Category::Bisect => true,
            Category::Rewritten => true,
            Category::WorktreePrivate => true,
        }
    }

    /// Returns whether it is the category of remote-tracking branches.
    pub fn is_remote_tracking_branch(&self) -> bool
        ensures { result ≡ spec.is_remote self.now }
    {
        matches!(self, Category::RemoteBranch)
    }

    /// The name of this category with this short name, as `category_and_short_name` returns both. A
    /// short name may leave out the word that the front ends with, as `notes/`, or be a full name
    /// of the category already. Returns `Invalid` if the whole is no full name, and `Memory` if no
    /// memory is left.
    pub fn to_full_name(&self, alloc: Global, short: BStr<'_>) -> Result<FullName, Error>
        ensures { Makes is_full_name (spec.full_text self.now (bstr_bytes short.entry)) result }
    {
        let rest = without_front(short.as_bytes(), self.repeated_word());
        let Ok(front) = self.front(alloc) else {
            return Err(Error::Memory);
        };
        let Ok(text) = with_front(alloc, front.as_bytes(), rest) else {
            return Err(Error::Memory);
        };
        match FullName::new(text) {
            Ok(name) => Ok(name),
            Err(_) => Err(Error::Invalid),
        }
    }

    // The prefix, with the name of a linked worktree.
    fn front(&self, alloc: Global) -> Result<ByteString, AllocError>
        ensures { IfOk result
            (λ front. front ≡ spec.prefix_text self.now ++ spec.middle_text self.now) }
    {
        match self {
            Category::LinkedPseudoRef { name } => worktree_front(alloc, *name, b"/"),
            Category::LinkedRef { name } => worktree_front(alloc, *name, b"/refs/"),
            _ => ByteString::from_slice(alloc, self.prefix().as_bytes()),
        }
    }

    fn repeated_word(&self) -> &'static [u8]
        ensures { result.now ≡ spec.repeated_word self.now }
    {
        match self {
            Category::Note => b"notes/",
            Category::Bisect => b"bisect/",
            Category::Rewritten => b"rewritten/",
            Category::WorktreePrivate => b"worktree/",
            Category::MainRef => b"refs/",
            Category::LinkedRef { .. } => b"refs/",
            _ => b"",
        }
    }
}

fn worktree_front(alloc: Global, worktree: BStr<'_>, end: &[u8]) -> Result<ByteString, AllocError>
    ensures { IfOk result
        (λ front. front ≡ codes "worktrees/" ++ (bstr_bytes worktree.entry ++ end.now)) }
{
    let mut front = Vec::from_slice(alloc, b"worktrees/")?;
    front.extend_from_slice(worktree.as_bytes())?;
    front.extend_from_slice(end)?;
    Ok(ByteString::new(front))
}
