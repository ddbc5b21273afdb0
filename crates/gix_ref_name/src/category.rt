//! The type `Category`: what kind of reference a full name is of, by how it begins.

mod find;
mod made;

pub(crate) use crate::category::find::category_of;
use bstr::BStr;

/// What kind of reference a full name is of, by how it begins.
#[derive(Debug, Clone, Copy, PartialEq, Eq, PartialOrd, Ord, Hash)]
pub enum Category<'a> {
    /// Below `refs/tags/`.
    Tag,
    /// Below `refs/heads/`.
    LocalBranch,
    /// Below `refs/remotes/`.
    RemoteBranch,
    /// Below `refs/notes/`.
    Note,
    /// Capital letters and `_` alone, as `HEAD`.
    PseudoRef,
    /// Such a name after `main-worktree/`.
    MainPseudoRef,
    /// A name below `refs/` after `main-worktree/`.
    MainRef,
    /// Capital letters and `_` alone after `worktrees/` and the name of a worktree.
    LinkedPseudoRef {
        /// The name of the worktree.
        name: BStr<'a>,
    },
    /// A name below `refs/` after `worktrees/` and the name of a worktree.
    LinkedRef {
        /// The name of the worktree.
        name: BStr<'a>,
    },
    /// Below `refs/bisect/`.
    Bisect,
    /// Below `refs/rewritten/`.
    Rewritten,
    /// Below `refs/worktree/`.
    WorktreePrivate,
}
