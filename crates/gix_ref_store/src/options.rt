//! The options of a store: which updates are logged, the hash function, whether names are composed.

ghost use Rattle.gix_ref_store.specs.Stores.{IsUsual};

use gix_hash::Kind;

/// Which updates are written to logs.
#[derive(Debug, Clone, Copy, PartialEq, Eq, PartialOrd, Ord, Hash)]
pub enum WriteReflog {
    /// Those of every name.
    Always,
    /// Those of HEAD, of names below `refs/heads/`, `refs/remotes/`, `refs/notes/` and
    /// `refs/worktree/`, and of names whose log exists or is wanted.
    Normal,
    /// None.
    Disable,
}

/// What a store must know of its repository.
#[derive(Debug, Clone, Copy, PartialEq, Eq)]
pub struct Options {
    /// Which updates are written to logs.
    pub write_reflog: WriteReflog,
    /// The hash function of its ids.
    pub object_hash: Kind,
    /// Whether names are known with their characters composed, as on file systems that take them
    /// apart: those that are looked up, and those that listings give.
    pub precompose_unicode: bool,
}

impl Default for Options {
    ghost is_default = { IsUsual };

    fn default() -> Options {
        Options {
            write_reflog: WriteReflog::Normal,
            object_hash: Kind::Sha1,
            precompose_unicode: false,
        }
    }
}
