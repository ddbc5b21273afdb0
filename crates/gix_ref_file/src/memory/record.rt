//! The changes of a tree in memory, each with a record of how to undo it.
//!
//! All room is made before anything changes.
ghost use Rattle.std.specs.Prelude.{◌≡◌, not, IsSome, IfOk, OnOk, OnErr, IsTrue, IsFalse};
ghost use Rattle.std.specs.FinMap as map;
ghost use Rattle.gix_ref_file.specs.Tree.{file, same_path, is_folder, IsRooted};
ghost use Rattle.gix_ref_file.specs.Changes.{is_file_at, after, to_rename, to_append};
ghost use Rattle.gix_ref_file.specs.History.{Steps};
ghost use Rattle.gix_ref_file.specs.Nodes.{node_of};
ghost use Rattle.gix_ref_file.specs.Past.{history_of};

use super::MemoryFiles;
use crate::nodes::{Entry, is_folder};
use std::alloc::{AllocError, Global};

// How to undo a change.
#[derive(Debug, Drop)]
pub enum Undo {
    // Restores what was at a path.
    Restore {
        path: Vec<u8>,
        before: Option<Entry>,
    },
    // Gives a file its old path again, and restores what was at the new one.
    Return {
        from: Vec<u8>,
        to: Vec<u8>,
        replaced: Option<Entry>,
    },
    // Takes what was appended off again.
    Shorten {
        path: Vec<u8>,
        len: usize,
    },
}

impl MemoryFiles {
    /// Puts an entry at a path. If no memory is left, nothing changes.
    pub fn put(&mut self, alloc: Global, path: &[u8], entry: Entry) -> Result<(), AllocError>
        ensures ok { OnOk result (Steps (history_of self.old) (history_of self.new)
            (map.insert self.old.nodes path.now (node_of entry))) }
        ensures err { OnErr result (history_of self.new ≡ history_of self.old) }
    {
        self.past.reserve(1)?;
        let kept = path.to_vec(alloc)?;
        let before = self.nodes.insert(path.to_vec(alloc)?, entry)?;
        self.past
            .push_reserved(Undo::Restore { path: kept, before });
        Ok(())
    }

    /// Puts a file at a path unless a folder is there, and returns whether none is. If no memory is
    /// left, nothing changes.
    pub fn put_file(&mut self, alloc: Global, path: &[u8], bytes: &[u8]) -> Result<bool, AllocError>
        ensures free { IfOk result (λ free. free
            ≡ not (is_folder (map.get self.old.nodes path.now))) }
        ensures put { IfOk result (λ free. IsTrue free
            → Steps (history_of self.old) (history_of self.new)
            (map.insert self.old.nodes path.now (file bytes.now))) }
        ensures none { IfOk result (λ free. IsFalse free
            → history_of self.new ≡ history_of self.old) }
        ensures err { OnErr result (history_of self.new ≡ history_of self.old) }
    {
        self.past.reserve(1)?;
        let kept = path.to_vec(alloc)?;
        let before = self.nodes.insert_file(alloc, path, bytes.to_vec(alloc)?)?;
        if is_folder(&before) {
            return Ok(false);
        }
        self.past
            .push_reserved(Undo::Restore { path: kept, before });
        Ok(true)
    }

    /// Removes what is at a path. If no memory is left, nothing changes.
    pub fn take(&mut self, path: &[u8]) -> Result<(), AllocError>
        requires { IsSome (map.get self.old.nodes path.now) }
        ensures ok { OnOk result (Steps (history_of self.old) (history_of self.new)
            (map.remove self.old.nodes path.now)) }
        ensures err { OnErr result (history_of self.new ≡ history_of self.old) }
    {
        self.past.reserve(1)?;
        let Some((path, entry)) = self.nodes.remove(path) else {
            unreachable!()
        };
        self.past.push_reserved(Undo::Restore {
            path,
            before: Some(entry),
        });
        Ok(())
    }

    /// Gives a file another path unless a folder is there, and returns whether none is. If no memory
    /// is left, nothing changes.
    pub fn move_file(&mut self, alloc: Global, from: &[u8], to: &[u8]) -> Result<bool, AllocError>
        requires there { IsTrue (is_file_at self.old.nodes from.now) }
        requires apart { IsFalse (same_path from.now to.now) }
        ensures free { IfOk result (λ free. free
            ≡ not (is_folder (map.get self.old.nodes to.now))) }
        ensures moved { IfOk result (λ free. IsTrue free
            → Steps (history_of self.old) (history_of self.new)
            (after (to_rename from.now to.now) self.old.nodes)) }
        ensures none { IfOk result (λ free. IsFalse free
            → history_of self.new ≡ history_of self.old) }
        ensures err { OnErr result (history_of self.new ≡ history_of self.old) }
    {
        self.past.reserve(1)?;
        let new_path = to.to_vec(alloc)?;
        let Some((old_path, replaced)) = self.nodes.rename(alloc, from, to)? else {
            return Ok(false);
        };
        self.past.push_reserved(Undo::Return {
            from: old_path,
            to: new_path,
            replaced,
        });
        Ok(true)
    }

    /// Appends bytes to a file, and returns whether there is one. If no memory is left, nothing
    /// changes.
    pub fn lengthen(&mut self, alloc: Global, path: &[u8], bytes: &[u8]) -> Result<bool, AllocError>
        ensures found { IsRooted self.old.nodes
            → IfOk result (λ found. found ≡ is_file_at self.old.nodes path.now) }
        ensures longer { IsRooted self.old.nodes
            → IfOk result (λ found. IsTrue found
            → Steps (history_of self.old) (history_of self.new)
            (after (to_append path.now bytes.now) self.old.nodes)) }
        ensures none { IfOk result (λ found. IsFalse found
            → history_of self.new ≡ history_of self.old) }
        ensures err { OnErr result (history_of self.new ≡ history_of self.old) }
    {
        let Some(entry) = self.nodes.get_mut(path) else {
            return Ok(false);
        };
        if !entry.is_file() {
            return Ok(false);
        }
        self.past.reserve(1)?;
        let kept = path.to_vec(alloc)?;
        let len = entry.append(bytes)?;
        self.past.push_reserved(Undo::Shorten { path: kept, len });
        Ok(true)
    }
}
