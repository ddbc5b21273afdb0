//! Files in memory.
mod record;

ghost use Rattle.std.specs.Prelude.{◌≡◌, ◌&&◌, option_map};
ghost use Rattle.gix_ref_file.specs.Tree.{node_at, place_of, bytes_of, is_path, is_folder, parent};

use crate::files::{FileError, Files, Place};
use crate::nodes::{Entry, Nodes};
use crate::paths::{is_path, parent};
use record::Undo;
use std::alloc::{AllocError, Global};
use std::cmp::Ordering;

/// A tree of files in memory, and a record of its changes that restores the tree before each.
///
/// A change returns `Failed` only if the tree doesn't allow it, and `Memory` only if memory was
/// refused. Both leave the tree and the record as they were, since all room is made before anything
/// changes. A reading never returns `Failed`. For each change the record takes its path and what it
/// replaced, moved and not copied.
#[derive(Debug, Drop)]
pub struct MemoryFiles {
    nodes: Nodes,
    past: Vec<Undo>,
}

impl MemoryFiles {
    ghost use Rattle.gix_ref_file.specs.Tree.{IsRooted};
    ghost use Rattle.gix_ref_file.specs.Past.{history_of, start};

    /// A tree with nothing but the root, and a record of no changes.
    pub fn new(alloc: Global) -> Self
        ensures history { history_of result ≡ start }
        ensures honest { IsRooted (history_of result).tree }
    {
        MemoryFiles {
            nodes: Nodes::new(alloc),
            past: Vec::new(alloc),
        }
    }

    fn place(&self, path: &[u8]) -> Place
        ensures { result ≡ place_of (node_at self.now.nodes path.now) }
    {
        if path.is_empty() {
            return Place::Folder;
        }
        match self.nodes.get(path) {
            Some(Entry::File(bytes)) => Place::File(bytes.len() as u64),
            Some(Entry::Folder) => Place::Folder,
            None => Place::Absent,
        }
    }

    fn is_in_folder(&self, path: &[u8]) -> bool
        ensures { result
            ≡ (is_path path.now && is_folder (node_at self.now.nodes (parent path.now))) }
    {
        is_path(path) && self.place(parent(path)) == Place::Folder
    }

    fn file(&self, path: &[u8]) -> Option<&Vec<u8>>
        ensures { option_map (λ bytes. bytes.now.items) result
            ≡ bytes_of (node_at self.now.nodes path.now) }
    {
        if path.is_empty() {
            return None;
        }
        match self.nodes.get(path) {
            Some(Entry::File(bytes)) => Some(bytes),
            _ => None,
        }
    }
}

impl Files for MemoryFiles {
    ghost use Rattle.std.specs.Prelude.{⊤};
    ghost use Rattle.gix_ref_file.specs.Tree.{IsRooted};
    ghost use Rattle.gix_ref_file.specs.Past.{history_of};

    ghost history = { history_of };

    ghost is_honest = { λ files. IsRooted (history_of files).tree };

    ghost failures = { λ _. 0 };

    ghost reading_may_fail = { ⊥ };

    ghost is_atomic = { ⊤ };

    fn kind_of(&self, path: &[u8]) -> Result<Place, FileError> {
        Ok(self.place(path))
    }

    fn read(&self, path: &[u8], out: &mut Vec<u8>) -> Result<Option<usize>, FileError> {
        let Some(bytes) = self.file(path) else {
            return Ok(None);
        };
        out.extend_from_slice(bytes)?;
        Ok(Some(bytes.len()))
    }

    fn read_at(&self, path: &[u8], at: u64, buffer: &mut [u8]) -> Result<Option<usize>, FileError> {
        let Some(bytes) = self.file(path) else {
            return Ok(None);
        };
        let start = at.min(bytes.len() as u64) as usize;
        let count = buffer.len().min(bytes.len() - start);
        buffer[..count].copy_from_slice(&bytes[start..start + count]);
        Ok(Some(count))
    }

    fn list(&self, alloc: Global, folder: &[u8]) -> Result<Vec<Vec<u8>>, FileError> {
        if self.place(folder) != Place::Folder {
            return Ok(Vec::new(alloc));
        }
        Ok(self.nodes.names(alloc, folder)?)
    }

    fn create_new(&mut self, alloc: Global, path: &[u8], bytes: &[u8]) -> Result<bool, FileError> {
        if self.place(path) != Place::Absent {
            return Ok(false);
        }
        if !self.is_in_folder(path) {
            return Err(FileError::Failed);
        }
        let bytes = bytes.to_vec(alloc)?;
        self.put(alloc, path, Entry::File(bytes))?;
        Ok(true)
    }

    fn write(&mut self, alloc: Global, path: &[u8], bytes: &[u8]) -> Result<(), FileError> {
        if !self.is_in_folder(path) || !self.put_file(alloc, path, bytes)? {
            return Err(FileError::Failed);
        }
        Ok(())
    }

    fn append(&mut self, alloc: Global, path: &[u8], bytes: &[u8]) -> Result<(), FileError> {
        if self.lengthen(alloc, path, bytes)? {
            return Ok(());
        }
        self.write(alloc, path, bytes)
    }

    fn shorten(&mut self, alloc: Global, path: &[u8], length: u64) -> Result<(), FileError> {
        let front = match self.file(path) {
            Some(bytes) if length <= bytes.len() as u64 => bytes[..length as usize].to_vec(alloc)?,
            _ => return Err(FileError::Failed),
        };
        Ok(self.put(alloc, path, Entry::File(front))?)
    }

    fn rename(&mut self, alloc: Global, from: &[u8], to: &[u8]) -> Result<(), FileError> {
        if self.file(from).is_none() || !self.is_in_folder(to) {
            return Err(FileError::Failed);
        }
        if from.cmp(to) == Ordering::Equal {
            return Ok(());
        }
        if !self.move_file(alloc, from, to)? {
            return Err(FileError::Failed);
        }
        Ok(())
    }

    fn remove_file(&mut self, alloc: Global, path: &[u8]) -> Result<(), FileError> {
        if self.file(path).is_none() {
            return Err(FileError::Failed);
        }
        Ok(self.take(path)?)
    }

    fn make_folder(&mut self, alloc: Global, path: &[u8]) -> Result<(), FileError> {
        if self.place(path) != Place::Absent || !self.is_in_folder(path) {
            return Err(FileError::Failed);
        }
        Ok(self.put(alloc, path, Entry::Folder)?)
    }

    fn remove_empty_folder(&mut self, alloc: Global, path: &[u8]) -> Result<(), FileError> {
        if !is_path(path)
            || self.place(path) != Place::Folder
            || self.nodes.has_children(alloc, path)?
        {
            return Err(FileError::Failed);
        }
        Ok(self.take(path)?)
    }

    ghost rooted = { λ files honest. honest };
}
