//! A map from paths to files and folders.
ghost use Rattle.std.specs.Prelude.{◌≡◌, ◌++◌, [], length, map as list_map, filter_map, option_map, unwrap_or, Some, is_none, is_some, IsSome, IsTrue, IsFalse, IfOk, OnOk, OnErr, IfSome, IfNone};
ghost use Rattle.std.specs.List.{list_any};
ghost use Rattle.std.specs.FinMap as map;
ghost use Rattle.gix_ref_file.specs.Tree.{file, bytes_of, is_folder, same_path, parent, name_in};
ghost use Rattle.gix_ref_file.specs.Nodes.{node_of, with_node};

use crate::paths::{name, parent};
use crate::ranges::{behind, below};
use std::alloc::{AllocError, Global};
use std::cmp::Ordering;
use std::collections::BTreeMap;
use std::marker::Model;
use std::mem;

#[derive(Debug, Drop)]
pub enum Entry {
    File(Vec<u8>),
    Folder,
}

impl Entry {
    /// Returns whether it is a file.
    pub fn is_file(&self) -> bool
        ensures { result ≡ is_some (bytes_of (Some (node_of self.now))) }
    {
        matches!(self, Entry::File(_))
    }

    /// Appends bytes to a file, and returns how many it had. If no memory is left, it is as it was.
    pub fn append(&mut self, bytes: &[u8]) -> Result<usize, AllocError>
        requires { IsSome (bytes_of (Some (node_of self.old))) }
        ensures before { IfOk result (λ len.
            len ≡ length (unwrap_or (bytes_of (Some (node_of self.old))) [])) }
        ensures ok { OnOk result (node_of self.new
            ≡ file (unwrap_or (bytes_of (Some (node_of self.old))) [] ++ bytes.now)) }
        ensures err { OnErr result (node_of self.new ≡ node_of self.old) }
    {
        let Entry::File(stored) = self else {
            unreachable!()
        };
        let len = stored.len();
        stored.extend_from_slice(bytes)?;
        Ok(len)
    }
}

/// Returns whether there was a folder.
pub fn is_folder(before: &Option<Entry>) -> bool
    ensures { result ≡ is_folder (option_map node_of before.now) }
{
    matches!(before, Some(Entry::Folder))
}

#[derive(Debug, Drop)]
pub struct Nodes {
    entries: BTreeMap<Vec<u8>, Entry>,
}

impl Model for Nodes {
    ghost use Rattle.gix_ref_file.specs.Tree.{Tree};
    ghost use Rattle.gix_ref_file.specs.Nodes.{tree_of, IsInOrder, coded_tree};

    ghost Value = { Tree };

    ghost coded = { coded_tree };

    ghost view = { λ a. tree_of a.entries.entries };

    ghost invariant = { λ a. IsInOrder a.entries.entries };
}

impl Nodes {
    ghost use Rattle.std.specs.Option.{option_copied_mut};
    ghost use Rattle.std.specs.Borrow.{LendsIf, sem};
    ghost use Rattle.gix_ref_file.specs.contracts.nodes.Nodes as lender;
    ghost use Rattle.gix_ref_file.specs.contracts.nodes.Entry as lent;

    /// A map without entries.
    pub fn new(alloc: Global) -> Self
        ensures { result ≡ map.empty }
    {
        Nodes {
            entries: BTreeMap::new(alloc),
        }
    }

    /// The entry at a path; `None` if there is none.
    pub fn get(&self, path: &[u8]) -> Option<&Entry>
        ensures { option_map (λ entry. node_of entry.now) result ≡ map.get self.now path.now }
    {
        self.entries.get(path)
    }

    /// The entry at a path, to be changed.
    pub fn get_mut(&mut self, path: &[u8]) -> Option<&mut Entry>
        ensures* writes_back { sem 𝓛 (LendsIf lender.the_row lent.the_row self.entry result
            (λ entry. map.insert self.old path.now (node_of entry)) self.old) }
        ensures value { option_map node_of (option_copied_mut result)
            ≡ map.get self.old path.now }
    {
        self.entries.get_mut(path)
    }

    /// Puts an entry in, and returns the one that it replaces. If no memory is left, nothing
    /// changes.
    pub fn insert(&mut self, path: Vec<u8>, entry: Entry) -> Result<Option<Entry>, AllocError>
        ensures before { IfOk result (λ before. option_map node_of before
            ≡ map.get self.old path.items) }
        ensures ok { OnOk result (self.new ≡ map.insert self.old path.items (node_of entry)) }
        ensures err { OnErr result (self.new ≡ self.old) }
    {
        Ok(self.entries.insert(path, entry)?)
    }

    /// Puts a file in unless a folder is there, and returns what was there.
    pub fn insert_file(
        &mut self,
        alloc: Global,
        path: &[u8],
        bytes: Vec<u8>,
    ) -> Result<Option<Entry>, AllocError>
        ensures before { IfOk result (λ before. option_map node_of before
            ≡ map.get self.old path.now) }
        ensures put { IsFalse (is_folder (map.get self.old path.now))
            → OnOk result (self.new ≡ map.insert self.old path.now (file bytes.items)) }
        ensures stays { IsTrue (is_folder (map.get self.old path.now))
            → OnOk result (self.new ≡ self.old) }
        ensures err { OnErr result (self.new ≡ self.old) }
    {
        let before = self.insert(path.to_vec(alloc)?, Entry::File(bytes))?;
        if is_folder(&before) {
            let _ = self.replace(path, Entry::Folder);
        }
        Ok(before)
    }

    /// Removes what is at a path, and returns it with its path.
    pub fn remove(&mut self, path: &[u8]) -> Option<(Vec<u8>, Entry)>
        ensures path { IfSome result (λ taken. taken.0.items ≡ path.now) }
        ensures before { option_map (λ taken. node_of taken.1) result
            ≡ map.get self.old path.now }
        ensures removed { self.new ≡ map.remove self.old path.now }
    {
        self.entries.remove_entry(path)
    }

    /// Replaces an entry, and returns the old one; without one nothing changes.
    pub fn replace(&mut self, path: &[u8], entry: Entry) -> Option<Entry>
        ensures before { option_map node_of result ≡ map.get self.old path.now }
        ensures replaced { IsSome (map.get self.old path.now)
            → self.new ≡ map.insert self.old path.now (node_of entry) }
        ensures absent { IfNone result (self.new ≡ self.old) }
    {
        let slot = self.entries.get_mut(path)?;
        Some(mem::replace(slot, entry))
    }

    /// Moves an entry from one path to another unless a folder is there, and returns the old path
    /// and the entry that was at the new one. Returns `None` if a folder is there.
    pub fn rename(
        &mut self,
        alloc: Global,
        from: &[u8],
        to: &[u8],
    ) -> Result<Option<(Vec<u8>, Option<Entry>)>, AllocError>
        requires there { IsSome (map.get self.old from.now) }
        requires apart { IsFalse (same_path from.now to.now) }
        ensures free { IfOk result (λ moved. is_none moved ≡ is_folder (map.get self.old to.now)) }
        ensures path { IfOk result (λ moved. IfSome moved (λ it. it.0.items ≡ from.now)) }
        ensures before { IfOk result (λ moved. IfSome moved (λ it. option_map node_of it.1
            ≡ map.get self.old to.now)) }
        ensures moved { IfOk result (λ moved. IsSome moved → self.new
            ≡ with_node (map.remove self.old from.now) to.now (map.get self.old from.now)) }
        ensures stays { IfOk result (λ moved. IfNone moved (self.new ≡ self.old)) }
        ensures err { OnErr result (self.new ≡ self.old) }
    {
        // With this place made nothing can fail any more. A folder that is there stays one.
        let before = self.insert(to.to_vec(alloc)?, Entry::Folder)?;
        if is_folder(&before) {
            return Ok(None);
        }
        let Some((old_path, moved)) = self.remove(from) else {
            unreachable!()
        };
        let _ = self.replace(to, moved);
        Ok(Some((old_path, before)))
    }

    /// Returns whether a folder has a child.
    pub fn has_children(&self, alloc: Global, folder: &[u8]) -> Result<bool, AllocError>
        ensures { IfOk result (λ found.
            found ≡ list_any (λ path. same_path (parent path) folder.now) (map.keys self.now)) }
    {
        let below = below(alloc, folder)?;
        Ok(
            self.entries
                .range(below)
                .any(|(path, _)| parent(path).cmp(folder) == Ordering::Equal),
        )
    }

    /// The names of a folder's children, ascending. What is deeper is skipped, a subfolder at a
    /// time.
    pub fn names(&self, alloc: Global, folder: &[u8]) -> Result<Vec<Vec<u8>>, AllocError>
        ensures { IfOk result (λ names. list_map (λ name. name.items) names.items
            ≡ filter_map (name_in folder.now) (map.keys self.now)) }
    {
        let (mut start, end) = below(alloc, folder)?;
        let mut found = Vec::new(alloc);
        while let Some((path, _)) = self.entries.range((start.as_ref(), end.as_ref())).next() {
            if parent(path).cmp(folder) == Ordering::Equal {
                found.push(name(path).to_vec(alloc)?)?;
            }
            start = behind(alloc, folder, path)?;
        }
        Ok(found)
    }
}
