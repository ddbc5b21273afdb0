//! `Recorder`: a delegate that tracks the path and records each entry with it; copies of records.

ghost use Rattle.std.specs.Prelude.{◌≡◌, [], Some, IfOk, IsOk, OnOk, map, take, unwrap_or};
ghost use Rattle.bstr.specs.BStr.{bstr_bytes};
ghost use Rattle.gix_object_tree.specs.Entry.{item_of};
ghost use Rattle.gix_traverse_tree.specs.Calls.{pop_back, pop_front, pop};
ghost use Rattle.gix_traverse_tree.specs.declared.recorder.Location.TheVariants as locations;
ghost use Rattle.gix_traverse_tree.specs.Recorder.{Records, Recorded, Recording, joined, parent, recorded_of, recording_of, with_entry};

use crate::Visit;
use crate::visit::{Action, Error};
use bstr::BStr;
use gix_hash::ObjectId;
use gix_object_lines::ByteString;
use gix_object_lines::cut::rsplit_once;
use gix_object_tree::tree::{EntryMode, EntryRef};
use std::alloc::{AllocError, Global};
use std::collections::VecDeque;
use std::ops::ControlFlow;

// How many bytes of a path precede its last `/`.
fn parent_len(path: &[u8]) -> usize
    ensures { take result path.now ≡ parent path.now }
{
    match rsplit_once(path, b'/') {
        Some((folder, _)) => folder.len(),
        None => 0,
    }
}

// A copy of these bytes. If there are none, it takes no memory.
fn copied_bytes(alloc: Global, bytes: &[u8]) -> Result<Vec<u8>, AllocError>
    ensures copied { IfOk result (λ copy. copy.items ≡ bytes.now) }
    ensures whole { bytes.now ≡ [] → IsOk result }
{
    let mut copy = Vec::new(alloc);
    copy.extend_from_slice(bytes)?;
    Ok(copy)
}

/// What is tracked of where an entry lies.
#[derive(Debug, Clone, Copy, PartialEq, Eq)]
pub enum Location {
    /// The whole path from the root, its names separated by `/`.
    Path,
    /// The entry's own name.
    FileName,
}

/// An entry that was recorded.
#[derive(Debug, PartialEq, Eq, Drop)]
pub struct Entry {
    /// What is named.
    pub mode: EntryMode,
    /// The path as far as it was tracked: the whole one from the root, the entry's name, or
    /// nothing.
    pub filepath: ByteString,
    /// The id of the object that is named.
    pub oid: ObjectId,
}

impl Entry {
    /// A copy; `AllocError` if there is no memory for its path. An empty path takes none.
    pub fn try_clone(&self) -> Result<Entry, AllocError>
        ensures copied { IfOk result (λ copy. recorded_of copy ≡ recorded_of self.now) }
        ensures whole { (recorded_of self.now).path ≡ [] → IsOk result }
    {
        let path = copied_bytes(self.filepath.allocator(), self.filepath.as_bytes())?;
        Ok(Entry {
            mode: self.mode,
            filepath: ByteString::new(path),
            oid: self.oid,
        })
    }
}

// Copies of these entries, in their order.
fn copied_entries(alloc: Global, entries: &[Entry]) -> Result<Vec<Entry>, AllocError>
    ensures copied { IfOk result
        (λ copies. map recorded_of copies.items ≡ map recorded_of entries.now) }
    ensures whole { entries.now ≡ [] → IsOk result }
{
    let mut copies = Vec::new(alloc);
    'entries: for entry in entries {
        copies.push(entry.try_clone()?)?;
    }
    Ok(copies)
}

// Copies of these paths, in their order.
fn copied_paths(
    alloc: Global,
    paths: &VecDeque<ByteString>,
) -> Result<VecDeque<ByteString>, AllocError>
    ensures copied { IfOk result (λ copies. copies.items ≡ paths.now.items) }
    ensures whole { paths.now.items ≡ [] → IsOk result }
{
    let mut copies = VecDeque::new(alloc);
    'paths: while let Some(path) = paths.get(copies.len()) {
        copies.push_back(path.try_clone()?)?;
    }
    Ok(copies)
}

/// Records all entries that a walk shows, and goes below each tree.
#[derive(Debug, Drop)]
pub struct Recorder {
    path_deque: VecDeque<ByteString>,
    path: Vec<u8>,
    location: Option<Location>,
    /// The entries so far, in the order in which they were shown.
    pub records: Vec<Entry>,
}

impl Recorder {
    /// A recorder of whole paths, without entries. It takes no memory.
    pub fn new(alloc: Global) -> Recorder
        ensures { recording_of result
            ≡ record { location = Some locations.Path; queue = []; path = []; entries = [] } }
    {
        Recorder {
            path_deque: VecDeque::new(alloc),
            path: Vec::new(alloc),
            location: Some(Location::Path),
            records: Vec::new(alloc),
        }
    }

    /// Tracks so much of where an entry lies from now on: nothing at `None`.
    pub fn track_location(self, location: Option<Location>) -> Recorder
        ensures { recording_of result ≡ record (recording_of self) { location = location } }
    {
        let mut recorder = self;
        recorder.location = location;
        recorder
    }

    /// The path that the next name is appended to, or the name that was pushed last.
    pub fn path(&self) -> BStr<'_>
        ensures { bstr_bytes result ≡ (recording_of self.now).path }
    {
        BStr::new(self.path.as_slice())
    }

    /// A copy, with its entries and with the paths that are queued; `AllocError` if there is no
    /// memory for it. If there are no entries, and no path is built or queued, it takes none.
    pub fn try_clone(&self) -> Result<Recorder, AllocError>
        ensures copied { IfOk result (λ copy. recording_of copy ≡ recording_of self.now) }
        ensures whole { (recording_of self.now).queue ≡ [] → (recording_of self.now).path ≡ []
            → (recording_of self.now).entries ≡ [] → IsOk result }
    {
        let alloc: Global = *self.path.allocator();
        Ok(Recorder {
            path_deque: copied_paths(alloc, &self.path_deque)?,
            path: copied_bytes(alloc, self.path.as_slice())?,
            location: self.location,
            records: copied_entries(alloc, self.records.as_slice())?,
        })
    }

    /// A copy of that path; `AllocError` if there is no memory for it. An empty one takes none.
    pub fn path_clone(&self) -> Result<ByteString, AllocError>
        ensures copied { IfOk result (λ path. path ≡ (recording_of self.now).path) }
        ensures whole { (recording_of self.now).path ≡ [] → IsOk result }
    {
        let path = copied_bytes(*self.path.allocator(), self.path.as_slice())?;
        Ok(ByteString::new(path))
    }
}

impl Recorder {
    // Appends a name to the path.
    fn push_element(&mut self, name: &[u8]) -> Result<(), AllocError>
        ensures { OnOk result
            (recording_of self.new
            ≡ record
            (recording_of self.old) { path = joined (recording_of self.old).path name.now }) }
    {
        if name.is_empty() {
            return Ok(());
        }
        if !self.path.is_empty() {
            self.path.push(b'/')?;
        }
        self.path.extend_from_slice(name)?;
        Ok(())
    }

    // Takes the last name off the path.
    fn pop_element(&mut self)
        ensures { recording_of self.new
            ≡ record (recording_of self.old) { path = parent (recording_of self.old).path } }
    {
        let kept = parent_len(self.path.as_slice());
        self.path.truncate(kept);
    }

    // Takes a path that was queued, or the root's if none was.
    fn set_path(&mut self, path: Option<ByteString>)
        ensures { recording_of self.new
            ≡ record (recording_of self.old) { path = unwrap_or path [] } }
    {
        match path {
            Some(path) => self.path = path.into_vec(),
            None => self.path.clear(),
        }
    }

    // Records an entry.
    fn record_entry(&mut self, entry: &EntryRef<'_>) -> Result<(), AllocError>
        ensures { OnOk result
            (recording_of self.new ≡ with_entry (recording_of self.old) (item_of entry.now)) }
    {
        let filepath = self.path_clone()?;
        self.records.push(Entry {
            mode: entry.mode,
            filepath,
            oid: ObjectId::from(entry.oid),
        })?;
        Ok(())
    }
}

impl Visit for Recorder {
    ghost goes = { Records };

    fn pop_back_tracked_path_and_set_current(&mut self) -> Result<(), Error>
        ensures goes { OnOk result (Records self.old pop_back self.new) }
        ensures whole { IsOk result }
    {
        if let Some(Location::Path) = self.location {
            let path = self.path_deque.pop_back();
            self.set_path(path);
        }
        Ok(())
    }

    fn pop_front_tracked_path_and_set_current(&mut self) -> Result<(), Error>
        ensures goes { OnOk result (Records self.old pop_front self.new) }
        ensures whole { IsOk result }
    {
        if let Some(Location::Path) = self.location {
            let path = self.path_deque.pop_front();
            self.set_path(path);
        }
        Ok(())
    }

    fn push_back_tracked_path_component(&mut self, component: BStr<'_>) -> Result<(), Error> {
        if let Some(Location::Path) = self.location {
            self.push_element(component.as_bytes())?;
            let path = self.path_clone()?;
            self.path_deque.push_back(path)?;
        }
        Ok(())
    }

    fn push_path_component(&mut self, component: BStr<'_>) -> Result<(), Error> {
        match self.location {
            None => {}
            Some(Location::Path) => self.push_element(component.as_bytes())?,
            Some(Location::FileName) => {
                self.path.clear();
                self.path.extend_from_slice(component.as_bytes())?;
            }
        }
        Ok(())
    }

    fn pop_path_component(&mut self) -> Result<(), Error>
        ensures goes { OnOk result (Records self.old pop self.new) }
        ensures whole { IsOk result }
    {
        if let Some(Location::Path) = self.location {
            self.pop_element();
        }
        Ok(())
    }

    fn visit_tree(&mut self, entry: &EntryRef<'_>) -> Result<Action, Error> {
        self.record_entry(entry)?;
        Ok(ControlFlow::Continue(true))
    }

    fn visit_nontree(&mut self, entry: &EntryRef<'_>) -> Result<Action, Error> {
        self.record_entry(entry)?;
        Ok(ControlFlow::Continue(true))
    }
}
