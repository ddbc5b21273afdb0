//! Files of a real folder (`Folder`): the calls of `Files` by the system's; names that are too long, sorted lists.
ghost use Rattle.std.specs.Prelude.{◌≡◌, ◌↔◌, ℕ, List, Some, length, map, option_map, IfOk, IfSome, IfNone, OnOk, ◌≤◌, [], is_none, string_bytes, IsOk, IsTrue};
ghost use Rattle.gix_ref_file.specs.Tree.{node_at, place_of, bytes_of, bytes_at, names_at, part, overwritten};
ghost use Rattle.gix_ref_file.specs.Changes.{Change, to_create, to_write, to_append, to_shorten, to_rename, to_remove_file, to_make_folder, to_remove_folder};
ghost use Rattle.gix_ref_file.specs.Calls.{Finds};
ghost use Rattle.gix_ref_folder.specs.Systems.{IsPlaceOf, AreNames, Reads};
ghost use Rattle.gix_ref_folder.specs.Folders.{failures_of, last_in, root_of, part_of, system_of, history_in, IsHonestIn, IsPlaceIn, IsFileIn, IsFileThere, Acts};

use crate::failure::Failure;
use crate::failures::Failures;
use crate::last_call::{LastCall, Outcome, nothing_there};
use crate::part::Part;
use crate::system::{Found, System};
use crate::system_errors::{is_missing, is_new};
use gix_ref_file::laws::names_ascend;
use gix_ref_file::paths::is_path;
use gix_ref_file::{FileError, Files, Place};
use std::alloc::Global;
use std::io::{self, ErrorKind};
use std::rc::Rc;

// The most bytes that most systems take in a name, and that a name may have beside which `.lock` is to fit too.
const LONGEST_FILE_NAME: usize = 255;

const LONGEST_NAME: usize = 250;

// The most bytes that most systems take in a path.
const LONGEST_PATH: usize = 4095;

// The most bytes of HEAD, or of a name's file: `ref: `, a path and a line feed.
const LONGEST_NAME_FILE: u64 = 4_102;

/// The most bytes of a root. Below it the system takes the paths of all objects, and of all that a name of at most 250 bytes has, as its
/// log's lock.
pub const LONGEST_ROOT: usize = 3800;

/// A part of a real folder. What exists at a path is looked up by each call anew, but for the file
/// that the last change made or wrote: it is renamed without a look.
///
/// A call returns `Failed` also for a path that isn't UTF-8, and if what is there is neither a file nor a folder, as a link, and to read
/// HEAD or a name's file of over 4,102 bytes, which can hold no name and no id. The root always counts as a folder. Nothing exists at a path that is too long for the system, so that only changes fail there, and a look at a lock
/// file, which is for whoever is to make it.
///
/// It does what [`Files`] says where the system does what [`System`] says of this part of what is below the root.
#[derive(Drop)]
pub struct Folder<S: System> {
    alloc: Global,
    system: S,
    root: String,
    part: Part,
    failures: Failures,
    // The system's path of the file that the last change made or wrote; `None` if it did neither.
    written: Option<String>,
}

impl<S: System> Folder<S> {
    /// Shows a part of the folder at `root`, which need not exist yet.
    pub fn new(alloc: Global, system: S, root: String, part: Part) -> Self
        ensures system { system_of result ≡ system }
        ensures root { root_of result ≡ root }
        ensures part { part_of result ≡ part }
        ensures failures { failures_of result ≡ 0 }
        ensures honest { S.is_honest system (string_bytes root) part
            → IsHonestIn S.is_honest S.history result }
    {
        Folder {
            alloc,
            system,
            root,
            part,
            failures: Failures::new(),
            written: None,
        }
    }

    /// Keeps in `call` what came of each call from now on. The other part may share it.
    pub fn share(&mut self, call: Rc<LastCall>)
        ensures history { history_in S.history self.new ≡ history_in S.history self.old }
        ensures honest { IsHonestIn S.is_honest S.history self.old
            → IsHonestIn S.is_honest S.history self.new }
        ensures failures { failures_of self.new ≡ failures_of self.old }
        ensures root { root_of self.new ≡ root_of self.old }
        ensures part { part_of self.new ≡ part_of self.old }
    {
        self.failures.share(call);
    }

    /// Returns the last change that failed, if one did; one that was refused memory isn't kept.
    pub fn last_failure(&self) -> Option<&Failure>
        ensures last { option_map (λ last. last.now) result ≡ last_in self.now }
        ensures none { IfNone result (failures_of self.now ≡ 0) }
    {
        self.failures.last()
    }

    // The system's path of what is at a path of the part; `None` where nothing may be.
    fn place(&self, path: &[u8]) -> io::Result<Option<String>>
        ensures { IfOk result (λ place.
            IsPlaceIn (string_bytes self.now.root) self.now.part path.now place) }
    {
        if !is_path(path) || !self.part.has(path) {
            return Ok(None);
        }
        let Ok(path) = str::from_utf8(path) else {
            return Err(io::Error::new(ErrorKind::InvalidInput, "not UTF-8"));
        };
        let mut place = String::from_str(self.alloc, self.root.as_str())?;
        place.push('/')?;
        place.push_str(path)?;
        Ok(Some(place))
    }

    // The system's path of what is to be changed.
    fn target(&self, path: &[u8]) -> io::Result<String>
        ensures { IfOk result (λ place.
            IsPlaceOf (string_bytes self.now.root) self.now.part path.now (string_bytes place)) }
    {
        let place = self.place(path)?;
        place.ok_or(io::Error::new(ErrorKind::InvalidInput, "no path of this part"))
    }

    // The system's path of a file that is to be made or written; an error if its lock file could have no name.
    fn file_target(&self, path: &[u8]) -> io::Result<String>
        ensures { IfOk result (λ place.
            IsPlaceOf (string_bytes self.now.root) self.now.part path.now (string_bytes place)) }
    {
        if self.part == Part::Names && !has_lock_name(path) {
            return Err(io::Error::new(ErrorKind::InvalidFilename, "no name for its lock file"));
        }
        self.target(path)
    }

    // What the system has at a path of its own.
    fn found(&self, place: &str) -> io::Result<Place>
        ensures { Reads S.is_honest S.history self.now.system place.now
            (λ tree path. IfOk result (λ found. found ≡ place_of (node_at tree path))) }
    {
        match self.system.kind(place) {
            Ok(Found::File(len)) => Ok(Place::File(len)),
            Ok(Found::Folder) => Ok(Place::Folder),
            Ok(Found::Other) => Err(io::Error::other("neither a file nor a folder")),
            Err(error) if is_missing(&error) => Ok(Place::Absent),
            Err(error) => Err(error),
        }
    }

    fn kind(&self, path: &[u8]) -> io::Result<Place>
        ensures { Finds (IsHonestIn S.is_honest S.history) (history_in S.history) self.now
            (λ tree. IfOk result (λ found. found ≡ place_of (node_at tree path.now))) }
    {
        if path.is_empty() {
            return Ok(Place::Folder);
        }
        if !self.has_room(path) {
            return Err(io::Error::new(ErrorKind::InvalidFilename, "File name too long"));
        }
        match self.place(path)? {
            Some(place) => self.found(place.as_str()),
            None => Ok(Place::Absent),
        }
    }

    // Whether the system takes the paths below the root, and this one if it is a lock's: a name's
    // log is to have one too, if it is cut.
    fn has_room(&self, path: &[u8]) -> bool {
        let root = self.root.len();
        if root > LONGEST_ROOT {
            return false;
        }
        let above = if path.starts_with(b"logs/") { 0 } else { 5 };
        !path.ends_with(b".lock")
            || (path.len() < LONGEST_PATH - root - above && has_short_names(path))
    }

    // Returns whether the last change made or wrote the file at this path of the system's.
    fn is_written(&self, place: &str) -> bool
        ensures { Finds (IsHonestIn S.is_honest S.history) (history_in S.history) self.now
            (λ tree. IsTrue result
            → IsFileThere (string_bytes self.now.root) self.now.part tree place.now) }
    {
        match &self.written {
            Some(written) => is_place(written, place),
            None => false,
        }
    }

    // The system's path of a file; `None` if there is none.
    fn file_place(&self, path: &[u8]) -> io::Result<Option<String>>
        ensures { Finds (IsHonestIn S.is_honest S.history) (history_in S.history) self.now
            (λ tree. IfOk result (λ file.
            IsFileIn (string_bytes self.now.root) self.now.part path.now tree file)) }
    {
        let Some(place) = self.place(path)? else {
            return Ok(None);
        };
        if self.is_written(place.as_str()) {
            return Ok(Some(place));
        }
        match self.found(place.as_str())? {
            Place::File(_) => Ok(Some(place)),
            Place::Absent | Place::Folder => Ok(None),
        }
    }

    // A file's bytes.
    fn bytes(&self, path: &[u8]) -> io::Result<Option<Vec<u8>>>
        ensures { Finds (IsHonestIn S.is_honest S.history) (history_in S.history) self.now
            (λ tree. IfOk result (λ bytes. option_map (λ it. it.items) bytes
            ≡ bytes_of (node_at tree path.now))) }
    {
        match self.place(path)? {
            Some(place) => {
                let most = longest(path);
                self.system.read(self.alloc, place.as_str(), most)
            }
            None => Ok(None),
        }
    }

    // What the reading of a file came to, if it didn't fail. An object is read only if it was there,
    // so that somebody took it away.
    fn outcome_of(&self, path: &[u8], is_there: bool) -> Outcome {
        match (self.part, is_there) {
            (Part::Objects, true) => Outcome::Object,
            (Part::Objects, false) => Outcome::Failed(self.absence(path)),
            (Part::Names, is_there) => Outcome::Read(is_there),
        }
    }

    // The system's reason why no file is at a path.
    fn absence(&self, path: &[u8]) -> io::Error {
        let Ok(Some(place)) = self.place(path) else {
            return nothing_there();
        };
        match self.system.kind(place.as_str()) {
            Err(error) => error,
            Ok(_) => nothing_there(),
        }
    }

    // Puts what a file has from a byte on into the beginning of a buffer, and returns how many bytes that is.
    fn bytes_from(&self, path: &[u8], at: u64, buffer: &mut [u8]) -> io::Result<Option<usize>>
        ensures count { Finds (IsHonestIn S.is_honest S.history) (history_in S.history) self.now
            (λ tree. IfOk result (λ count.
            count ≡ option_map (λ bytes. length (part bytes at (length buffer.old)))
            (bytes_of (node_at tree path.now)))) }
        ensures bytes { Finds (IsHonestIn S.is_honest S.history) (history_in S.history) self.now
            (λ tree. OnOk result (buffer.new
            ≡ overwritten buffer.old (part (bytes_at tree path.now) at (length buffer.old)))) }
        ensures fits { IfOk result (λ count. IfSome count (λ n. n ≤ length buffer.new)) }
        ensures len { length buffer.new ≡ length buffer.old }
    {
        match self.place(path)? {
            Some(place) => self.system.read_at(place.as_str(), at, buffer),
            None => Ok(None),
        }
    }

    // The names right in a folder, in any order.
    fn names(&self, alloc: Global, folder: &[u8]) -> io::Result<Vec<Vec<u8>>>
        ensures { Finds (IsHonestIn S.is_honest S.history) (history_in S.history) self.now
            (λ tree. IfOk result (λ names. AreNames tree folder.now names.items)) }
    {
        if folder.is_empty() {
            return self.root_names(alloc);
        }
        match self.place(folder)? {
            Some(place) => self.names_at(alloc, place.as_str()),
            None => Ok(Vec::new(alloc)),
        }
    }

    fn names_at(&self, alloc: Global, place: &str) -> io::Result<Vec<Vec<u8>>>
        ensures { Reads S.is_honest S.history self.now.system place.now
            (λ tree path. IfOk result (λ names. AreNames tree path names.items)) }
    {
        match self.system.list(alloc, place) {
            Ok(names) => Ok(names),
            Err(error) if is_missing(&error) => Ok(Vec::new(alloc)),
            Err(error) => Err(error),
        }
    }

    // Those of the root that are of the part.
    fn root_names(&self, alloc: Global) -> io::Result<Vec<Vec<u8>>>
        ensures { Finds (IsHonestIn S.is_honest S.history) (history_in S.history) self.now
            (λ tree. IfOk result (λ names. AreNames tree [] names.items)) }
    {
        let part = self.part;
        let mut names = self.system.list_root(alloc, self.root.as_str())?;
        names.retain(|name| part.has(name));
        Ok(names)
    }

    // The names right in a folder, ascending.
    fn sorted_names(&self, alloc: Global, folder: &[u8]) -> io::Result<Vec<Vec<u8>>>
        ensures { Finds (IsHonestIn S.is_honest S.history) (history_in S.history) self.now
            (λ tree. IfOk result (λ names. map (λ name. name.items) names.items
            ≡ names_at tree folder.now)) }
    {
        names_ascend();
        let mut names = self.names(alloc, folder)?;
        names.sort()?;
        Ok(names)
    }

    fn make_new(&mut self, path: &[u8], bytes: &[u8]) -> io::Result<bool>
        ensures change { Acts S.is_honest S.history self.old self.new
            (to_create path.now bytes.now) result }
        ensures is_new { Finds (IsHonestIn S.is_honest S.history) (history_in S.history) self.old
            (λ tree. IfOk result (λ made. made ≡ is_none (node_at tree path.now))) }
        ensures failures { failures_of self.new ≡ failures_of self.old }
    {
        if path.is_empty() {
            // The root is there.
            return Ok(false);
        }
        let place = self.file_target(path)?;
        let made = self.system.create_new(place.as_str(), bytes);
        self.written = if_written(place, &made);
        is_new(made)
    }

    fn put(&mut self, path: &[u8], bytes: &[u8]) -> io::Result<()>
        ensures change { Acts S.is_honest S.history self.old self.new
            (to_write path.now bytes.now) result }
        ensures failures { failures_of self.new ≡ failures_of self.old }
    {
        let place = self.file_target(path)?;
        let done = self.system.write(place.as_str(), bytes);
        self.written = if_written(place, &done);
        done
    }

    fn lengthen(&mut self, path: &[u8], bytes: &[u8]) -> io::Result<()>
        ensures change { Acts S.is_honest S.history self.old self.new
            (to_append path.now bytes.now) result }
        ensures failures { failures_of self.new ≡ failures_of self.old }
    {
        let place = self.file_target(path)?;
        let done = self.system.append(place.as_str(), bytes);
        self.written = if_written(place, &done);
        done
    }

    fn cut(&mut self, path: &[u8], length: u64) -> io::Result<()>
        ensures change { Acts S.is_honest S.history self.old self.new
            (to_shorten path.now length) result }
        ensures failures { failures_of self.new ≡ failures_of self.old }
    {
        let place = self.target(path)?;
        self.written = None;
        self.system.shorten(place.as_str(), length)
    }

    // The system's path of a file that is to be moved. The system would move a folder too.
    fn source(&self, path: &[u8]) -> io::Result<String>
        ensures { Finds (IsHonestIn S.is_honest S.history) (history_in S.history) self.now
            (λ tree. IfOk result (λ place.
            IsFileIn (string_bytes self.now.root) self.now.part path.now tree (Some place))) }
    {
        match self.file_place(path)? {
            Some(place) => Ok(place),
            None => Err(nothing_there()),
        }
    }

    // Moves the file at a place that was looked up, if it was found.
    fn move_file(&mut self, source: io::Result<String>, to: &[u8]) -> io::Result<()>
        ensures change { (from : List ℕ)
            → Finds (IsHonestIn S.is_honest S.history) (history_in S.history) self.old
            (λ tree. IfOk source (λ place.
            IsFileIn (string_bytes self.old.root) self.old.part from tree (Some place)))
            → Acts S.is_honest S.history self.old self.new (to_rename from to.now) result }
        ensures failures { failures_of self.new ≡ failures_of self.old }
    {
        let from = source?;
        let to = self.target(to)?;
        self.written = None;
        self.system.rename(from.as_str(), to.as_str())
    }

    fn take_file(&mut self, path: &[u8]) -> io::Result<()>
        ensures change { Acts S.is_honest S.history self.old self.new
            (to_remove_file path.now) result }
        ensures failures { failures_of self.new ≡ failures_of self.old }
    {
        let place = self.target(path)?;
        self.written = None;
        self.system.remove_file(place.as_str())
    }

    fn put_folder(&mut self, path: &[u8]) -> io::Result<()>
        ensures change { Acts S.is_honest S.history self.old self.new
            (to_make_folder path.now) result }
        ensures failures { failures_of self.new ≡ failures_of self.old }
    {
        let place = self.target(path)?;
        self.written = None;
        self.system.make_folder(place.as_str())
    }

    fn take_folder(&mut self, path: &[u8]) -> io::Result<()>
        ensures change { Acts S.is_honest S.history self.old self.new
            (to_remove_folder path.now) result }
        ensures failures { failures_of self.new ≡ failures_of self.old }
    {
        let place = self.target(path)?;
        self.written = None;
        self.system.remove_folder(place.as_str())
    }
}

// The most bytes that are read of what is at a path. What HEAD or a name holds is short; a log,
// `packed-refs` and an object have no greatest size here.
fn longest(path: &[u8]) -> u64 {
    if path == b"HEAD".as_slice() || path.starts_with(b"refs/") {
        LONGEST_NAME_FILE
    } else {
        u64::MAX
    }
}

fn is_place(written: &String, place: &str) -> bool
    ensures { IsTrue result ↔ (string_bytes written.now ≡ place.now) }
{
    written.as_bytes() == place.as_bytes()
}

// Returns the system's path of a file, if a change made or wrote it.
fn if_written(place: String, done: &io::Result<()>) -> Option<String>
    ensures { IfSome result (λ written. (written ≡ place) × IsOk done.now) }
{
    match done {
        Ok(()) => Some(place),
        Err(_) => None,
    }
}

fn has_found<T>(read: &io::Result<Option<T>>) -> bool {
    !matches!(read, Ok(None))
}

fn has_short_names(path: &[u8]) -> bool {
    path.split(|byte| *byte == b'/')
        .all(|name| name.len() <= LONGEST_FILE_NAME)
}

// Whether a lock file can be beside a file. A lock file has none itself.
fn has_lock_name(path: &[u8]) -> bool {
    if path.ends_with(b".lock") {
        return true;
    }
    match path.len().checked_sub(LONGEST_NAME + 1) {
        Some(start) => path[start..].contains(&b'/'),
        None => true,
    }
}

impl<S: System> Files for Folder<S> {
    ghost use Rattle.std.specs.Prelude.{⊤};
    ghost use Rattle.gix_ref_folder.specs.Folders.{failures_of, history_in, IsHonestIn};

    ghost history = { history_in S.history };

    ghost is_honest = { IsHonestIn S.is_honest S.history };

    ghost failures = { λ folder. failures_of folder };

    ghost reading_may_fail = { ⊤ };

    ghost is_atomic = { ⊥ };

    fn kind_of(&self, path: &[u8]) -> Result<Place, FileError> {
        let found = self.kind(path);
        let is_there = !matches!(found, Ok(Place::Absent));
        self.failures.read(path, found, Outcome::Read(is_there))
    }

    fn read(&self, path: &[u8], out: &mut Vec<u8>) -> Result<Option<usize>, FileError> {
        let read = self.bytes(path);
        let outcome = self.outcome_of(path, has_found(&read));
        let Some(bytes) = self.failures.read(path, read, outcome)? else {
            return Ok(None);
        };
        out.extend_from_slice(&bytes)?;
        Ok(Some(bytes.len()))
    }

    fn read_at(&self, path: &[u8], at: u64, buffer: &mut [u8]) -> Result<Option<usize>, FileError> {
        let read = self.bytes_from(path, at, buffer);
        let outcome = self.outcome_of(path, has_found(&read));
        self.failures.read(path, read, outcome)
    }

    fn list(&self, alloc: Global, folder: &[u8]) -> Result<Vec<Vec<u8>>, FileError> {
        let names = self.sorted_names(alloc, folder);
        self.failures.read(folder, names, Outcome::Read(true))
    }

    fn create_new(&mut self, alloc: Global, path: &[u8], bytes: &[u8]) -> Result<bool, FileError> {
        let made = self.make_new(path, bytes);
        self.failures.made(path, &made);
        self.failures.changed(alloc, path, made)
    }

    fn write(&mut self, alloc: Global, path: &[u8], bytes: &[u8]) -> Result<(), FileError> {
        let written = self.put(path, bytes);
        self.failures.changed(alloc, path, written)
    }

    fn append(&mut self, alloc: Global, path: &[u8], bytes: &[u8]) -> Result<(), FileError> {
        let written = self.lengthen(path, bytes);
        self.failures.changed(alloc, path, written)
    }

    fn shorten(&mut self, alloc: Global, path: &[u8], length: u64) -> Result<(), FileError> {
        let shortened = self.cut(path, length);
        self.failures.changed(alloc, path, shortened)
    }

    fn rename(&mut self, alloc: Global, from: &[u8], to: &[u8]) -> Result<(), FileError> {
        let source = self.source(from);
        let named = if source.is_ok() { to } else { from };
        let moved = self.move_file(source, to);
        self.failures.changed(alloc, named, moved)
    }

    fn remove_file(&mut self, alloc: Global, path: &[u8]) -> Result<(), FileError> {
        let removed = self.take_file(path);
        self.failures.changed(alloc, path, removed)
    }

    fn make_folder(&mut self, alloc: Global, path: &[u8]) -> Result<(), FileError> {
        let made = self.put_folder(path);
        self.failures.changed(alloc, path, made)
    }

    fn remove_empty_folder(&mut self, alloc: Global, path: &[u8]) -> Result<(), FileError> {
        let removed = self.take_folder(path);
        self.failures.changed(alloc, path, removed)
    }

    ghost rooted = { λ folder honest. (S.shown (system_of folder) _ _ honest.0).rooted };
}
