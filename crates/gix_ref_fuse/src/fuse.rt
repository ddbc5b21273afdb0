//! Files of which one call fails, or all from one on (`Fuse`): which call, and what is left of a change.
ghost use Rattle.std.specs.Prelude.{◌≡◌, ◌+◌, ◌-◌, ◌^◌, ◌≤◌, ℕ, min, IsErrOf};
ghost use Rattle.gix_ref_file.specs.declared.files.FileError.TheVariants.{Failed, Memory};
ghost use Rattle.gix_ref_file.specs.History.{HasRisen};
ghost use Rattle.gix_ref_fuse.specs.Fuse.{inner, own_failures, plan_of, stop_at, fail_at, turn_at, last_change};

use gix_ref_file::{FileError, Files, Place};
use std::alloc::Global;
use std::cell::Cell;

/// Files whose calls, readings and changes alike, are counted from 1 on. From a chosen call on
/// nothing is done any more, as after a stop of the process, or that one call fails and the later
/// ones go through.
///
/// At the chosen call a reading returns `Failed`. So does a change, which leaves nothing, or of the
/// bytes that it was to write the first so many; a change without bytes is then made whole. It
/// returns `Memory` if memory was refused on the way.
#[derive(Drop)]
pub struct Fuse<F: Files> {
    files: F,
    // How many calls were made up to the last change, and how many readings since then.
    calls: u64,
    readings: Cell<u64>,
    chosen: u64,
    kept: Option<usize>,
    // Whether the calls after the chosen one do nothing.
    stops: bool,
    failures: u64,
}

// What one call does.
#[derive(Clone, Copy)]
pub enum Turn {
    Whole,
    // So many of its bytes, and fails.
    Part(usize),
    // Nothing, and fails.
    Nothing,
}

impl<F: Files> Fuse<F> {
    /// Stops at the call of this number: it and all later ones return `Failed`. It leaves the first
    /// `kept` bytes of what it was to write, or nothing at `None`; the later ones leave nothing. At
    /// 0 no call stops.
    pub fn stopping_at(files: F, call: u64, kept: Option<usize>) -> Self
        ensures plan { plan_of result ≡ stop_at call kept }
        ensures calls { last_change result ≡ 0 }
        ensures files { inner result ≡ files }
        ensures failures { own_failures result ≡ 0 }
    {
        Fuse::new(files, call, kept, true)
    }

    /// Fails at the call of this number, which leaves the first `kept` bytes of what it was to
    /// write, or nothing at `None`. The later calls go through. At 0 no call fails.
    pub fn failing_at(files: F, call: u64, kept: Option<usize>) -> Self
        ensures plan { plan_of result ≡ fail_at call kept }
        ensures calls { last_change result ≡ 0 }
        ensures files { inner result ≡ files }
        ensures failures { own_failures result ≡ 0 }
    {
        Fuse::new(files, call, kept, false)
    }

    fn new(files: F, chosen: u64, kept: Option<usize>, stops: bool) -> Self
        ensures chosen { (plan_of result).chosen ≡ chosen }
        ensures kept { (plan_of result).kept ≡ kept }
        ensures stops { (plan_of result).stops ≡ stops }
        ensures calls { last_change result ≡ 0 }
        ensures files { inner result ≡ files }
        ensures failures { own_failures result ≡ 0 }
    {
        Fuse {
            files,
            calls: 0,
            readings: Cell::new(0),
            chosen,
            kept,
            stops,
            failures: 0,
        }
    }

    /// Returns how many calls were made so far, up to the last `u64`.
    pub fn calls(&self) -> u64
        ensures { last_change self.now ≤ result }
    {
        self.calls.saturating_add(self.readings.get())
    }

    /// Returns the files as the calls left them.
    pub fn into_inner(self) -> F
        ensures { result ≡ inner self }
    {
        self.files
    }

    // Counts a reading, and returns what it does.
    fn reading_turn(&self) -> Turn
        ensures { (call : ℕ) × HasRisen (last_change self.now) call
            × (result ≡ turn_at (plan_of self.now) call) }
    {
        let readings = self.readings.get().saturating_add(1);
        self.readings.set(readings);
        self.turn(self.calls.saturating_add(readings))
    }

    // Counts a change, and returns what it does.
    fn change_turn(&mut self) -> Turn
        ensures turn { result ≡ turn_at (plan_of self.old) (last_change self.new) }
        ensures count { HasRisen (last_change self.old) (last_change self.new) }
        ensures plan { plan_of self.new ≡ plan_of self.old }
        ensures files { inner self.new ≡ inner self.old }
        ensures failures { own_failures self.new ≡ own_failures self.old }
    {
        let readings = self.readings.replace(0);
        self.calls = self.calls.saturating_add(readings).saturating_add(1);
        self.turn(self.calls)
    }

    // What the call of a number does.
    fn turn(&self, call: u64) -> Turn
        ensures { result ≡ turn_at (plan_of self.now) call }
    {
        if call < self.chosen || self.chosen == 0 {
            return Turn::Whole;
        }
        if call == self.chosen {
            return match self.kept {
                Some(kept) => Turn::Part(kept),
                None => Turn::Nothing,
            };
        }
        if self.stops {
            Turn::Nothing
        } else {
            Turn::Whole
        }
    }

    // Counts a failed change.
    fn failed(&mut self) -> FileError
        ensures error { result ≡ Failed }
        ensures count { own_failures self.new ≡ min (own_failures self.old + 1) (2 ^ 64 - 1) }
        ensures files { inner self.new ≡ inner self.old }
        ensures calls { last_change self.new ≡ last_change self.old }
        ensures plan { plan_of self.new ≡ plan_of self.old }
    {
        self.failures = self.failures.saturating_add(1);
        FileError::Failed
    }

    // Counts a failed change of which a part was made, unless memory was refused to it.
    fn failed_part<T>(&mut self, part: &Result<T, FileError>) -> FileError
        ensures error { result ≡ Failed → IsErrOf part.now Memory → ⊥ }
        ensures failed { result ≡ Failed
            → own_failures self.new ≡ min (own_failures self.old + 1) (2 ^ 64 - 1) }
        ensures memory { result ≡ Memory → own_failures self.new ≡ own_failures self.old }
        ensures refused { result ≡ Memory → IsErrOf part.now Memory }
        ensures files { inner self.new ≡ inner self.old }
        ensures calls { last_change self.new ≡ last_change self.old }
        ensures plan { plan_of self.new ≡ plan_of self.old }
    {
        match part {
            Err(FileError::Memory) => FileError::Memory,
            _ => self.failed(),
        }
    }
}

impl<F: Files> Files for Fuse<F> {
    ghost use Rattle.std.specs.Prelude.{⊤, ◌++◌, length, map, take, option_map, unwrap_or, is_none, IfOk, IfSome, OnOk, OnErr};
    ghost use Rattle.gix_ref_file.specs.Tree.{node_at, place_of, bytes_of, bytes_at, part, overwritten, names_at};
    ghost use Rattle.gix_ref_file.specs.Changes.{to_create, to_write, to_append, to_shorten, to_rename, to_remove_file, to_make_folder, to_remove_folder, allows};
    ghost use Rattle.gix_ref_file.specs.History.{Makes, HasCause};
    ghost use Rattle.gix_ref_fuse.specs.Fuse.{failed_in, Reads, Acts};

    // A method with clauses of its own says those of `Files` again; the last of each is the fuse's.

    ghost history = { λ fuse. F.history (inner fuse) };

    ghost is_honest = { λ fuse. F.is_honest (inner fuse) };

    ghost failures = { failed_in F.failures };

    ghost reading_may_fail = { ⊤ };

    ghost is_atomic = { ⊥ };

    fn kind_of(&self, path: &[u8]) -> Result<Place, FileError>
        ensures place { F.is_honest (inner self.now)
            → IfOk result (λ place. place ≡ place_of (node_at (F.history (inner self.now)).tree path.now)) }
        ensures turn { (call : ℕ) × HasRisen (last_change self.now) call
            × Reads F.reading_may_fail (turn_at (plan_of self.now) call) result }
    {
        match self.reading_turn() {
            Turn::Whole => self.files.kind_of(path),
            _ => Err(FileError::Failed),
        }
    }

    fn read(&self, path: &[u8], out: &mut Vec<u8>) -> Result<Option<usize>, FileError>
        ensures count { F.is_honest (inner self.now)
            → IfOk result (λ count.
            count ≡ option_map length (bytes_of (node_at (F.history (inner self.now)).tree path.now))) }
        ensures bytes { F.is_honest (inner self.now)
            → OnOk result (out.new.items
            ≡ out.old.items ++ bytes_at (F.history (inner self.now)).tree path.now) }
        ensures front { take (length out.old.items) out.new.items ≡ out.old.items }
        ensures grown { IfOk result (λ count. length out.new.items
            ≡ length out.old.items + unwrap_or count 0) }
        ensures err { OnErr result (out.new.items ≡ out.old.items) }
        ensures turn { (call : ℕ) × HasRisen (last_change self.now) call
            × Reads F.reading_may_fail (turn_at (plan_of self.now) call) result }
    {
        match self.reading_turn() {
            Turn::Whole => self.files.read(path, out),
            _ => Err(FileError::Failed),
        }
    }

    fn read_at(&self, path: &[u8], at: u64, buffer: &mut [u8]) -> Result<Option<usize>, FileError>
        ensures count { F.is_honest (inner self.now)
            → IfOk result (λ count.
            count ≡ option_map (λ bytes. length (part bytes at (length buffer.old)))
            (bytes_of (node_at (F.history (inner self.now)).tree path.now))) }
        ensures bytes { F.is_honest (inner self.now)
            → OnOk result (buffer.new
            ≡ overwritten buffer.old
            (part (bytes_at (F.history (inner self.now)).tree path.now) at (length buffer.old))) }
        ensures fits { IfOk result (λ count. IfSome count (λ n. n ≤ length buffer.new)) }
        ensures len { length buffer.new ≡ length buffer.old }
        ensures turn { (call : ℕ) × HasRisen (last_change self.now) call
            × Reads F.reading_may_fail (turn_at (plan_of self.now) call) result }
    {
        match self.reading_turn() {
            Turn::Whole => self.files.read_at(path, at, buffer),
            _ => Err(FileError::Failed),
        }
    }

    fn list(&self, alloc: Global, folder: &[u8]) -> Result<Vec<Vec<u8>>, FileError>
        ensures names { F.is_honest (inner self.now)
            → IfOk result (λ names. map (λ name. name.items) names.items
            ≡ names_at (F.history (inner self.now)).tree folder.now) }
        ensures turn { (call : ℕ) × HasRisen (last_change self.now) call
            × Reads F.reading_may_fail (turn_at (plan_of self.now) call) result }
    {
        match self.reading_turn() {
            Turn::Whole => self.files.list(alloc, folder),
            _ => Err(FileError::Failed),
        }
    }

    fn create_new(&mut self, alloc: Global, path: &[u8], bytes: &[u8]) -> Result<bool, FileError>
        ensures honest { F.is_honest (inner self.old) → F.is_honest (inner self.new) }
        ensures is_new { F.is_honest (inner self.old)
            → IfOk result (λ made. made ≡ is_none (node_at (F.history (inner self.old)).tree path.now)) }
        ensures change { F.is_honest (inner self.old)
            → Makes (to_create path.now bytes.now) (F.history (inner self.old)) (F.history (inner self.new)) result }
        ensures cause { F.is_honest (inner self.old)
            → HasCause (allows (F.history (inner self.old)).tree (to_create path.now bytes.now))
            (failed_in F.failures self.old) (failed_in F.failures self.new) result }
        ensures later { failed_in F.failures self.old ≤ failed_in F.failures self.new }
        ensures unfailed { OnOk result (failed_in F.failures self.new ≡ failed_in F.failures self.old) }
        ensures memory { IsErrOf result Memory → failed_in F.failures self.new ≡ failed_in F.failures self.old }
        ensures count { HasRisen (last_change self.old) (last_change self.new) }
        ensures plan { plan_of self.new ≡ plan_of self.old }
        ensures turn { F.is_honest (inner self.old) → Acts F.history F.failures
            (turn_at (plan_of self.old) (last_change self.new)) (to_create path.now bytes.now) self.old self.new result }
    {
        match self.change_turn() {
            Turn::Whole => self.files.create_new(alloc, path, bytes),
            Turn::Part(kept) => {
                let kept = kept.min(bytes.len());
                let part = self.files.create_new(alloc, path, &bytes[..kept]);
                Err(self.failed_part(&part))
            }
            Turn::Nothing => Err(self.failed()),
        }
    }

    fn write(&mut self, alloc: Global, path: &[u8], bytes: &[u8]) -> Result<(), FileError>
        ensures honest { F.is_honest (inner self.old) → F.is_honest (inner self.new) }
        ensures change { F.is_honest (inner self.old)
            → Makes (to_write path.now bytes.now) (F.history (inner self.old)) (F.history (inner self.new)) result }
        ensures cause { F.is_honest (inner self.old)
            → HasCause (allows (F.history (inner self.old)).tree (to_write path.now bytes.now))
            (failed_in F.failures self.old) (failed_in F.failures self.new) result }
        ensures later { failed_in F.failures self.old ≤ failed_in F.failures self.new }
        ensures unfailed { OnOk result (failed_in F.failures self.new ≡ failed_in F.failures self.old) }
        ensures memory { IsErrOf result Memory → failed_in F.failures self.new ≡ failed_in F.failures self.old }
        ensures count { HasRisen (last_change self.old) (last_change self.new) }
        ensures plan { plan_of self.new ≡ plan_of self.old }
        ensures turn { F.is_honest (inner self.old) → Acts F.history F.failures
            (turn_at (plan_of self.old) (last_change self.new)) (to_write path.now bytes.now) self.old self.new result }
    {
        match self.change_turn() {
            Turn::Whole => self.files.write(alloc, path, bytes),
            Turn::Part(kept) => {
                let kept = kept.min(bytes.len());
                let part = self.files.write(alloc, path, &bytes[..kept]);
                Err(self.failed_part(&part))
            }
            Turn::Nothing => Err(self.failed()),
        }
    }

    fn append(&mut self, alloc: Global, path: &[u8], bytes: &[u8]) -> Result<(), FileError>
        ensures honest { F.is_honest (inner self.old) → F.is_honest (inner self.new) }
        ensures change { F.is_honest (inner self.old)
            → Makes (to_append path.now bytes.now) (F.history (inner self.old)) (F.history (inner self.new)) result }
        ensures cause { F.is_honest (inner self.old)
            → HasCause (allows (F.history (inner self.old)).tree (to_append path.now bytes.now))
            (failed_in F.failures self.old) (failed_in F.failures self.new) result }
        ensures later { failed_in F.failures self.old ≤ failed_in F.failures self.new }
        ensures unfailed { OnOk result (failed_in F.failures self.new ≡ failed_in F.failures self.old) }
        ensures memory { IsErrOf result Memory → failed_in F.failures self.new ≡ failed_in F.failures self.old }
        ensures count { HasRisen (last_change self.old) (last_change self.new) }
        ensures plan { plan_of self.new ≡ plan_of self.old }
        ensures turn { F.is_honest (inner self.old) → Acts F.history F.failures
            (turn_at (plan_of self.old) (last_change self.new)) (to_append path.now bytes.now) self.old self.new result }
    {
        match self.change_turn() {
            Turn::Whole => self.files.append(alloc, path, bytes),
            Turn::Part(kept) => {
                let kept = kept.min(bytes.len());
                let part = self.files.append(alloc, path, &bytes[..kept]);
                Err(self.failed_part(&part))
            }
            Turn::Nothing => Err(self.failed()),
        }
    }

    fn shorten(&mut self, alloc: Global, path: &[u8], length: u64) -> Result<(), FileError>
        ensures honest { F.is_honest (inner self.old) → F.is_honest (inner self.new) }
        ensures change { F.is_honest (inner self.old)
            → Makes (to_shorten path.now length) (F.history (inner self.old)) (F.history (inner self.new)) result }
        ensures cause { F.is_honest (inner self.old)
            → HasCause (allows (F.history (inner self.old)).tree (to_shorten path.now length))
            (failed_in F.failures self.old) (failed_in F.failures self.new) result }
        ensures later { failed_in F.failures self.old ≤ failed_in F.failures self.new }
        ensures unfailed { OnOk result (failed_in F.failures self.new ≡ failed_in F.failures self.old) }
        ensures memory { IsErrOf result Memory → failed_in F.failures self.new ≡ failed_in F.failures self.old }
        ensures count { HasRisen (last_change self.old) (last_change self.new) }
        ensures plan { plan_of self.new ≡ plan_of self.old }
        ensures turn { F.is_honest (inner self.old) → Acts F.history F.failures
            (turn_at (plan_of self.old) (last_change self.new)) (to_shorten path.now length) self.old self.new result }
    {
        match self.change_turn() {
            Turn::Whole => self.files.shorten(alloc, path, length),
            Turn::Part(_) => {
                let part = self.files.shorten(alloc, path, length);
                Err(self.failed_part(&part))
            }
            Turn::Nothing => Err(self.failed()),
        }
    }

    fn rename(&mut self, alloc: Global, from: &[u8], to: &[u8]) -> Result<(), FileError>
        ensures honest { F.is_honest (inner self.old) → F.is_honest (inner self.new) }
        ensures change { F.is_honest (inner self.old)
            → Makes (to_rename from.now to.now) (F.history (inner self.old)) (F.history (inner self.new)) result }
        ensures cause { F.is_honest (inner self.old)
            → HasCause (allows (F.history (inner self.old)).tree (to_rename from.now to.now))
            (failed_in F.failures self.old) (failed_in F.failures self.new) result }
        ensures later { failed_in F.failures self.old ≤ failed_in F.failures self.new }
        ensures unfailed { OnOk result (failed_in F.failures self.new ≡ failed_in F.failures self.old) }
        ensures memory { IsErrOf result Memory → failed_in F.failures self.new ≡ failed_in F.failures self.old }
        ensures count { HasRisen (last_change self.old) (last_change self.new) }
        ensures plan { plan_of self.new ≡ plan_of self.old }
        ensures turn { F.is_honest (inner self.old) → Acts F.history F.failures
            (turn_at (plan_of self.old) (last_change self.new)) (to_rename from.now to.now) self.old self.new result }
    {
        match self.change_turn() {
            Turn::Whole => self.files.rename(alloc, from, to),
            Turn::Part(_) => {
                let part = self.files.rename(alloc, from, to);
                Err(self.failed_part(&part))
            }
            Turn::Nothing => Err(self.failed()),
        }
    }

    fn remove_file(&mut self, alloc: Global, path: &[u8]) -> Result<(), FileError>
        ensures honest { F.is_honest (inner self.old) → F.is_honest (inner self.new) }
        ensures change { F.is_honest (inner self.old)
            → Makes (to_remove_file path.now) (F.history (inner self.old)) (F.history (inner self.new)) result }
        ensures cause { F.is_honest (inner self.old)
            → HasCause (allows (F.history (inner self.old)).tree (to_remove_file path.now))
            (failed_in F.failures self.old) (failed_in F.failures self.new) result }
        ensures later { failed_in F.failures self.old ≤ failed_in F.failures self.new }
        ensures unfailed { OnOk result (failed_in F.failures self.new ≡ failed_in F.failures self.old) }
        ensures memory { IsErrOf result Memory → failed_in F.failures self.new ≡ failed_in F.failures self.old }
        ensures count { HasRisen (last_change self.old) (last_change self.new) }
        ensures plan { plan_of self.new ≡ plan_of self.old }
        ensures turn { F.is_honest (inner self.old) → Acts F.history F.failures
            (turn_at (plan_of self.old) (last_change self.new)) (to_remove_file path.now) self.old self.new result }
    {
        match self.change_turn() {
            Turn::Whole => self.files.remove_file(alloc, path),
            Turn::Part(_) => {
                let part = self.files.remove_file(alloc, path);
                Err(self.failed_part(&part))
            }
            Turn::Nothing => Err(self.failed()),
        }
    }

    fn make_folder(&mut self, alloc: Global, path: &[u8]) -> Result<(), FileError>
        ensures honest { F.is_honest (inner self.old) → F.is_honest (inner self.new) }
        ensures change { F.is_honest (inner self.old)
            → Makes (to_make_folder path.now) (F.history (inner self.old)) (F.history (inner self.new)) result }
        ensures cause { F.is_honest (inner self.old)
            → HasCause (allows (F.history (inner self.old)).tree (to_make_folder path.now))
            (failed_in F.failures self.old) (failed_in F.failures self.new) result }
        ensures later { failed_in F.failures self.old ≤ failed_in F.failures self.new }
        ensures unfailed { OnOk result (failed_in F.failures self.new ≡ failed_in F.failures self.old) }
        ensures memory { IsErrOf result Memory → failed_in F.failures self.new ≡ failed_in F.failures self.old }
        ensures count { HasRisen (last_change self.old) (last_change self.new) }
        ensures plan { plan_of self.new ≡ plan_of self.old }
        ensures turn { F.is_honest (inner self.old) → Acts F.history F.failures
            (turn_at (plan_of self.old) (last_change self.new)) (to_make_folder path.now) self.old self.new result }
    {
        match self.change_turn() {
            Turn::Whole => self.files.make_folder(alloc, path),
            Turn::Part(_) => {
                let part = self.files.make_folder(alloc, path);
                Err(self.failed_part(&part))
            }
            Turn::Nothing => Err(self.failed()),
        }
    }

    fn remove_empty_folder(&mut self, alloc: Global, path: &[u8]) -> Result<(), FileError>
        ensures honest { F.is_honest (inner self.old) → F.is_honest (inner self.new) }
        ensures change { F.is_honest (inner self.old)
            → Makes (to_remove_folder path.now) (F.history (inner self.old)) (F.history (inner self.new)) result }
        ensures cause { F.is_honest (inner self.old)
            → HasCause (allows (F.history (inner self.old)).tree (to_remove_folder path.now))
            (failed_in F.failures self.old) (failed_in F.failures self.new) result }
        ensures later { failed_in F.failures self.old ≤ failed_in F.failures self.new }
        ensures unfailed { OnOk result (failed_in F.failures self.new ≡ failed_in F.failures self.old) }
        ensures memory { IsErrOf result Memory → failed_in F.failures self.new ≡ failed_in F.failures self.old }
        ensures count { HasRisen (last_change self.old) (last_change self.new) }
        ensures plan { plan_of self.new ≡ plan_of self.old }
        ensures turn { F.is_honest (inner self.old) → Acts F.history F.failures
            (turn_at (plan_of self.old) (last_change self.new)) (to_remove_folder path.now) self.old self.new result }
    {
        match self.change_turn() {
            Turn::Whole => self.files.remove_empty_folder(alloc, path),
            Turn::Part(_) => {
                let part = self.files.remove_empty_folder(alloc, path);
                Err(self.failed_part(&part))
            }
            Turn::Nothing => Err(self.failed()),
        }
    }

    ghost rooted = { λ fuse honest. F.rooted (inner fuse) honest };
}
