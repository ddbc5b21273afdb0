//! Transactions of `packed-refs`: lock, new text of edited records, then put in its place or rolled back.

ghost use Rattle.std.specs.Prelude.{◌≡◌, ◌≢◌, ◌⊎◌, [], true, false, Some, None, Err, map, option_map, IfOk, IfErr, IfSome, OnOk, IsTrue};
ghost use Rattle.gix_ref_file.specs.Tree.{node_at, bytes_at, bytes_of};
ghost use Rattle.gix_ref_file.specs.Changes.{is_file_at, may_hold_file};
ghost use Rattle.gix_ref_file.specs.Calls.{HasFault, Passes};
ghost use Rattle.gix_ref_file.specs.History.{HasRisen};
ghost use Rattle.gix_ref_format.specs.PackedBuffer.{KeepsFile};
ghost use Rattle.gix_ref_format.specs.PackedKept.{IsKnownOf, kept};
ghost use Rattle.gix_ref_format.specs.Edited.{line_of, lines_of};
ghost use Rattle.gix_ref_lock.specs.Records.{records_in, IsTextOf, HoldsEdited};
ghost use Rattle.gix_ref_lock.specs.RecordEdits.{line_in};
ghost use Rattle.gix_ref_lock.specs.Calls.{EndsQuietly, KeepsFolders, RestoresLock};
ghost use Rattle.gix_ref_lock.specs.Locks.{lock_of, HasLockPlace, OthersStay, IsTaken, MayBePut, IsPut};
ghost use Rattle.gix_ref_file.specs.declared.files.FileError.TheVariants as file_case;
ghost use Rattle.gix_ref_lock.specs.declared.packed.Error.TheVariants.{BufferOpen};
ghost use Rattle.gix_ref_lock.specs.declared.packed.PrepareError.TheVariants as prepare_case;
ghost use Rattle.gix_ref_lock.specs.declared.packed.CommitError.TheVariants as commit_case;
ghost use Rattle.gix_ref_lock.specs.PackedErrors.{IsShort, IsUnprepared, IsUncommitted, as_prepare, as_commit};

use crate::lock::{Lock, acquire};
use gix_hash::{Kind, ObjectId};
use gix_ref_file::{FileError, Files};
use gix_ref_format::laws::written_records_are_read;
use gix_ref_format::packed::{Buffer, Edit, Reference, buffer, packed_text, written};
use gix_ref_name::FullName;
use gix_ref_way::is_file;
use std::alloc::{AllocError, Global};
use thiserror::Error;

/// Why a lock isn't held.
#[derive(Debug, Clone, Copy, PartialEq, Eq, Error)]
pub enum LockError {
    /// Something is at its path: another transaction holds it, or one was stopped.
    #[error("the lock of the packed references is held already")]
    Held,
    /// It couldn't be made.
    #[error("the lock of the packed references can't be made")]
    Failed,
    /// No memory is left.
    #[error("no memory is left")]
    Memory,
}

/// Why no transaction is begun.
#[derive(Debug, Clone, Copy, PartialEq, Eq, Error)]
pub enum Error {
    /// The file couldn't be opened.
    #[error(transparent)]
    BufferOpen(buffer::Error),
    /// Its lock isn't held.
    #[error(transparent)]
    TransactionLock(LockError),
}

/// Why a transaction isn't prepared.
#[derive(Debug, Clone, Copy, PartialEq, Eq, Error)]
pub enum PrepareError {
    /// The new text couldn't be written.
    #[error("the lock of the packed references can't be written")]
    CloseLock,
    /// No memory is left.
    #[error("no memory is left")]
    Memory,
}

/// Why a transaction isn't committed.
#[derive(Debug, Clone, Copy, PartialEq, Eq, Error)]
pub enum CommitError {
    /// The lock couldn't be put in its place, or removed.
    #[error("the packed references can't be replaced")]
    Commit,
    /// No memory is left.
    #[error("no memory is left")]
    Memory,
}

/// What becomes of a name's record.
#[derive(Debug, Drop, PartialEq, Eq)]
pub enum RecordEdit {
    /// The name gets this record, in place of any that it has.
    Write {
        /// Its name.
        name: FullName,
        /// The id that it points to.
        target: ObjectId,
        /// The id of the object that a tag points to in the end.
        object: Option<ObjectId>,
    },
    /// The name gets no record.
    Remove {
        /// The name.
        name: FullName,
    },
}

impl From<AllocError> for PrepareError {
    ghost from_gives = { λ _ e. e ≡ prepare_case.Memory };

    fn from(_: AllocError) -> Self {
        PrepareError::Memory
    }
}

impl From<FileError> for PrepareError {
    ghost from_gives = { λ error e. e ≡ as_prepare error };

    fn from(error: FileError) -> Self {
        match error {
            FileError::Failed => PrepareError::CloseLock,
            FileError::Memory => PrepareError::Memory,
        }
    }
}

impl From<FileError> for CommitError {
    ghost from_gives = { λ error e. e ≡ as_commit error };

    fn from(error: FileError) -> Self {
        match error {
            FileError::Failed => CommitError::Commit,
            FileError::Memory => CommitError::Memory,
        }
    }
}

/// A change of `packed-refs` on its way: its lock is held until it is committed or rolled back, one
/// of which must be done.
#[derive(Debug)]
pub struct Transaction {
    pub(crate) lock: Lock,
    pub(crate) buffer: Option<Buffer>,
    pub(crate) kind: Kind,
    pub(crate) is_written: bool,
}

impl Transaction {
    ghost use Rattle.gix_ref_lock.specs.PackedEdits.{IsBegun, IsReadAt, IsSame, place_of, lock_path_of};

    /// Makes the lock of the file at this place, and reads the file, whose ids are of this kind. If it
    /// still has the bytes of `known`, what was read of it before, its records aren't parsed again.
    /// Returns `Held` if something is at the lock's path already; the other errors are those of
    /// `Buffer::open`, and the lock is then removed; if that fails, the error is `Failed`.
    pub fn new<F: Files>(
        alloc: Global,
        files: &mut F,
        place: &[u8],
        kind: Kind,
        known: Option<&Buffer>,
    ) -> Result<Transaction, Error>
        ensures keeps { KeepsFolders F.Files (EndsQuietly IsShort result) files.old files.new }
        ensures begun { F.is_honest files.old → IfOk result (IsBegun kind place.now
            (F.history files.old).tree (F.history files.new).tree) }
        ensures records { F.is_honest files.old
            → let file = bytes_of (node_at (F.history files.old).tree place.now) in
            IfSome known.entry (λ buffer. IsKnownOf kind file buffer.now)
            → IfOk result (λ t. KeepsFile kind file (option_map kept t.buffer)) }
        ensures moments { Passes F.is_honest F.history files.old files.new
            (OthersStay (lock_of place.now)) }
        ensures failed { F.is_honest files.old
            → HasLockPlace place.now (F.history files.old).tree
            → IsReadAt kind place.now (F.history files.old).tree → IfErr result (λ error.
            HasFault F.failures F.reading_may_fail files.old files.new ⊎ IsShort error) }
        ensures here { IfOk result (λ t. place_of t ≡ place.now) }
        ensures held { F.is_honest files.old → IfOk result (λ t.
            IsTrue (is_file_at (F.history files.new).tree (lock_path_of t))) }
        ensures rolled_back { F.is_honest files.old
            → IfErr result (RestoresLock F.Files IsShort (lock_of place.now) files.old files.new) }
    {
        let lock = take_lock(alloc, files, place)?;
        match Buffer::open_again(alloc, &*files, place, kind, known) {
            Ok(buffer) => Ok(Transaction {
                lock,
                buffer,
                kind,
                is_written: false,
            }),
            Err(error) => Err(unopened(alloc, files, &lock, error)),
        }
    }

    /// The records of the file, as they were when the transaction began; `None` if there was no
    /// file.
    pub fn buffer(&self) -> Option<&Buffer>
        ensures { option_map (λ buffer. buffer.now) result ≡ self.now.buffer }
    {
        self.buffer.as_ref()
    }

    /// Writes the text of the records under these edits into the lock; of several edits of a name
    /// the first counts. Without edits nothing is written. Returns `CloseLock` if the text couldn't
    /// be written. After an error the lock is removed.
    pub fn prepare<F: Files>(
        self,
        alloc: Global,
        files: &mut F,
        edits: Vec<RecordEdit>,
    ) -> Result<Transaction, PrepareError>
        ensures keeps { KeepsFolders F.Files (EndsQuietly IsUnprepared result) files.old files.new }
        ensures same { IfOk result (IsSame self) }
        ensures prepared { F.is_honest files.old → edits.items ≢ [] → IfOk result (λ _.
            HoldsEdited self.kind (records_in self.buffer) (map line_in edits.items)
            (lock_path_of self) (F.history files.new).tree) }
        ensures written { edits.items ≢ [] → IfOk result (λ t. t.is_written ≡ true) }
        ensures idle { edits.items ≡ [] → IfOk result (λ t. t.is_written ≡ self.is_written) }
        ensures moments { Passes F.is_honest F.history files.old files.new
            (OthersStay (lock_path_of self)) }
        ensures failed { F.is_honest files.old
            → IsTrue (is_file_at (F.history files.old).tree (lock_path_of self))
            → IfErr result (λ error.
            HasRisen (F.failures files.old) (F.failures files.new) ⊎ IsUnprepared error) }
        ensures held { F.is_honest files.old
            → IsTrue (is_file_at (F.history files.old).tree (lock_path_of self))
            → OnOk result (IsTrue (is_file_at (F.history files.new).tree (lock_path_of self))) }
    {
        let Transaction {
            lock,
            buffer,
            kind,
            is_written,
        } = self;
        if edits.is_empty() {
            return Ok(Transaction {
                lock,
                buffer,
                kind,
                is_written,
            });
        }
        match write_edited(alloc, files, &lock, &buffer, kind, &edits) {
            Ok(()) => Ok(Transaction {
                lock,
                buffer,
                kind,
                is_written: true,
            }),
            Err(error) => Err(unprepared(alloc, files, &lock, error)),
        }
    }

    /// Puts the lock in the place of the file if a text was written, and otherwise removes it: then
    /// the file stays. A stop leaves the file as before or with the whole new text. After an error
    /// the lock is removed, as far as that succeeds.
    pub fn commit<F: Files>(self, alloc: Global, files: &mut F) -> Result<(), CommitError>
        ensures keeps { KeepsFolders F.Files (EndsQuietly IsUncommitted result) files.old files.new }
        ensures moments { Passes F.is_honest F.history files.old files.new
            (MayBePut (place_of self) (lock_path_of self)
            (bytes_at (F.history files.old).tree (lock_path_of self))) }
        ensures failed { F.is_honest files.old
            → IsTrue (is_file_at (F.history files.old).tree (lock_path_of self))
            → IsTrue (may_hold_file (F.history files.old).tree (place_of self))
            → IfErr result (λ error.
            HasRisen (F.failures files.old) (F.failures files.new) ⊎ IsUncommitted error) }
        ensures put { F.is_honest files.old → self.is_written ≡ true → OnOk result
            (IsPut (place_of self) (lock_path_of self)
            (bytes_at (F.history files.old).tree (lock_path_of self)) (F.history files.new).tree) }
        ensures idle { self.is_written ≡ false → Passes F.is_honest F.history files.old files.new
            (OthersStay (lock_path_of self)) }
        ensures gone { F.is_honest files.old → OnOk result
            (node_at (F.history files.new).tree (lock_path_of self) ≡ None) }
    {
        let Transaction {
            lock,
            buffer: _,
            kind: _,
            is_written,
        } = self;
        if is_written {
            replace(alloc, files, &lock)
        } else {
            given_back(alloc, files, &lock)
        }
    }

    /// Removes the lock; the file stays. Returns `Commit` if the lock couldn't be removed, and
    /// `Memory` if no memory is left.
    pub fn rollback<F: Files>(self, alloc: Global, files: &mut F) -> Result<(), CommitError>
        ensures keeps { KeepsFolders F.Files (EndsQuietly IsUncommitted result) files.old files.new }
        ensures moments { Passes F.is_honest F.history files.old files.new
            (OthersStay (lock_path_of self)) }
        ensures failed { F.is_honest files.old
            → IsTrue (is_file_at (F.history files.old).tree (lock_path_of self))
            → IfErr result (λ error.
            HasRisen (F.failures files.old) (F.failures files.new) ⊎ IsUncommitted error) }
        ensures gone { F.is_honest files.old → OnOk result
            (node_at (F.history files.new).tree (lock_path_of self) ≡ None) }
        ensures rolled_back { F.is_honest files.old → (result ≡ Err commit_case.Memory)
            ⊎ (HasRisen (F.failures files.old) (F.failures files.new)
            ⊎ (is_file_at (F.history files.new).tree (lock_path_of self) ≡ false)) }
    {
        let Transaction {
            lock,
            buffer: _,
            kind: _,
            is_written: _,
        } = self;
        given_back(alloc, files, &lock)
    }
}

// Makes the lock of a place.
fn take_lock<F: Files>(alloc: Global, files: &mut F, place: &[u8]) -> Result<Lock, Error>
    ensures keeps { KeepsFolders F.Files (EndsQuietly IsShort result) files.old files.new }
    ensures place { IfOk result (λ lock. lock.place.items ≡ place.now) }
    ensures moments { Passes F.is_honest F.history files.old files.new
        (OthersStay (lock_of place.now)) }
    ensures taken { F.is_honest files.old → OnOk result
        (IsTaken (lock_of place.now) (F.history files.old).tree (F.history files.new).tree) }
    ensures rolled_back { F.is_honest files.old → IfErr result (λ error.
        ((F.history files.new).tree ≡ (F.history files.old).tree)
        ⊎ (HasRisen (F.failures files.old) (F.failures files.new) ⊎ IsShort error)) }
    ensures failed { F.is_honest files.old → HasLockPlace place.now (F.history files.old).tree
        → IfErr result (λ error. HasRisen (F.failures files.old) (F.failures files.new) ⊎ IsShort error) }
{
    match acquire(alloc, files, place) {
        Ok(Some(lock)) => Ok(lock),
        Ok(None) => Err(Error::TransactionLock(LockError::Held)),
        Err(FileError::Failed) => Err(Error::TransactionLock(LockError::Failed)),
        Err(FileError::Memory) => Err(Error::TransactionLock(LockError::Memory)),
    }
}

// Removes the lock of a file that couldn't be opened, and returns why.
fn unopened<F: Files>(alloc: Global, files: &mut F, lock: &Lock, error: buffer::Error) -> Error
    ensures keeps { KeepsFolders F.Files (IsShort result) files.old files.new }
    ensures moments { Passes F.is_honest F.history files.old files.new
        (OthersStay lock.now.path.items) }
    ensures told { F.is_honest files.old
        → IsTrue (is_file_at (F.history files.old).tree lock.now.path.items)
        → (result ≡ BufferOpen error)
        ⊎ (HasRisen (F.failures files.old) (F.failures files.new) ⊎ IsShort result) }
    ensures rolled_back { F.is_honest files.old
        → IsTrue (is_file_at (F.history files.old).tree lock.now.path.items)
        → (is_file_at (F.history files.new).tree lock.now.path.items ≡ false)
        ⊎ (HasRisen (F.failures files.old) (F.failures files.new) ⊎ IsShort result) }
{
    match lock.give_back(alloc, files) {
        Ok(()) => Error::BufferOpen(error),
        Err(FileError::Failed) => Error::TransactionLock(LockError::Failed),
        Err(FileError::Memory) => Error::TransactionLock(LockError::Memory),
    }
}

// Writes the text of the records under the edits into the lock.
fn write_edited<'a, F: Files>(
    alloc: Global,
    files: &mut F,
    lock: &Lock,
    buffer: &'a Option<Buffer>,
    kind: Kind,
    edits: &'a [RecordEdit],
) -> Result<(), PrepareError>
    ensures keeps { KeepsFolders F.Files (EndsQuietly IsUnprepared result) files.old files.new }
    ensures moments { Passes F.is_honest F.history files.old files.new
        (OthersStay lock.now.path.items) }
    ensures failed { F.is_honest files.old
        → IsTrue (is_file_at (F.history files.old).tree lock.now.path.items)
        → IfErr result (λ error.
        HasRisen (F.failures files.old) (F.failures files.new) ⊎ IsUnprepared error) }
    ensures stays { F.is_honest files.old
        → IsTrue (is_file_at (F.history files.old).tree lock.now.path.items)
        → IsTrue (is_file_at (F.history files.new).tree lock.now.path.items) }
    ensures held { F.is_honest files.old → OnOk result (HoldsEdited kind (records_in buffer.now)
        (map line_in edits.now) lock.now.path.items (F.history files.new).tree) }
{
    let lines = lent(alloc, edits)?;
    let text = new_text(alloc, buffer, kind, &lines)?;
    lock.fill(alloc, files, &text)?;
    Ok(())
}

// The edits, lent.
fn lent<'a>(alloc: Global, edits: &'a [RecordEdit]) -> Result<Vec<Edit<'a>>, AllocError>
    ensures { IfOk result (λ lent. lines_of lent.items ≡ map line_in edits.now) }
{
    let mut lines = Vec::new(alloc);
    for edit in edits {
        lines.push(lend(edit))?;
    }
    Ok(lines)
}

fn lend(edit: &RecordEdit) -> Edit<'_>
    ensures { line_of result ≡ line_in edit.now }
{
    match edit {
        RecordEdit::Write {
            name,
            target,
            object,
        } => Edit::Write(Reference {
            name: name.as_ref(),
            target: *target,
            object: *object,
        }),
        RecordEdit::Remove { name } => Edit::Remove(name.as_ref()),
    }
}

// The text of the records under the edits.
fn new_text<'a>(
    alloc: Global,
    buffer: &'a Option<Buffer>,
    kind: Kind,
    edits: &[Edit<'a>],
) -> Result<Vec<u8>, AllocError>
    ensures { IfOk result (λ text.
        IsTextOf kind (records_in buffer.now) (lines_of edits.now) text.items) }
{
    match buffer {
        Some(buffer) => buffer.edited_text(alloc, kind, edits),
        None => first_text(alloc, kind, edits),
    }
}

// The text of a file that there wasn't before.
fn first_text(alloc: Global, kind: Kind, edits: &[Edit<'_>]) -> Result<Vec<u8>, AllocError>
    ensures { IfOk result (λ text. IsTextOf kind [] (lines_of edits.now) text.items) }
{
    let records = written(alloc, edits)?;
    written_records_are_read(records.as_slice(), kind);
    packed_text(alloc, records.as_slice())
}

// Removes the lock of a transaction that isn't prepared, and returns why: a failed call before want
// of memory.
fn unprepared<F: Files>(
    alloc: Global,
    files: &mut F,
    lock: &Lock,
    error: PrepareError,
) -> PrepareError
    ensures keeps { KeepsFolders F.Files (IsUnprepared result) files.old files.new }
    ensures moments { Passes F.is_honest F.history files.old files.new
        (OthersStay lock.now.path.items) }
    ensures kept { IsUnprepared result → IsUnprepared error }
    ensures told { F.is_honest files.old
        → IsTrue (is_file_at (F.history files.old).tree lock.now.path.items)
        → (result ≡ error) ⊎ HasRisen (F.failures files.old) (F.failures files.new) }
{
    match lock.give_back(alloc, files) {
        Ok(()) => error,
        Err(FileError::Failed) => PrepareError::CloseLock,
        Err(FileError::Memory) => error,
    }
}

// Puts the lock in its place, and removes it if that fails.
fn replace<F: Files>(alloc: Global, files: &mut F, lock: &Lock) -> Result<(), CommitError>
    ensures keeps { KeepsFolders F.Files (EndsQuietly IsUncommitted result) files.old files.new }
    ensures moments { Passes F.is_honest F.history files.old files.new
        (MayBePut lock.now.place.items lock.now.path.items
        (bytes_at (F.history files.old).tree lock.now.path.items)) }
    ensures failed { F.is_honest files.old
        → IsTrue (is_file_at (F.history files.old).tree lock.now.path.items)
        → IsTrue (may_hold_file (F.history files.old).tree lock.now.place.items)
        → IfErr result (λ error.
        HasRisen (F.failures files.old) (F.failures files.new) ⊎ IsUncommitted error) }
    ensures put { F.is_honest files.old → OnOk result
        (IsPut lock.now.place.items lock.now.path.items
        (bytes_at (F.history files.old).tree lock.now.path.items) (F.history files.new).tree) }
{
    match lock.put(alloc, files) {
        Ok(()) => Ok(()),
        Err(error) => Err(unreplaced(alloc, files, lock, error)),
    }
}

// Removes the lock that couldn't be put in its place, if it is there, and returns why.
fn unreplaced<F: Files>(alloc: Global, files: &mut F, lock: &Lock, error: FileError) -> CommitError
    ensures keeps { KeepsFolders F.Files (IsUncommitted result) files.old files.new }
    ensures moments { Passes F.is_honest F.history files.old files.new
        (OthersStay lock.now.path.items) }
    ensures kept { IsUncommitted result → error ≡ file_case.Memory }
    ensures told { F.is_honest files.old
        → (result ≡ as_commit error) ⊎ HasRisen (F.failures files.old) (F.failures files.new) }
{
    // If it can't be read, nothing may be there, whose removal fails though only memory was wanting.
    match is_file(files, &lock.path) {
        Ok(true) => match lock.give_back(alloc, files) {
            Err(FileError::Failed) => CommitError::Commit,
            Ok(()) | Err(FileError::Memory) => CommitError::from(error),
        },
        Ok(false) | Err(_) => CommitError::from(error),
    }
}

fn given_back<F: Files>(alloc: Global, files: &mut F, lock: &Lock) -> Result<(), CommitError>
    ensures keeps { KeepsFolders F.Files (EndsQuietly IsUncommitted result) files.old files.new }
    ensures moments { Passes F.is_honest F.history files.old files.new
        (OthersStay lock.now.path.items) }
    ensures failed { F.is_honest files.old
        → IsTrue (is_file_at (F.history files.old).tree lock.now.path.items)
        → IfErr result (λ error.
        HasRisen (F.failures files.old) (F.failures files.new) ⊎ IsUncommitted error) }
    ensures gone { F.is_honest files.old → OnOk result
        (node_at (F.history files.new).tree lock.now.path.items ≡ None) }
    ensures rolled_back { F.is_honest files.old → (result ≡ Err commit_case.Memory)
        ⊎ (HasRisen (F.failures files.old) (F.failures files.new)
        ⊎ (is_file_at (F.history files.new).tree lock.now.path.items ≡ false)) }
{
    lock.give_back(alloc, files)?;
    Ok(())
}
