//! The plan of one edit: its lock, its test, the new text in the lock; and the error after locks are given back.

ghost use Rattle.std.specs.Prelude.{◌≡◌, ◌≢◌, ◌≤◌, ◌⊎◌, ℕ, [], ◌∷◌, false, Some, IfErr, IfOk, IsTrue, OnOk};
ghost use Rattle.gix_object_lines.specs.NameTest.{is_full_name};
ghost use Rattle.gix_ref_file.specs.Calls.{Passes};
ghost use Rattle.gix_ref_file.specs.Changes.{is_file_at, may_hold_file};
ghost use Rattle.gix_ref_file.specs.Tree.{file, is_path, node_at};
ghost use Rattle.gix_ref_name.specs.Targets.{target_view};
ghost use Rattle.gix_ref_format.specs.Loose.{loose_text};
ghost use Rattle.gix_ref_store.specs.Lookups.{reads_with};
ghost use Rattle.gix_ref_store.specs.Places.{place};
ghost use Rattle.gix_ref_store.specs.Stores.{base_of};
ghost use Rattle.gix_ref_lock.specs.Calls.{EndsQuietly, KeepsFolders, StaysHonest};
ghost use Rattle.gix_ref_lock.specs.Locks.{OthersStay};
ghost use Rattle.gix_ref_way.specs.Ways.{FoldersOnlyOf, HasWay, SameFiles, SameFolders};
ghost use Rattle.gix_ref_lock.specs.Moments.{SameButLocks};
ghost use Rattle.gix_ref_transaction.specs.Calls.{HasTaken, IsActed, IsNoIo, IsPlanned, IsUnacted, IsUnplanned, IsUntaken, KeepsStore};
ghost use Rattle.gix_ref_transaction.specs.Causes.{TestFault};
ghost use Rattle.gix_ref_transaction.specs.Errors.{Counts, IsAfter, MayBeLeft, TakeFault, after_giving};
ghost use Rattle.gix_ref_transaction.specs.Errors as errors;
ghost use Rattle.gix_ref_transaction.specs.Locking.{ArePaths};
ghost use Rattle.gix_ref_transaction.specs.LogLines.{line_in};
ghost use Rattle.gix_ref_transaction.specs.Modes.{removes};
ghost use Rattle.gix_ref_transaction.specs.Plans as spec;
ghost use Rattle.gix_ref_transaction.specs.Plans.{IsActOf, IsFoundSo, IsPlanOf, IsPut, IsUpdateBy, KeepsFiles};
ghost use Rattle.gix_ref_transaction.specs.Preparing.{asked_with};
ghost use Rattle.gix_ref_transaction.specs.declared.error.PrepareError.TheVariants.{Io, LockAcquire, Memory};

use crate::PackedRefs;
use crate::asked::test;
use crate::error::PrepareError;
use crate::lines::line_of;
use gix_object_lines::lines::ActorRef;
use gix_ref_edit::{Change, RefEdit, RefLog};
use gix_ref_file::Files;
use gix_ref_format::lookup::key_of;
use gix_ref_format::loose;
use gix_ref_format::packed::Buffer;
use gix_ref_lock::lock::{GivenBack, Lock, acquire};
use gix_ref_lock::{Act, Move};
use gix_ref_name::Target;
use gix_ref_store::Reference;
use gix_ref_store::store::file::{Store, find};
use gix_ref_way::{Way, try_make_way};
use std::alloc::Global;

// Locks a reference, tests it, and returns what becomes of its files. After an error its lock is
// gone, unless its removal fails.
pub(crate) fn plan<F: Files, O>(
    alloc: Global,
    store: &mut Store<F>,
    edit: &RefEdit,
    packed: Option<&Buffer>,
    committer: Option<ActorRef<'_>>,
    packed_refs: &PackedRefs<'_, O>,
) -> Result<Move, PrepareError>
    requires { ArePaths (place (base_of store.old) edit.now.name) }
    ensures keeps { KeepsStore F.Files (EndsQuietly IsNoIo result) store.old store.new }
    ensures full { IsTrue (is_full_name edit.now.name) }
    ensures moments { Passes F.is_honest F.history store.old.files store.new.files SameButLocks }
    ensures folders { Passes F.is_honest F.history store.old.files store.new.files
        (FoldersOnlyOf (place (base_of store.old) edit.now.name ∷ [])) }
    ensures stay { F.is_honest store.old.files
        → KeepsFiles (F.history store.old.files).tree (F.history store.new.files).tree }
    ensures planned { IfOk result (IsPlanOf (base_of store.old) (removes packed_refs.now) edit.now) }
    ensures made { F.is_honest store.old.files → IfOk result (IsPlanned
        (asked_with F.history store.old packed.entry committer.entry (edit.now ∷ [])) edit.now
        (F.history store.new.files).tree) }
    ensures failed { F.is_honest store.old.files → IfErr result (IsUnplanned
        (asked_with F.history store.old packed.entry committer.entry (edit.now ∷ [])) edit.now
        (F.failures store.old.files) (F.failures store.new.files) F.reading_may_fail
        (F.history store.new.files).tree) }
{
    let place = store.reference_path(alloc, edit.name.as_ref())?;
    let log = store.reflog_path(alloc, edit.name.as_ref())?;
    let lock = take(alloc, &mut store.files, &place)?;
    match act_of(alloc, store, edit, packed, committer, packed_refs, &lock) {
        Ok(act) => Ok(Move { lock, log, act }),
        Err(error) => Err(unplanned(alloc, &mut store.files, &lock, error)),
    }
}

// Gives the lock of an edit back that isn't planned, and returns why it isn't.
fn unplanned<F: Files>(
    alloc: Global,
    files: &mut F,
    lock: &Lock,
    error: PrepareError,
) -> PrepareError
    ensures honest { F.is_honest files.old → F.is_honest files.new }
    ensures later { F.failures files.old ≤ F.failures files.new }
    ensures moments { Passes F.is_honest F.history files.old files.new
        (OthersStay lock.now.path.items) }
    ensures folders { Passes F.is_honest F.history files.old files.new SameFolders }
    ensures told { IsAfter error result }
    ensures counted { (before : ℕ) → F.is_honest files.old → before ≤ F.failures files.old
        → IsTrue (is_file_at (F.history files.old).tree lock.now.path.items)
        → Counts before (F.failures files.old) error
        → Counts before (F.failures files.new) result }
    ensures memory { result ≢ Io
        → (error ≢ Io) × (F.failures files.new ≡ F.failures files.old) }
    ensures rolled_back { F.is_honest files.old
        → (is_file_at (F.history files.new).tree lock.now.path.items ≡ false) ⊎ MayBeLeft result }
{
    let outcome = lock.withdraw(alloc, files);
    afterwards(outcome, error)
}

// Returns why edits aren't prepared, if it was this error before their locks were given back so.
pub(crate) fn afterwards(outcome: GivenBack, error: PrepareError) -> PrepareError
    ensures { result ≡ after_giving outcome error }
{
    match outcome {
        GivenBack::Done => error,
        GivenBack::Failed => PrepareError::Io,
        GivenBack::Memory => unless_failed(error, PrepareError::Memory),
    }
}

// Returns `Io` if the error is that, and else the other.
fn unless_failed(error: PrepareError, other: PrepareError) -> PrepareError
    ensures { result ≡ errors.unless_failed error other }
{
    match error {
        PrepareError::Io => PrepareError::Io,
        _ => other,
    }
}

// Makes room for a file, and its lock.
fn take<F: Files>(alloc: Global, files: &mut F, place: &[u8]) -> Result<Lock, PrepareError>
    requires { ArePaths place.now }
    ensures keeps { StaysHonest F.Files (EndsQuietly IsNoIo result) files.old files.new }
    ensures moments { Passes F.is_honest F.history files.old files.new SameButLocks }
    ensures folders { Passes F.is_honest F.history files.old files.new
        (FoldersOnlyOf (place.now ∷ [])) }
    ensures stay { F.is_honest files.old
        → KeepsFiles (F.history files.old).tree (F.history files.new).tree }
    ensures place { IfOk result (λ lock. lock.place.items ≡ place.now) }
    ensures taken { F.is_honest files.old → OnOk result
        (HasTaken place.now (F.history files.old).tree (F.history files.new).tree) }
    ensures failed { IfErr result (TakeFault F.reading_may_fail) }
    ensures untaken { F.is_honest files.old → IfErr result (IsUntaken place.now
        (F.failures files.old) (F.failures files.new)
        (F.history files.old).tree (F.history files.new).tree) }
{
    clear(alloc, files, place)?;
    let made = acquire(alloc, files, place)?;
    match made {
        Some(lock) => Ok(lock),
        None => Err(PrepareError::LockAcquire),
    }
}

// Makes room for a file.
fn clear<F: Files>(alloc: Global, files: &mut F, place: &[u8]) -> Result<(), PrepareError>
    requires { IsTrue (is_path place.now) }
    ensures keeps { StaysHonest F.Files (EndsQuietly IsNoIo result) files.old files.new }
    ensures moments { Passes F.is_honest F.history files.old files.new SameFiles }
    ensures folders { Passes F.is_honest F.history files.old files.new
        (FoldersOnlyOf (place.now ∷ [])) }
    ensures counted { F.is_honest files.old
        → IfErr result (Counts (F.failures files.old) (F.failures files.new)) }
    ensures room { F.is_honest files.old → OnOk result
        (IsTrue (may_hold_file (F.history files.new).tree place.now)) }
    ensures refused { F.is_honest files.old → IfErr result (λ error. error ≡ LockAcquire
        → ¬ HasWay place.now (F.history files.old).tree) }
    ensures failed { IfErr result (TakeFault F.reading_may_fail) }
{
    match try_make_way(alloc, files, place)? {
        Way::Free => Ok(()),
        Way::Blocked => Err(PrepareError::LockAcquire),
        Way::Unread => Err(PrepareError::ReferenceDecode(find::Error::ReadFileContents)),
    }
}

// Tests a reference whose lock is held, and writes its new text into the lock.
fn act_of<F: Files, O>(
    alloc: Global,
    store: &mut Store<F>,
    edit: &RefEdit,
    packed: Option<&Buffer>,
    committer: Option<ActorRef<'_>>,
    packed_refs: &PackedRefs<'_, O>,
    lock: &Lock,
) -> Result<Act, PrepareError>
    ensures keeps { KeepsStore F.Files (EndsQuietly IsNoIo result) store.old store.new }
    ensures moments { Passes F.is_honest F.history store.old.files store.new.files
        (OthersStay lock.now.path.items) }
    ensures folders { Passes F.is_honest F.history store.old.files store.new.files SameFolders }
    ensures held { F.is_honest store.old.files
        → IsTrue (is_file_at (F.history store.old.files).tree lock.now.path.items)
        → IsTrue (is_file_at (F.history store.new.files).tree lock.now.path.items) }
    ensures act { IfOk result (IsActOf (removes packed_refs.now) edit.now.name edit.now.change) }
    ensures acted { F.is_honest store.old.files → IfOk result (IsActed
        (asked_with F.history store.old packed.entry committer.entry (edit.now ∷ [])) edit.now
        lock.now.path.items (F.history store.new.files).tree) }
    ensures failed { F.is_honest store.old.files → IfErr result (IsUnacted
        (asked_with F.history store.old packed.entry committer.entry (edit.now ∷ [])) edit.now
        lock.now.path.items (F.failures store.old.files) (F.failures store.new.files)
        F.reading_may_fail) }
{
    let found = tested(alloc, &*store, edit, packed)?;
    let line = line_of(alloc, &*store, edit, &found, packed, committer)?;
    match &edit.change {
        Change::Update { log, new, .. } => {
            let is_packed_alone = is_packed_alone(packed_refs.removes(), edit.name.to_path(), new);
            update_by(
                alloc,
                &mut store.files,
                log.mode,
                is_packed_alone,
                new,
                lock,
                line,
            )
        }
        Change::Delete { log, .. } => match log {
            RefLog::AndReference => Ok(Act::Remove),
            RefLog::Only => Ok(Act::Forget),
        },
    }
}

// Returns whether only a record says what the name points to.
fn is_packed_alone(removes: bool, name: &[u8], new: &Target) -> bool
    ensures { result ≡ spec.is_packed_alone removes name.now (target_view new.now) }
{
    match new {
        Target::Object(_) => removes && key_of(name).is_some(),
        Target::Symbolic(_) => false,
    }
}

// Returns the update that is made so. Its text is written into the lock, if the lock is put in the
// file's place.
fn update_by<F: Files>(
    alloc: Global,
    files: &mut F,
    log: RefLog,
    is_packed_alone: bool,
    new: &Target,
    lock: &Lock,
    line: Option<Vec<u8>>,
) -> Result<Act, PrepareError>
    ensures keeps { KeepsFolders F.Files (EndsQuietly IsNoIo result) files.old files.new }
    ensures moments { Passes F.is_honest F.history files.old files.new
        (OthersStay lock.now.path.items) }
    ensures act { IfOk result (IsUpdateBy log is_packed_alone) }
    ensures line { IfOk result (λ act. line_in act ≡ line) }
    ensures text { F.is_honest files.old → IfOk result (λ act. IsPut act
        → node_at (F.history files.new).tree lock.now.path.items
        ≡ Some (file (loose_text (target_view new.now)))) }
    ensures held { F.is_honest files.old
        → IsTrue (is_file_at (F.history files.old).tree lock.now.path.items)
        → IsTrue (is_file_at (F.history files.new).tree lock.now.path.items) }
    ensures counted { F.is_honest files.old
        → IsTrue (is_file_at (F.history files.old).tree lock.now.path.items)
        → IfErr result (Counts (F.failures files.old) (F.failures files.new)) }
    ensures failed { IfErr result (λ error. (error ≡ Io) ⊎ (error ≡ Memory)) }
{
    match log {
        RefLog::AndReference => {
            if is_packed_alone {
                return Ok(Act::Pack(line));
            }
            fill(alloc, files, lock, new)?;
            Ok(Act::Put(line))
        }
        RefLog::Only => Ok(Act::Note(line)),
    }
}

// The reference of the edit, which passes its test.
fn tested<F: Files>(
    alloc: Global,
    store: &Store<F>,
    edit: &RefEdit,
    packed: Option<&Buffer>,
) -> Result<Option<Reference>, PrepareError>
    ensures found { F.is_honest store.now.files → let tree = (F.history store.now.files).tree in
        IfOk result (IsFoundSo edit.now (reads_with store.now tree packed.entry edit.now.name)) }
    ensures failed { F.is_honest store.now.files → let tree = (F.history store.now.files).tree in
        IfErr result (TestFault F.reading_may_fail edit.now
        (reads_with store.now tree packed.entry edit.now.name)) }
{
    let name = edit.name.try_clone()?;
    let found = store.try_read(alloc, name, packed)?;
    test(&edit.change, &found)?;
    Ok(found)
}

// Writes the text of a target into the lock.
fn fill<F: Files>(
    alloc: Global,
    files: &mut F,
    lock: &Lock,
    target: &Target,
) -> Result<(), PrepareError>
    ensures keeps { KeepsFolders F.Files (EndsQuietly IsNoIo result) files.old files.new }
    ensures moments { Passes F.is_honest F.history files.old files.new
        (OthersStay lock.now.path.items) }
    ensures filled { F.is_honest files.old → OnOk result
        (node_at (F.history files.new).tree lock.now.path.items
        ≡ Some (file (loose_text (target_view target.now)))) }
    ensures held { F.is_honest files.old
        → IsTrue (is_file_at (F.history files.old).tree lock.now.path.items)
        → IsTrue (is_file_at (F.history files.new).tree lock.now.path.items) }
    ensures counted { F.is_honest files.old
        → IsTrue (is_file_at (F.history files.old).tree lock.now.path.items)
        → IfErr result (Counts (F.failures files.old) (F.failures files.new)) }
    ensures failed { IfErr result (λ error. (error ≡ Io) ⊎ (error ≡ Memory)) }
{
    let mut text = Vec::new(alloc);
    loose::write(target.to_ref(), &mut text)?;
    lock.fill(alloc, files, &text)?;
    Ok(())
}
