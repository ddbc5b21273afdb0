//! Transactions of all edits: `prepare` (paths tested, all locked), `commit`, `rollback` (locks given back).

ghost use Rattle.std.specs.Prelude.{◌≡◌, ◌≤◌, ◌⊎◌, ◌≢◌, ℕ, [], List, false, IfErr, IfOk, IfSome, IsTrue, MatchResult, OnOk};
ghost use Rattle.std.specs.List.{list_all};
ghost use Rattle.gix_ref_file.specs.History.{Adds, HasRisen};
ghost use Rattle.gix_ref_file.specs.Tree.{is_path};
ghost use Rattle.gix_ref_file.specs.Calls.{Achieves, Passes};
ghost use Rattle.gix_ref_way.specs.Ways.{FoldersOnlyOf, SameFolders};
ghost use Rattle.gix_ref_store.specs.Lookups.{reads_with};
ghost use Rattle.gix_ref_store.specs.Stores.{base_of};
ghost use Rattle.gix_ref_lock.specs.declared.lock.GivenBack.TheVariants as given;
ghost use Rattle.gix_ref_lock.specs.Calls.{EndsQuietly, FailsByFault, KeepsFolders, StaysHonest};
ghost use Rattle.gix_ref_lock.specs.Moments.{NoFileMore, SameButLocks};
ghost use Rattle.gix_ref_lock.specs.Moves.{Once};
ghost use Rattle.gix_ref_lock.specs.Needs.{CanCommit, IsOutOfMemory, log_paths};
ghost use Rattle.gix_ref_lock.specs.Committing.{IsCommitted, OnTheWay, commit_paths};
ghost use Rattle.gix_ref_transaction.specs.Modes.{objects_in, removes};
ghost use Rattle.gix_ref_transaction.specs.Resolving.{PackCause, SomeChangeFault};
ghost use Rattle.gix_ref_transaction.specs.Calls.{ArePlanned, AreTaken, IsNoIo, KeepsStore, LeavesUnplanned, StorePasses, StoreTurns};
ghost use Rattle.gix_ref_transaction.specs.Causes.{NotAllowed, ReadyFault, Unresolved};
ghost use Rattle.gix_ref_transaction.specs.Errors.{Counts, IsAfter, IsQuiet, MayBeLeft};
ghost use Rattle.gix_ref_transaction.specs.Locking.{AreHeld, RecordsHeld, are_known};
ghost use Rattle.gix_ref_transaction.specs.Paths.{edit_paths, has_twice, name_paths, places_of};
ghost use Rattle.gix_ref_transaction.specs.Plans.{AllPlanned, AreSplit, KeepsFiles};
ghost use Rattle.gix_ref_transaction.specs.Preparing.{AreReady, GivenCause, IsPrepared, KeepsReferences, LeavesUnprepared, Packs, PrepareCause, Prepares, Unprepares, asked_of, asked_with};
ghost use Rattle.gix_ref_transaction.specs.Reads.{AllGiveKind, AllReadBack, ReadsEdited, ReadsOnWay, prepared_of};
ghost use Rattle.gix_ref_transaction.specs.Rollback.{AllGone, FailsForMemory, PackedGone, SameFilesBut, all_locks, of_giving, packed_locks};
ghost use Rattle.gix_ref_transaction.specs.Rollback as rolls;
ghost use Rattle.gix_ref_transaction.specs.declared.error.PrepareError.TheVariants.{Io};

use crate::PackedRefs;
use crate::error::PrepareError;
use crate::finder::Names;
use crate::known::are_known;
use crate::once::{are_paths, have_twice, paths_of};
use crate::plan::{afterwards, plan};
use crate::repacking::repack;
use crate::targets::targets_are_read;
use gix_object_lines::lines::ActorRef;
use gix_object_lookup::FindInto;
use gix_ref_edit::{RefEdit, RefEditsExt};
use gix_ref_file::Files;
use gix_ref_format::packed::Buffer;
use gix_ref_lock::commit::{commit, give_back_all};
use gix_ref_lock::lock::GivenBack;
use gix_ref_lock::{CommitError, Move, packed};
use gix_ref_store::store::file::Store;
use std::alloc::Global;

/// Edits of references that are prepared: all locks are held. It must be committed or rolled back.
#[derive(Debug)]
pub struct Transaction {
    pub(crate) edits: Vec<RefEdit>,
    pub(crate) moves: Vec<Move>,
    pub(crate) packed: Option<packed::Transaction>,
    ghost once: { has_twice (commit_paths packed moves.items) ≡ false },
}

/// Prepares edits: those of symbolic references are split, each reference is locked, read and
/// tested, and its new text is written into the lock. `committer` is whom log lines name. The new
/// packed references are written into theirs, as `packed_refs` says: without the records of what is
/// deleted, and in the two modes of packing with a record of each reference that is updated to an
/// object; a tag's has also the id that the tag leads to. In the last mode the own files of these
/// go with [`Transaction::commit`].
///
/// Before any lock is made it returns `PreprocessingFailed` if symbolic references lead too far or a
/// name has two edits, `Uncomposed` if a name isn't composed and the store composes names, and
/// `SamePlace` if two of the files, locks and logs of the edits and of packed references are one.
/// `LockAcquire` if a lock exists, a file is in the way of one, or a path is none, `Refused` if a
/// reference isn't as its edit expects, `ReferenceDecode` if it can't be read,
/// `CreateOrUpdateRefLog` if a line for its log can't be made, `Packed`, `PackedTransactionAcquire`
/// and `PackedTransactionPrepare` if packed references can't be opened, locked or written, `Resolve`
/// if no object is found whose id a packed record is to hold, `Io` if a change of the files failed,
/// and `Memory` if memory was refused. At each moment each file but locks is as before, and after an
/// error the locks are gone, as far as that succeeds.
pub fn prepare<F: Files, O: FindInto>(
    alloc: Global,
    store: &mut Store<F>,
    edits: Vec<RefEdit>,
    committer: Option<ActorRef<'_>>,
    packed_refs: PackedRefs<'_, O>,
) -> Result<Transaction, PrepareError>
    ensures keeps { KeepsReferences F.Files
        (asked_of F.history store.old committer.entry edits.items) store.old store.new }
    ensures prepared { IfOk result (λ t. Prepares F.Files O.Lookup packed_refs.entry
        (asked_of F.history store.old committer.entry edits.items) store.old store.new
        (prepared_of t.edits.items t.moves.items t.packed)) }
    ensures failed { IfErr result (LeavesUnprepared F.Files O.Lookup (objects_in packed_refs.entry)
        PrepareCause (asked_of F.history store.old committer.entry edits.items)
        store.old store.new) }
{
    let records = store.open_packed_buffer(alloc)?;
    prepare_with(
        alloc,
        store,
        records.as_ref(),
        edits,
        committer,
        packed_refs,
    )
}

/// Prepares edits as [`prepare`] does, with packed references that the caller has read: `None` if their file doesn't exist. The file is
/// read only under its lock, if records change. `Packed` doesn't come.
pub fn prepare_with<F: Files, O: FindInto>(
    alloc: Global,
    store: &mut Store<F>,
    packed: Option<&Buffer>,
    edits: Vec<RefEdit>,
    committer: Option<ActorRef<'_>>,
    packed_refs: PackedRefs<'_, O>,
) -> Result<Transaction, PrepareError>
    ensures keeps { KeepsReferences F.Files
        (asked_with F.history store.old packed.entry committer.entry edits.items)
        store.old store.new }
    ensures unfailed { OnOk result (F.failures store.new.files ≡ F.failures store.old.files) }
    ensures ready { IfOk result (λ t.
        AreReady (base_of store.old) store.old.options.precompose_unicode t.edits.items) }
    ensures planned { IfOk result (λ t. AllPlanned (base_of store.old) (removes packed_refs.entry)
        t.edits.items t.moves.items) }
    ensures prepared { F.is_honest store.old.files → IfOk result (λ t. IsPrepared
        (asked_with F.history store.old packed.entry committer.entry edits.items)
        (F.history store.new.files).tree (prepared_of t.edits.items t.moves.items t.packed)) }
    ensures packed { IfOk result (λ t. Packs F.Files O.Lookup packed_refs.entry
        store.old packed.entry store.new (prepared_of t.edits.items t.moves.items t.packed)) }
    ensures failed { IfErr result (LeavesUnprepared F.Files O.Lookup (objects_in packed_refs.entry)
        GivenCause (asked_with F.history store.old packed.entry committer.entry edits.items)
        store.old store.new) }
{
    let mut edits = edits;
    ready(alloc, &*store, packed, &mut edits)?;
    locked(alloc, store, edits, packed, committer, &packed_refs)
}

// Splits the edits of symbolic references, and tests their names and their paths.
fn ready<F: Files>(
    alloc: Global,
    store: &Store<F>,
    packed: Option<&Buffer>,
    edits: &mut Vec<RefEdit>,
) -> Result<(), PrepareError>
    ensures split { F.is_honest store.now.files → let tree = (F.history store.now.files).tree in
        OnOk result (AreSplit (reads_with store.now tree packed.entry) edits.old.items
        edits.new.items) }
    ensures ready { OnOk result
        (AreReady (base_of store.now) store.now.options.precompose_unicode edits.new.items) }
    ensures failed { F.is_honest store.now.files → let tree = (F.history store.now.files).tree in
        IfErr result (ReadyFault (reads_with store.now tree packed.entry) (base_of store.now)
        store.now.options.precompose_unicode tree F.reading_may_fail edits.old.items) }
{
    edits.pre_process(alloc, &Names { store, packed })?;
    allowed(alloc, store, edits.as_slice())
}

// Tests the names and the paths of edits.
fn allowed<F: Files>(alloc: Global, store: &Store<F>, edits: &[RefEdit]) -> Result<(), PrepareError>
    ensures known { OnOk result (IsTrue (are_known store.now.options.precompose_unicode edits.now)) }
    ensures apart { OnOk result (has_twice (edit_paths (base_of store.now) edits.now) ≡ false) }
    ensures paths { OnOk result (IsTrue (list_all is_path (edit_paths (base_of store.now) edits.now))) }
    ensures failed { IfErr result
        (NotAllowed (base_of store.now) store.now.options.precompose_unicode edits.now) }
{
    if !are_known(alloc, store.options().precompose_unicode, edits)? {
        return Err(PrepareError::Uncomposed);
    }
    let paths = paths_of(alloc, store, edits)?;
    if have_twice(alloc, &paths)? {
        return Err(PrepareError::SamePlace);
    }
    if !are_paths(&paths) {
        return Err(PrepareError::LockAcquire);
    }
    Ok(())
}

// Locks all that the edits concern, first the packed records.
fn locked<F: Files, O: FindInto>(
    alloc: Global,
    store: &mut Store<F>,
    edits: Vec<RefEdit>,
    packed: Option<&Buffer>,
    committer: Option<ActorRef<'_>>,
    packed_refs: &PackedRefs<'_, O>,
) -> Result<Transaction, PrepareError>
    requires { AreReady (base_of store.old) store.old.options.precompose_unicode edits.items }
    ensures keeps { KeepsStore F.Files (EndsQuietly IsQuiet result) store.old store.new }
    ensures moments { StorePasses F.Files store.old store.new SameButLocks }
    ensures folders { StorePasses F.Files store.old store.new
        (FoldersOnlyOf (places_of (base_of store.old) edits.items)) }
    ensures edits { IfOk result (λ t. t.edits ≡ edits) }
    ensures planned { IfOk result (λ t. AllPlanned (base_of store.old) (removes packed_refs.now)
        t.edits.items t.moves.items) }
    ensures packed { IfOk result (λ t. Packs F.Files O.Lookup packed_refs.now
        store.old packed.entry store.new (prepared_of t.edits.items t.moves.items t.packed)) }
    ensures locked { (asked : List RefEdit) → F.is_honest store.old.files
        → let a = asked_with F.history store.old packed.entry committer.entry asked in
        AreSplit a.lines.read asked edits.items
        → MatchResult result (λ t. IsPrepared a (F.history store.new.files).tree
        (prepared_of t.edits.items t.moves.items t.packed))
        (Unprepares F.Files GivenCause a store.old store.new) }
    ensures resolves { F.is_honest store.old.files → IfSome (objects_in packed_refs.now) O.is_honest
        → IfErr result (Unresolved (SomeChangeFault
        (PackCause F.Files O.Lookup (objects_in packed_refs.now)) edits.items)) }
{
    let records = repack(alloc, store, packed, &edits, packed_refs)?;
    let mut moves = Vec::new(alloc);
    match plan_all(
        alloc,
        store,
        &edits,
        packed,
        committer,
        packed_refs,
        &mut moves,
    ) {
        Ok(()) => Ok(finish(store, edits, moves, records)),
        Err(error) => Err(drop_all(alloc, &mut store.files, &moves, records, error)),
    }
}

// Plans the edits, one after another.
fn plan_all<F: Files, O>(
    alloc: Global,
    store: &mut Store<F>,
    edits: &[RefEdit],
    packed: Option<&Buffer>,
    committer: Option<ActorRef<'_>>,
    packed_refs: &PackedRefs<'_, O>,
    moves: &mut Vec<Move>,
) -> Result<(), PrepareError>
    requires paths { IsTrue (list_all is_path (name_paths (base_of store.old) edits.now)) }
    requires none { moves.old.items ≡ [] }
    ensures keeps { KeepsStore F.Files (EndsQuietly IsNoIo result) store.old store.new }
    ensures moments { StorePasses F.Files store.old store.new SameButLocks }
    ensures folders { StorePasses F.Files store.old store.new
        (FoldersOnlyOf (places_of (base_of store.old) edits.now)) }
    ensures stay { StoreTurns F.Files store.old store.new KeepsFiles }
    // The locks of all planned edits exist, also after an error, and none existed before.
    ensures taken { StoreTurns F.Files store.old store.new (AreTaken moves.new.items) }
    ensures planned { OnOk result (AllPlanned (base_of store.old) (removes packed_refs.now) edits.now
        moves.new.items) }
    ensures made { F.is_honest store.old.files → OnOk result (ArePlanned
        (asked_with F.history store.old packed.entry committer.entry edits.now)
        (F.history store.new.files).tree moves.new.items) }
    ensures failed { F.is_honest store.old.files → IfErr result (LeavesUnplanned F.Files
        (asked_with F.history store.old packed.entry committer.entry edits.now) store.old store.new
        moves.new.items) }
{
    let mut rest = edits;
    'edits: while let Some((edit, others)) = rest.split_first() {
        let planned = plan(alloc, store, edit, packed, committer, packed_refs)?;
        moves.push(planned)?;
        rest = others;
    }
    Ok(())
}

// Returns the transaction of these moves.
fn finish<F: Files>(
    store: &Store<F>,
    edits: Vec<RefEdit>,
    moves: Vec<Move>,
    packed: Option<packed::Transaction>,
) -> Transaction
    requires { has_twice (commit_paths packed moves.items) ≡ false }
    ensures edits { result.edits ≡ edits }
    ensures moves { result.moves ≡ moves }
    ensures packed { result.packed ≡ packed }
    ensures back { let kind = (base_of store.now).kind in
        AllGiveKind kind edits.items → AllReadBack kind edits.items }
{
    targets_are_read(&edits, store.options().object_hash);
    Transaction {
        edits,
        moves,
        packed,
    }
}

// Gives all locks back of edits that aren't prepared, and returns why they aren't.
fn drop_all<F: Files>(
    alloc: Global,
    files: &mut F,
    moves: &[Move],
    packed: Option<packed::Transaction>,
    error: PrepareError,
) -> PrepareError
    ensures honest { F.is_honest files.old → F.is_honest files.new }
    ensures later { F.failures files.old ≤ F.failures files.new }
    ensures moments { Passes F.is_honest F.history files.old files.new SameButLocks }
    ensures folders { Passes F.is_honest F.history files.old files.new SameFolders }
    ensures told { IsAfter error result }
    ensures counted { (before : ℕ) → F.is_honest files.old → before ≤ F.failures files.old
        → AreHeld packed moves.now (F.history files.old).tree → Once (all_locks packed moves.now)
        → Counts before (F.failures files.old) error
        → Counts before (F.failures files.new) result }
    ensures memory { result ≢ Io
        → (error ≢ Io) × (F.failures files.new ≡ F.failures files.old) }
    ensures rolled_back { F.is_honest files.old → AllGone moves.now packed (F.history files.old).tree
        (F.history files.new).tree ⊎ MayBeLeft result }
{
    let records = drop_records(alloc, files, packed);
    let locks = give_back_all(alloc, files, moves);
    afterwards(records.or_worse(locks), error)
}

// Gives the lock of packed records back.
fn drop_records<F: Files>(
    alloc: Global,
    files: &mut F,
    packed: Option<packed::Transaction>,
) -> GivenBack
    ensures keeps { KeepsFolders F.Files (result ≢ given.Failed) files.old files.new }
    ensures failed { F.is_honest files.old → RecordsHeld packed (F.history files.old).tree
        → result ≡ given.Failed → HasRisen (F.failures files.old) (F.failures files.new) }
    ensures moments { Passes F.is_honest F.history files.old files.new SameButLocks }
    ensures others { F.is_honest files.old → SameFilesBut (packed_locks packed)
        (F.history files.old).tree (F.history files.new).tree }
    ensures gone { F.is_honest files.old → result ≡ given.Done
        → PackedGone packed (F.history files.new).tree
        × NoFileMore (F.history files.old).tree (F.history files.new).tree }
{
    match packed {
        Some(packed) => of_commit(packed.rollback(alloc, files)),
        None => GivenBack::Done,
    }
}

// Returns what came of the lock of packed records.
fn of_commit(outcome: Result<(), packed::CommitError>) -> GivenBack
    ensures { result ≡ rolls.of_commit outcome }
{
    match outcome {
        Ok(()) => GivenBack::Done,
        Err(packed::CommitError::Commit) => GivenBack::Failed,
        Err(packed::CommitError::Memory) => GivenBack::Memory,
    }
}

// Returns whether the locks were given back, of packed records and of references.
fn given_back(records: GivenBack, locks: GivenBack) -> Result<(), CommitError>
    ensures { result ≡ of_giving records locks }
{
    match records {
        GivenBack::Failed => Err(CommitError::PackedTransactionCommit(packed::CommitError::Commit)),
        GivenBack::Done | GivenBack::Memory => of_back(records.or_worse(locks)),
    }
}

fn of_back(locks: GivenBack) -> Result<(), CommitError>
    ensures { result ≡ rolls.of_back locks }
{
    match locks {
        GivenBack::Done => Ok(()),
        GivenBack::Memory => Err(CommitError::Memory),
        GivenBack::Failed => Err(CommitError::LockCommit),
    }
}

impl Transaction {
    ghost use Rattle.gix_ref_transaction.specs.Parts.{OncePrepared, parts};

    /// The edits, those of symbolic references split.
    pub fn edits(&self) -> &[RefEdit]
        ensures { result.now ≡ self.now.edits.items }
    {
        self.edits.as_slice()
    }

    /// Makes the edits: first all updates, each with its line in the log before it shows; then the logs of what is removed go, then
    /// packed records, and at last the files. At each moment, and so wherever a stop comes, each file is as before or as in the end,
    /// and nothing is removed before all updates show. Returns the edits.
    ///
    /// The errors name the call of the files that failed. After one, no lock exists, as far as
    /// giving them back succeeds.
    pub fn commit<F: Files>(self, alloc: Global, files: &mut F) -> Result<Vec<RefEdit>, CommitError>
        ensures keeps { StaysHonest F.Files (EndsQuietly IsOutOfMemory result) files.old files.new }
        ensures folders { Passes F.is_honest F.history files.old files.new
            (FoldersOnlyOf (log_paths self.moves.items)) }
        ensures failed { F.is_honest files.old
            → CanCommit self.packed self.moves.items (F.history files.old).tree
            → FailsByFault F.Files IsOutOfMemory files.old files.new result }
        ensures edits { IfOk result (λ edits. edits ≡ self.edits) }
        ensures moments { Passes F.is_honest F.history files.old files.new
            (OnTheWay self.packed self.moves.items) }
        ensures done { Achieves F.is_honest F.history files.old files.new result
            (IsCommitted self.packed self.moves.items) }
        ensures on_way { OncePrepared F.Files self files.old (λ b packs removes before.
            Adds (ReadsOnWay b packs removes before (parts self)) (F.history files.old)
            (F.history files.new)) }
        ensures read { OncePrepared F.Files self files.old (λ b packs removes before.
            OnOk result (ReadsEdited b packs removes before (parts self) (F.history files.new).tree)) }
    {
        let Transaction {
            edits,
            moves,
            packed,
        } = self;
        commit(alloc, files, &moves, packed)?;
        Ok(edits)
    }

    /// Gives all locks back; nothing else changes. Returns the edits. Returns
    /// `PackedTransactionCommit` or `LockCommit` if one couldn't be given back, and `Memory` if
    /// memory was refused: then the others are.
    pub fn rollback<F: Files>(
        self,
        alloc: Global,
        files: &mut F,
    ) -> Result<Vec<RefEdit>, CommitError>
        ensures keeps { KeepsFolders F.Files (EndsQuietly IsOutOfMemory result) files.old files.new }
        ensures edits { IfOk result (λ edits. edits ≡ self.edits) }
        ensures moments { Passes F.is_honest F.history files.old files.new SameButLocks }
        // No lock is left.
        ensures gone { Achieves F.is_honest F.history files.old files.new result
            (AllGone self.moves.items self.packed) }
        // If the locks exist, each error but want of memory is that of a call that failed.
        ensures failed { F.is_honest files.old
            → AreHeld self.packed self.moves.items (F.history files.old).tree
            → FailsByFault F.Files IsOutOfMemory files.old files.new result }
        // No lock is left, also after an error, unless a failure was counted or memory was wanting.
        ensures rolled_back { F.is_honest files.old
            → AreHeld self.packed self.moves.items (F.history files.old).tree
            → FailsForMemory result ⊎ (HasRisen (F.failures files.old) (F.failures files.new)
            ⊎ AllGone self.moves.items self.packed (F.history files.old).tree
            (F.history files.new).tree) }
    {
        let Transaction {
            edits,
            moves,
            packed,
        } = self;
        let records = drop_records(alloc, files, packed);
        let locks = give_back_all(alloc, files, &moves);
        given_back(records, locks)?;
        Ok(edits)
    }
}
