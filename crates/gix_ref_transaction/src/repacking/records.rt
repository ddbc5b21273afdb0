//! The records that edits remove from `packed-refs` or write, with peeled ids; their lock (`repack`).

ghost use Rattle.std.specs.Prelude.{◌≡◌, ◌≢◌, ◌++◌, [], is_some, map, option_map, IfErr, IfOk, IfSome, IsTrue, None, OnOk, Some};
ghost use Rattle.std.specs.List.{list_any};
ghost use Rattle.std.specs.Option.{option_to_list};
ghost use Rattle.gix_hash.specs.Id.{id_of};
ghost use Rattle.gix_ref_file.specs.Calls.{Passes};
ghost use Rattle.gix_ref_file.specs.Changes.{is_file_at};
ghost use Rattle.gix_ref_format.specs.Lookup.{packed_hit};
ghost use Rattle.gix_ref_format.specs.PackedBuffer.{KeepsFile};
ghost use Rattle.gix_ref_format.specs.PackedKept.{kept};
ghost use Rattle.gix_ref_store.specs.Finds.{records_in};
ghost use Rattle.gix_ref_store.specs.Places.{packed_place};
ghost use Rattle.gix_ref_store.specs.Stores.{base_of};
ghost use Rattle.gix_ref_name.specs.Targets.{target_view};
ghost use Rattle.gix_ref_way.specs.Ways.{SameFolders, file_at};
ghost use Rattle.gix_ref_lock.specs.Calls.{EndsQuietly, KeepsFolders};
ghost use Rattle.gix_ref_lock.specs.Locks.{lock_of, OthersStay};
ghost use Rattle.gix_ref_lock.specs.PackedEdits.{lock_path_of, place_of};
ghost use Rattle.gix_ref_lock.specs.RecordEdits as record_edits;
ghost use Rattle.gix_ref_transaction.specs.Calls.{HoldsLock, IsUnpacked, KeepsStore, LeavesUnpacked, StorePasses};
ghost use Rattle.gix_ref_transaction.specs.Modes.{objects_in, packs_in};
ghost use Rattle.gix_ref_transaction.specs.Repacking as spec;
ghost use Rattle.gix_ref_transaction.specs.Repacking.{AddsSaid, HoldsRecords, Repacks, SaysOfRecord, SayOfRecords, TellsPeeled, UpdatesRecord, removal_line};
ghost use Rattle.gix_ref_transaction.specs.Resolving.{ChangeFault, IfUnresolved, PackCause, ResolveFault, SomeChangeFault, TargetFault};
ghost use Rattle.gix_ref_transaction.specs.RecordsRollback.{IsEarly, WantsMemory};

use crate::{PackedRefs, RepackError};
use gix_hash::{Kind, ObjectId};
use gix_object_lookup::FindInto;
use gix_ref_edit::{Change, LogChange, RefEdit, RefLog};
use gix_ref_file::Files;
use gix_ref_format::lookup::key_of;
use gix_ref_format::packed::Buffer;
use gix_ref_lock::packed::{RecordEdit, Transaction};
use gix_ref_name::{FullName, Target};
use gix_ref_store::Reference;
use gix_ref_store::store::file::{ReferenceExt, Store};
use std::alloc::Global;

/// Begins a transaction of the packed references and prepares it, if the edits change records: its
/// lock is then held, and has the new text. Returns `None` if no record changes, as after the
/// deletion of a name without a record. `packed` is what the caller has read of the file, `None` if
/// the file doesn't exist. The records of references that are deleted are removed. If `packed_refs`
/// packs updates, each update to an object gets a record, with the id that tags lead to if it
/// differs. Names that each worktree has of its own have no record.
///
/// `PackedTransactionAcquire` if the packed references can't be read or locked,
/// `PackedTransactionPrepare` if the new text can't be written, `Resolve` if no object is found for
/// an id that is to be packed, and `Memory` if memory ran out. A lock that exists already isn't
/// touched. At each moment each file and folder but the lock is as before. If no record changes
/// nothing is done, and after an error the lock is gone, unless its removal fails.
pub fn repack<F: Files, O: FindInto>(
    alloc: Global,
    store: &mut Store<F>,
    packed: Option<&Buffer>,
    edits: &[RefEdit],
    packed_refs: &PackedRefs<'_, O>,
) -> Result<Option<Transaction>, RepackError>
    ensures keeps { KeepsStore F.Files (EndsQuietly WantsMemory result) store.old store.new }
    ensures moments { StorePasses F.Files store.old store.new
        (OthersStay (lock_of (packed_place (base_of store.old)))) }
    ensures folders { StorePasses F.Files store.old store.new SameFolders }
    ensures idle { IfOk result (λ held. held ≡ None → store.new ≡ store.old) }
    ensures early { IfErr result (λ error. IsEarly error → store.new ≡ store.old) }
    ensures at { IfOk result (λ held. IfSome held (λ t.
        place_of t ≡ packed_place (base_of store.old))) }
    ensures held { F.is_honest store.old.files → IfOk result (λ held. IfSome held (HoldsLock
        (packed_place (base_of store.old)) (F.history store.new.files).tree)) }
    ensures repacked { IfOk result (Repacks F.Files O.Lookup packed_refs.now
        store.old packed.entry store.new edits.now) }
    ensures resolves { F.is_honest store.old.files → IfSome (objects_in packed_refs.now) O.is_honest
        → IfErr result (IfUnresolved (SomeChangeFault
        (PackCause F.Files O.Lookup (objects_in packed_refs.now)) edits.now)) }
    // An error that isn't early comes from a fault of the files, or memory ran out.
    ensures failed { F.is_honest store.old.files
        → IfErr result (LeavesUnpacked F.Files store.old store.new) }
{
    let lines = record_edits(alloc, &*store, edits, packed_refs)?;
    if !change_records(packed, &lines) {
        return Ok(None);
    }
    let place = store.packed_refs_path(alloc)?;
    let kind = store.options().object_hash;
    let held = written(alloc, &mut store.files, &place, kind, packed, lines)?;
    Ok(Some(held))
}

// Begins a transaction of the packed references at this path, and prepares it with these edits.
fn written<F: Files>(
    alloc: Global,
    files: &mut F,
    place: &[u8],
    kind: Kind,
    packed: Option<&Buffer>,
    lines: Vec<RecordEdit>,
) -> Result<Transaction, RepackError>
    ensures keeps { KeepsFolders F.Files (EndsQuietly WantsMemory result) files.old files.new }
    ensures at { IfOk result (λ t. place_of t ≡ place.now) }
    ensures locked { F.is_honest files.old → IfOk result (λ t.
        IsTrue (is_file_at (F.history files.new).tree (lock_path_of t))) }
    ensures moments { Passes F.is_honest F.history files.old files.new
        (OthersStay (lock_of place.now)) }
    ensures begun { IfErr result (λ error. ¬ IsEarly error) }
    ensures held { F.is_honest files.old → lines.items ≢ []
        → KeepsFile kind (file_at (F.history files.old).tree place.now)
        (option_map (λ buffer. kept buffer.now) packed.entry)
        → IfOk result (HoldsRecords kind place.now (F.history files.old).tree
        (F.history files.new).tree (map record_edits.line_in lines.items)) }
    ensures failed { F.is_honest files.old → IfErr result (IsUnpacked kind place.now
        (F.failures files.old) (F.failures files.new) F.reading_may_fail
        (F.history files.old).tree (F.history files.new).tree) }
{
    let begun = Transaction::new(alloc, files, place, kind, packed)?;
    let prepared = begun.prepare(alloc, files, lines)?;
    Ok(prepared)
}

// Returns whether one of the edits changes the records that were read.
fn change_records(packed: Option<&Buffer>, lines: &[RecordEdit]) -> bool
    ensures { result ≡ list_any (λ line.
        spec.changes_record (records_in packed.entry) (record_edits.line_in line)) lines.now }
{
    lines.iter().any(|line| changes_records(packed, line))
}

fn changes_records(packed: Option<&Buffer>, line: &RecordEdit) -> bool
    ensures { result
        ≡ spec.changes_record (records_in packed.entry) (record_edits.line_in line.now) }
{
    match line {
        RecordEdit::Write { .. } => true,
        RecordEdit::Remove { name } => has_record(packed, name),
    }
}

// Returns whether one of the records that were read has this name.
fn has_record(packed: Option<&Buffer>, name: &FullName) -> bool
    ensures { result ≡ is_some (packed_hit (records_in packed.entry) name.now) }
{
    match packed {
        Some(records) => records.try_find_full_name(name.as_ref()).is_some(),
        None => false,
    }
}

// Returns the edits of packed records that these edits lead to.
fn record_edits<F: Files, O: FindInto>(
    alloc: Global,
    store: &Store<F>,
    edits: &[RefEdit],
    packed_refs: &PackedRefs<'_, O>,
) -> Result<Vec<RecordEdit>, RepackError>
    ensures early { IfErr result IsEarly }
    ensures resolves { F.is_honest store.now.files → IfSome (objects_in packed_refs.now) O.is_honest
        → let why = PackCause F.Files O.Lookup (objects_in packed_refs.now) in
        IfErr result (IfUnresolved (SomeChangeFault why edits.now)) }
    ensures said { F.is_honest store.now.files → IfSome (objects_in packed_refs.now) O.is_honest
        → let packs = packs_in O.Lookup packed_refs.now in
        IfOk result (λ lines. SayOfRecords packs edits.now (map record_edits.line_in lines.items)) }
{
    let mut lines = Vec::new(alloc);
    let mut rest = edits;
    'edits: while let Some((edit, others)) = rest.split_first() {
        add_record_edit(alloc, store, edit, packed_refs, &mut lines)?;
        rest = others;
    }
    Ok(lines)
}

// Adds the edit of the record of its name, if the edit leads to one.
fn add_record_edit<F: Files, O: FindInto>(
    alloc: Global,
    store: &Store<F>,
    edit: &RefEdit,
    packed_refs: &PackedRefs<'_, O>,
    lines: &mut Vec<RecordEdit>,
) -> Result<(), RepackError>
    ensures early { IfErr result IsEarly }
    ensures resolves { F.is_honest store.now.files → IfSome (objects_in packed_refs.now) O.is_honest
        → let why = PackCause F.Files O.Lookup (objects_in packed_refs.now) in
        IfErr result (IfUnresolved (ChangeFault why edit.now.change)) }
    ensures said { F.is_honest store.now.files → IfSome (objects_in packed_refs.now) O.is_honest
        → let packs = packs_in O.Lookup packed_refs.now in
        OnOk result (AddsSaid packs edit.now (map record_edits.line_in lines.old.items)
        (map record_edits.line_in lines.new.items)) }
{
    let own = record_edit(alloc, store, edit, packed_refs)?;
    push_some(lines, own)?;
    Ok(())
}

// Adds the edit of a record, if there is one.
fn push_some(lines: &mut Vec<RecordEdit>, own: Option<RecordEdit>) -> Result<(), RepackError>
    ensures early { IfErr result IsEarly }
    ensures resolved { IfErr result (IfUnresolved (λ _. ⊥)) }
    ensures said { OnOk result (map record_edits.line_in lines.new.items
        ≡ map record_edits.line_in lines.old.items
        ++ option_to_list (option_map record_edits.line_in own)) }
{
    if let Some(line) = own {
        lines.push(line)?;
    }
    Ok(())
}

// Returns the edit of the record of its name, if the edit leads to one.
fn record_edit<F: Files, O: FindInto>(
    alloc: Global,
    store: &Store<F>,
    edit: &RefEdit,
    packed_refs: &PackedRefs<'_, O>,
) -> Result<Option<RecordEdit>, RepackError>
    ensures early { IfErr result IsEarly }
    ensures resolves { F.is_honest store.now.files → IfSome (objects_in packed_refs.now) O.is_honest
        → let why = PackCause F.Files O.Lookup (objects_in packed_refs.now) in
        IfErr result (IfUnresolved (ChangeFault why edit.now.change)) }
    ensures said { F.is_honest store.now.files → IfSome (objects_in packed_refs.now) O.is_honest
        → let packs = packs_in O.Lookup packed_refs.now in
        IfOk result (λ own. SaysOfRecord packs edit.now (option_map record_edits.line_in own)) }
{
    let Some(key) = key_of(edit.name.to_path()) else {
        return Ok(None);
    };
    match &edit.change {
        Change::Update { log, new, .. } => update_of(alloc, store, key, log, new, packed_refs),
        Change::Delete { log, .. } => removal_of(alloc, key, *log),
    }
}

// Returns the removal of the record; none if only the log is deleted.
fn removal_of(alloc: Global, key: &[u8], log: RefLog) -> Result<Option<RecordEdit>, RepackError>
    ensures early { IfErr result IsEarly }
    ensures resolved { IfErr result (IfUnresolved (λ _. ⊥)) }
    ensures said { IfOk result (λ own.
        option_map record_edits.line_in own ≡ removal_line log key.now) }
{
    match log {
        RefLog::AndReference => Ok(Some(RecordEdit::Remove {
            name: key_name(alloc, key)?,
        })),
        RefLog::Only => Ok(None),
    }
}

// Returns the record of an update to an object, if updates are packed; none if only the log is
// changed.
fn update_of<F: Files, O: FindInto>(
    alloc: Global,
    store: &Store<F>,
    key: &[u8],
    log: &LogChange,
    new: &Target,
    packed_refs: &PackedRefs<'_, O>,
) -> Result<Option<RecordEdit>, RepackError>
    ensures early { IfErr result IsEarly }
    ensures resolves { F.is_honest store.now.files → IfSome (objects_in packed_refs.now) O.is_honest
        → let why = PackCause F.Files O.Lookup (objects_in packed_refs.now) in
        IfErr result (IfUnresolved (TargetFault why (target_view new.now))) }
    ensures said { F.is_honest store.now.files → IfSome (objects_in packed_refs.now) O.is_honest
        → let packs = packs_in O.Lookup packed_refs.now in
        IfOk result (λ own. UpdatesRecord packs log.now.mode (target_view new.now) key.now
        (option_map record_edits.line_in own)) }
{
    let Some(objects) = packed_refs.objects() else {
        return Ok(None);
    };
    let Target::Object(id) = new else {
        return Ok(None);
    };
    match log.mode {
        RefLog::AndReference => {
            let record = record_of(alloc, store, key, *id, objects)?;
            Ok(Some(record))
        }
        RefLog::Only => Ok(None),
    }
}

// Returns the record of an id under this name, with the id of the object that tags lead to, if it
// differs.
fn record_of<F: Files, O: FindInto>(
    alloc: Global,
    store: &Store<F>,
    key: &[u8],
    id: ObjectId,
    objects: &O,
) -> Result<RecordEdit, RepackError>
    ensures early { IfErr result IsEarly }
    ensures resolves { F.is_honest store.now.files → O.is_honest objects.now
        → IfErr result (IfUnresolved (ResolveFault F.reading_may_fail (O.may_fail objects.now)
        (O.table objects.now) (id_of id))) }
    ensures said { F.is_honest store.now.files → O.is_honest objects.now
        → IfOk result (λ own. spec.WritesRecord (O.table objects.now)
        (id_of id) key.now (Some (record_edits.line_in own))) }
{
    let name = key_name(alloc, key)?;
    let object = peeled(alloc, store, key_name(alloc, key)?, id, objects)?;
    Ok(RecordEdit::Write {
        name,
        target: id,
        object,
    })
}

// Returns the id of the object that an id leads to, if it differs.
fn peeled<F: Files, O: FindInto>(
    alloc: Global,
    store: &Store<F>,
    name: FullName,
    id: ObjectId,
    objects: &O,
) -> Result<Option<ObjectId>, RepackError>
    ensures early { IfErr result IsEarly }
    ensures resolves { F.is_honest store.now.files → O.is_honest objects.now
        → IfErr result (IfUnresolved (ResolveFault F.reading_may_fail (O.may_fail objects.now)
        (O.table objects.now) (id_of id))) }
    ensures said { F.is_honest store.now.files → O.is_honest objects.now → IfOk result (λ peeled.
        TellsPeeled (O.table objects.now) (id_of id) (option_map id_of peeled)) }
{
    let found = Reference {
        name,
        target: Target::Object(id),
        peeled: None,
    };
    let end = found.peel_to_id_packed(alloc, store, objects, None)?;
    if end == id {
        return Ok(None);
    }
    Ok(Some(end))
}

fn key_name(alloc: Global, key: &[u8]) -> Result<FullName, RepackError>
    ensures early { IfErr result IsEarly }
    ensures resolved { IfErr result (IfUnresolved (λ _. ⊥)) }
    ensures said { IfOk result (λ name. name ≡ key.now) }
{
    match FullName::from_bytes(alloc, key) {
        Ok(name) => Ok(name),
        Err(_) => Err(RepackError::Memory),
    }
}
