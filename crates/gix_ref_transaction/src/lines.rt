//! The line that an edit adds to a log: id before, committer, message; whether updates of a name are logged.

ghost use Rattle.std.specs.Prelude.{◌≡◌, ◌++◌, ◌∷◌, [], None, Ok, Some, IfOk, IfErr, MatchResult};
ghost use Rattle.bstr.specs.BStr.{bstr_bytes};
ghost use Rattle.gix_hash.specs.Id.{id_of};
ghost use Rattle.gix_object_lines.specs.Actor.{TellsTime};
ghost use Rattle.gix_ref_log.specs.LogOwned.{written_text};
ghost use Rattle.gix_ref_lock.specs.declared.act.LogError.TheVariants.{Unspellable};
ghost use Rattle.gix_ref_name.specs.Names.{name_of};
ghost use Rattle.gix_ref_store.specs.Finds.{TellsState};
ghost use Rattle.gix_ref_store.specs.Lookups.{reads_with};
ghost use Rattle.gix_ref_store.specs.Stores.{base_of};
ghost use Rattle.gix_ref_transaction.specs.Causes.{LineFault, NoLine, ReadFault, SpellFault, WriteFault, end_fault};
ghost use Rattle.gix_ref_transaction.specs.LogLines as spec;
ghost use Rattle.gix_ref_transaction.specs.LogLines.{IsLineOf, IsLineBy, SpellsCommitter, has_log, logging};

use crate::error::PrepareError;
use gix_hash::ObjectId;
use gix_object_lines::lines::{Actor, ActorRef};
use gix_object_lines::{ByteString, decode};
use gix_ref_edit::{Change, LogChange, RefEdit};
use gix_ref_file::Files;
use gix_ref_format::packed::Buffer;
use gix_ref_lock::LogError;
use gix_ref_log::{Line, write};
use gix_ref_name::{FullNameRef, Target};
use gix_ref_store::store::file::find::ExistingError;
use gix_ref_store::store::file::{ReferenceExt, Store, find, follow, log};
use gix_ref_store::{Reference, WriteReflog};
use std::alloc::Global;

// Returns the line that the log of the edit's name gets. It is none for a deletion, for an update
// to another reference's name or to the id that the name held, and if the store's options don't log
// the name.
pub(crate) fn line_of<F: Files>(
    alloc: Global,
    store: &Store<F>,
    edit: &RefEdit,
    found: &Option<Reference>,
    packed: Option<&Buffer>,
    committer: Option<ActorRef<'_>>,
) -> Result<Option<Vec<u8>>, PrepareError>
    ensures line { F.is_honest store.now.files → let tree = (F.history store.now.files).tree in
        let read = reads_with store.now tree packed.entry in let name = edit.now.name in
        TellsState name (read name) (Ok found.now)
        → IfOk result (IsLineOf (logging store.now.options read committer.entry)
        (has_log (base_of store.now) tree name) name edit.now.change) }
    ensures failed { F.is_honest store.now.files → let tree = (F.history store.now.files).tree in
        let read = reads_with store.now tree packed.entry in let name = edit.now.name in
        TellsState name (read name) (Ok found.now)
        → IfErr result (LineFault (logging store.now.options read committer.entry)
        (has_log (base_of store.now) tree name) F.reading_may_fail name edit.now.change) }
{
    let Change::Update { log, new, .. } = &edit.change else {
        return Ok(None);
    };
    let Target::Object(after) = new else {
        return Ok(None);
    };
    if !is_logged(alloc, store, edit.name.as_ref(), log)? {
        return Ok(None);
    }
    let before = id_before(alloc, store, found, packed)?;
    if before == *after {
        return Ok(None);
    }
    Ok(Some(spelled(alloc, before, *after, &log.message, committer)?))
}

// Returns whether updates of the name are written to its log.
fn is_logged<F: Files>(
    alloc: Global,
    store: &Store<F>,
    name: FullNameRef<'_>,
    change: &LogChange,
) -> Result<bool, PrepareError>
    ensures logged { F.is_honest store.now.files
        → let stands = has_log (base_of store.now) (F.history store.now.files).tree (name_of name.entry) in
        IfOk result (λ logged. logged ≡ spec.is_logged store.now.options.write_reflog
        change.now.force_create_reflog stands (name_of name.entry)) }
    ensures failed { IfErr result (ReadFault F.reading_may_fail) }
{
    match store.options().write_reflog {
        WriteReflog::Always => Ok(true),
        WriteReflog::Disable => Ok(false),
        WriteReflog::Normal => {
            if change.force_create_reflog || is_usually_logged(name.to_path()) {
                return Ok(true);
            }
            match store.reflog_exists(alloc, name) {
                Ok(found) => Ok(found),
                Err(log::Error::Io(_)) => Err(PrepareError::ReferenceDecode(
                    find::Error::ReadFileContents,
                )),
                Err(log::Error::Memory) => Err(PrepareError::Memory),
            }
        }
    }
}

// Returns whether updates of a name are logged by default.
fn is_usually_logged(name: &[u8]) -> bool
    ensures { result ≡ spec.is_usually_logged name.now }
{
    name == b"HEAD".as_slice()
        || name.starts_with(b"refs/heads/")
        || name.starts_with(b"refs/remotes/")
        || name.starts_with(b"refs/notes/")
        || name.starts_with(b"refs/worktree/")
}

// Returns the id of the object that the reference led to, or the null id if it led to none.
fn id_before<F: Files>(
    alloc: Global,
    store: &Store<F>,
    found: &Option<Reference>,
    packed: Option<&Buffer>,
) -> Result<ObjectId, PrepareError>
    ensures id { F.is_honest store.now.files
        → let read = reads_with store.now (F.history store.now.files).tree packed.entry in
        IfOk result (λ id. id_of id ≡ spec.id_found store.now.options.object_hash read found.now) }
    ensures failed { F.is_honest store.now.files → IfErr result (ReadFault F.reading_may_fail) }
{
    let null = ObjectId::null(store.options().object_hash);
    match found {
        Some(found) => match found.follow_to_object_packed(alloc, store, packed) {
            Ok(id) => Ok(id),
            Err(error) => none_reached(error, null),
        },
        None => Ok(null),
    }
}

// Returns the null id if the chain ends at no object, or the error if it couldn't be followed to
// its end.
fn none_reached(error: follow::Error, null: ObjectId) -> Result<ObjectId, PrepareError>
    ensures { MatchResult result (λ id. (id ≡ null) × (end_fault error ≡ None))
        (λ told. end_fault error ≡ Some told) }
{
    match error {
        follow::Error::Cycle | follow::Error::DepthLimitExceeded => Ok(null),
        follow::Error::Follow(ExistingError::NotFound) => Ok(null),
        follow::Error::Follow(ExistingError::Find(find::Error::ReferenceCreation(_))) => Ok(null),
        follow::Error::Follow(ExistingError::Find(find::Error::PackedOpen(error))) => {
            Err(PrepareError::from(error))
        }
        follow::Error::Follow(ExistingError::Find(find::Error::ReadFileContents)) => {
            Err(PrepareError::ReferenceDecode(find::Error::ReadFileContents))
        }
        follow::Error::Follow(ExistingError::Find(find::Error::Memory)) => {
            Err(PrepareError::Memory)
        }
        follow::Error::Memory => Err(PrepareError::Memory),
    }
}

fn spelled(
    alloc: Global,
    before: ObjectId,
    after: ObjectId,
    message: &ByteString,
    committer: Option<ActorRef<'_>>,
) -> Result<Vec<u8>, PrepareError>
    ensures line { IfOk result (λ text. IsLineBy committer.entry (id_of before) (id_of after)
        message.now (Some text)) }
    ensures failed { IfErr result (NoLine (SpellFault committer.entry message.now)) }
{
    let Some(committer) = committer else {
        return Err(PrepareError::CreateOrUpdateRefLog(LogError::MissingCommitter));
    };
    let line = Line {
        previous_oid: before,
        new_oid: after,
        signature: signature_of(alloc, committer)?,
        message: message.try_clone()?,
    };
    text_of(alloc, &line)
}

fn signature_of(alloc: Global, committer: ActorRef<'_>) -> Result<Actor, PrepareError>
    ensures actor { IfOk result (SpellsCommitter committer.entry) }
    ensures failed { IfErr result (NoLine (λ why. (why ≡ Unspellable)
        × ¬ TellsTime (bstr_bytes committer.entry.time))) }
{
    match committer.to_owned(alloc) {
        Ok(signature) => Ok(signature),
        Err(decode::Error::InvalidTime) => {
            Err(PrepareError::CreateOrUpdateRefLog(LogError::Unspellable))
        }
        Err(_) => Err(PrepareError::Memory),
    }
}

fn text_of(alloc: Global, line: &Line) -> Result<Vec<u8>, PrepareError>
    ensures text { IfOk result (λ text. text.items ≡ written_text line.now ++ 10 ∷ []) }
    ensures failed { IfErr result (NoLine (WriteFault line.now)) }
{
    let mut text = Vec::new(alloc);
    match line.write_to(&mut text) {
        Ok(()) => Ok(text),
        Err(write::Error::Writer(_)) => Err(PrepareError::Memory),
        Err(write::Error::Unspellable) => {
            Err(PrepareError::CreateOrUpdateRefLog(LogError::Unspellable))
        }
        Err(write::Error::MessageWithNewlines) => Err(PrepareError::CreateOrUpdateRefLog(
            LogError::MessageWithNewlines,
        )),
    }
}
