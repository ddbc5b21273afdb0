//! Edits and why they fail (`Edit`, `EditError`): made one by one in an editor, and the tree entry that one puts.

ghost use Rattle.std.specs.Prelude.{◌≡◌, ◌≤◌, ◌+◌, length, OnOk, IfErr, IsErrOf};
ghost use Rattle.gix_object_editor.specs.Asked.{CountsUp};
ghost use Rattle.gix_object_editor.specs.Editor.{IsAsRead, OverStored, asked_by, leaf_of_kind};
ghost use Rattle.gix_object_editor.specs.Outcomes.{KeepsEach};
ghost use Rattle.history_files.specs.Entries.{MayBeMade, MayPut, found_leaf};
ghost use Rattle.history_files.specs.Lookups.{AsksOf, edit_way};
ghost use Rattle.history_files.specs.Making.{AcceptsEdit, AcceptsEdits, MakesEdit, MakesEdits, RefusesEdit, RefusesEdits};
ghost use Rattle.history_files.specs.Opening.{TellsBroken};
ghost use Rattle.history_model.specs.FileMap.{components};
ghost use Rattle.history_files.specs.Unfolding as unfolded;
ghost use Rattle.history_files.specs.Edits.{name_count, as_edited, as_opened, as_unread};
ghost use Rattle.history_files.specs.declared.edits.EditError.TheVariants.{Failed, Memory};

use crate::error::ReadError;
use crate::found::Found;
use crate::paths::names_of;
use gix_hash::{Kind, ObjectId};
use gix_object_editor::tree::editor::{self, Editor};
use gix_object_lines::decode;
use gix_object_lookup::find::existing_object;
use gix_object_lookup::{FindInto, find};
use gix_object_tree::tree::EntryKind;
use history_model::FileKind;
use std::alloc::{AllocError, Global};

/// What an edit does at its path.
#[derive(Clone, Copy)]
pub enum Change {
    /// Puts a file there. Everything at or below the path goes, and each file above it.
    Put {
        /// What the file is.
        kind: FileKind,
        /// The id of its bytes.
        id: ObjectId,
    },
    /// Removes everything at or below the path.
    Remove,
    /// The same, but refused if there are files below the path.
    RemoveFile,
    /// Puts there what was found in other files: a file, or a folder with all that it has.
    /// Everything at or below the path goes, and each file above it; if nothing was found, only
    /// that happens.
    Graft(Option<Found>),
}

/// An edit of files.
#[derive(Clone, Copy)]
pub struct Edit<'a> {
    /// Where it is made.
    pub path: &'a [u8],
    /// What it does there.
    pub change: Change,
}

/// Why edits aren't made.
#[derive(Debug, Clone, Copy, thiserror::Error)]
pub enum EditError {
    /// A path has an empty name.
    #[error("a path has an empty name")]
    BadPath,
    /// There are files below the path of a file that is to be removed.
    #[error("a path from which a file is to be removed has files below it")]
    IsFolder,
    /// What is put, or the tree of a folder, has the null id, by which a tree names nothing.
    #[error("an object has the null id")]
    NullId,
    /// What is to be grafted has the id of the tree without entries.
    #[error("a graft has the id of the tree without entries")]
    EmptyTree,
    /// The store failed to look a tree up.
    #[error("a tree couldn't be looked up")]
    Failed,
    /// There is no readable tree under this id.
    #[error("the tree {oid} is missing, or can't be read")]
    Broken {
        /// The id.
        oid: ObjectId,
    },
    /// No memory is left.
    #[error("out of memory")]
    Memory,
}

impl From<editor::Error> for EditError {
    ghost from_gives = { λ error given. given ≡ as_edited error };

    fn from(error: editor::Error) -> EditError {
        match error {
            editor::Error::EmptyPathComponent => EditError::BadPath,
            editor::Error::FindExistingObject(error) => lookup_error(error),
            editor::Error::CannotRemoveNonLeaf { .. } => EditError::IsFolder,
            editor::Error::MalformedTree { oid } => EditError::Broken { oid },
            editor::Error::EmptyTree => EditError::EmptyTree,
            editor::Error::Memory => EditError::Memory,
        }
    }
}

impl From<ReadError> for EditError {
    ghost from_gives = { λ error given. given ≡ as_opened error };

    fn from(error: ReadError) -> EditError {
        match error {
            ReadError::Failed => EditError::Failed,
            ReadError::Broken { oid } => EditError::Broken { oid },
            ReadError::Memory => EditError::Memory,
        }
    }
}

impl From<AllocError> for EditError {
    ghost from_gives = { λ _ given. given ≡ Memory };

    fn from(_: AllocError) -> EditError {
        EditError::Memory
    }
}

// Returns why a tree on a path isn't read.
fn lookup_error(error: existing_object::Error) -> EditError
    ensures { result ≡ as_unread error }
{
    match error {
        existing_object::Error::Find(error) => match error {
            find::Error::Failed => EditError::Failed,
            find::Error::Memory => EditError::Memory,
        },
        existing_object::Error::Decode { oid, source } => match source {
            decode::Error::Memory => EditError::Memory,
            _ => EditError::Broken { oid },
        },
        existing_object::Error::NotFound { oid } => EditError::Broken { oid },
        existing_object::Error::ObjectKind { oid, .. } => EditError::Broken { oid },
    }
}

/// Makes the edits in order. The files are those that the editor has over trees of its store.
///
/// Returns `BadPath` if a path has an empty name, `IsFolder` if a `RemoveFile` finds files below
/// its path, `EmptyTree` if what is grafted has the id of the tree without entries, `Failed` if a
/// lookup failed, `Broken` if a tree on a path is missing or can't be read, and `Memory` if no
/// memory is left. Some of the edits may have been made then.
pub fn make_edits<S: FindInto>(
    alloc: Global,
    editor: &mut Editor<S>,
    edits: &[Edit<'_>],
) -> Result<(), EditError>
    ensures files { MakesEdits S.is_honest S.table edits.now editor.old editor.new result }
    ensures accepted { AcceptsEdits S.is_honest S.table edits.now editor.old result }
    ensures refused { RefusesEdits S.is_honest S.may_fail S.table edits.now editor.old result }
    ensures broken { IfErr result
        (TellsBroken (S.is_honest editor.old.store) (S.table editor.old.store)) }
    ensures each { KeepsEach S.is_honest S.table (λ has. MayBeMade has edits.now) editor.old
        editor.new }
    ensures as_read { OverStored (S.is_honest editor.old.store) (S.table editor.old.store)
        (λ trees. IsAsRead trees editor.old → IsAsRead trees editor.new) }
    ensures asked { OverStored (S.is_honest editor.old.store) (S.table editor.old.store)
        (λ trees. OnOk result (AsksOf (λ names. asked_by editor.old names trees) edits.now
        editor.old.lookups editor.new.lookups)) }
    ensures counted { editor.new.lookups ≤ editor.old.lookups + name_count edits.now }
    ensures store { editor.new.store ≡ editor.old.store }
    ensures failed { IsErrOf result Failed → S.may_fail editor.old.store }
{
    for edit in edits {
        make_edit(alloc, editor, edit)?;
    }
    Ok(())
}

/// Makes one edit.
pub(crate) fn make_edit<S: FindInto>(
    alloc: Global,
    editor: &mut Editor<S>,
    edit: &Edit<'_>,
) -> Result<(), EditError>
    ensures files { MakesEdit S.is_honest S.table edit.now editor.old editor.new result }
    ensures accepted { AcceptsEdit S.is_honest S.table edit.now editor.old result }
    ensures refused { RefusesEdit S.is_honest S.may_fail S.table edit.now editor.old result }
    ensures broken { IfErr result
        (TellsBroken (S.is_honest editor.old.store) (S.table editor.old.store)) }
    ensures each { KeepsEach S.is_honest S.table
        (λ has. MayPut has edit.now.path.now edit.now.change) editor.old editor.new }
    ensures as_read { OverStored (S.is_honest editor.old.store) (S.table editor.old.store)
        (λ trees. IsAsRead trees editor.old → IsAsRead trees editor.new) }
    ensures asked { OverStored (S.is_honest editor.old.store) (S.table editor.old.store)
        (λ trees. OnOk result (CountsUp editor.old.lookups editor.new.lookups
        (length (asked_by editor.old (edit_way edit.now) trees)))) }
    ensures counted { editor.new.lookups
        ≤ editor.old.lookups + length (components edit.now.path.now) }
    ensures store { editor.new.store ≡ editor.old.store }
    ensures failed { IsErrOf result Failed → S.may_fail editor.old.store }
{
    let names = names_of(alloc, edit.path)?;
    match edit.change {
        Change::Put { kind, id } => {
            Ok(editor.upsert(alloc, names.as_slice(), entry_kind(kind), id)?)
        }
        Change::Remove => Ok(editor.remove(alloc, names.as_slice())?),
        Change::RemoveFile => Ok(editor.remove_leaf(alloc, names.as_slice())?),
        Change::Graft(found) => {
            let entry = entry_for(found);
            Ok(editor.graft(alloc, names.as_slice(), entry.kind, entry.id)?)
        }
    }
}

// What a tree's entry says.
#[derive(Drop)]
struct NewEntry {
    kind: EntryKind,
    id: ObjectId,
}

// Returns the entry of what was found; that of nothing has the null id.
fn entry_for(found: Option<Found>) -> NewEntry
    ensures { leaf_of_kind result.kind result.id ≡ found_leaf found }
{
    match found {
        Some(Found::File { kind, id }) => NewEntry {
            kind: entry_kind(kind),
            id,
        },
        Some(Found::Folder { id }) => NewEntry {
            kind: EntryKind::Tree,
            id,
        },
        None => NewEntry {
            kind: EntryKind::Tree,
            id: ObjectId::null(Kind::Sha1),
        },
    }
}

fn entry_kind(kind: FileKind) -> EntryKind
    ensures { result ≡ unfolded.entry_kind kind }
{
    match kind {
        FileKind::File => EntryKind::Blob,
        FileKind::Exec => EntryKind::BlobExecutable,
        FileKind::Link => EntryKind::Link,
    }
}
