//! A commit's edits: the blobs and changes that they are, and the first parent's files edited, or why not.

ghost use Rattle.std.specs.Prelude.{◌≡◌, IfOk, IsFalse, List, OnOk, map, option_to_list};
ghost use Rattle.std.specs.List.{AllZip, flat_map, list_any};
ghost use Rattle.gix_hash.specs.Id.{Id};
ghost use Rattle.history_model.specs.Causes.{is_bad_path};
ghost use Rattle.history_model.specs.CommandParts.{edit_paths};
ghost use Rattle.history_model.specs.Commands.{EditLine};
ghost use Rattle.history_model.specs.Meaning.{put_bytes};
ghost use Rattle.history_files.specs.Editing.{HavePaths};
ghost use Rattle.history_store.specs.Stores.{AreObjectsOf};
ghost use Rattle.history_word.specs.Commands.{AreEdits};
ghost use Rattle.history_plans.specs.Files.{AreChangesOf, AreReadAs, HasSource, IsFoundFor, TellsEdited, TellsRead, IsChangeOf, change_parts, edit_parts, grafts_none, kept_edit, unmade};
ghost use Rattle.history_repository.specs.Reads.{AreTrees};
ghost use Rattle.history_repository.specs.Stands.{Stands};
ghost use Rattle.history_repository.specs.TreesBefore.{IsTreeBefore};
ghost use Rattle.history_model.specs.FileMap as model;
ghost use Rattle.history_model.specs.Repository as plain;

use crate::grafts::{found_for, source_at};
use gix_hash::{Kind, ObjectId};
use gix_ref_file::Files;
use history_files::{
    Change, EditError, EditedFiles, Found, ReadTrees, TreeStore, edit_files, read_for_edits,
};
use history_model::{Cause, Fault};
use history_repository::{PeeledCommit, Repository, Stopped, into_kept};
use history_store::NewObject;
use history_word::Edit;
use std::alloc::{AllocError, Global};

/// A path, and what is done there.
#[derive(Drop)]
pub(crate) struct PathChange {
    pub(crate) path: Vec<u8>,
    pub(crate) change: Change,
}

/// The changes that a commit's edits are, and an object for each content that they put.
#[derive(Drop)]
pub(crate) struct Changes {
    pub(crate) made: Vec<PathChange>,
    pub(crate) blobs: Vec<NewObject>,
}

/// Returns what an edit changes, for which this was found, and the object of its content, if it has
/// one. Each content is hashed here, and nowhere else.
fn read_edit(kind: Kind, edit: Edit, found: Option<Found>) -> (PathChange, Option<NewObject>)
    ensures change { (r : plain.Repository) → kind ≡ r.kind → IsFoundFor r edit found
        → IsChangeOf r result.0 (kept_edit r edit) }
    ensures blob { (r : plain.Repository) → kind ≡ r.kind
        → AreObjectsOf r.kind (put_bytes (kept_edit r edit)) (option_to_list result.1) }
{
    match edit {
        Edit::Put(put) => {
            let blob = NewObject::new(kind, gix_object::Kind::Blob, into_kept(put.content));
            let change = Change::Put {
                kind: put.kind,
                id: blob.id,
            };
            let path = into_kept(put.path);
            (PathChange { path, change }, Some(blob))
        }
        Edit::Remove(path) => {
            let path = into_kept(path);
            let change = Change::Remove;
            (PathChange { path, change }, None)
        }
        Edit::RemoveFile(path) => {
            let path = into_kept(path);
            let change = Change::RemoveFile;
            (PathChange { path, change }, None)
        }
        Edit::Graft(graft) => {
            let path = into_kept(graft.path);
            let change = Change::Graft(found);
            (PathChange { path, change }, None)
        }
    }
}

/// Returns what edits change; these are the commits of their words. It is refused with `BadPath` if
/// a graft would put a file at a path over the limit. It is a fault if a call of the files failed,
/// or if no memory is left.
pub(crate) fn read_edits<F: Files>(
    repository: &Repository<F>,
    alloc: Global,
    read: &mut ReadTrees,
    edits: Vec<Edit>,
    sources: &[Option<PeeledCommit>],
) -> Result<Changes, Stopped>
    ensures changes { (r : plain.Repository) (lines : List EditLine)
        → Stands F.is_honest F.history repository.now r → AreEdits edits.items lines
        → IsFalse (list_any is_bad_path (flat_map edit_paths lines))
        → AllZip (HasSource r) lines sources.now → AreTrees r read.old
        → TellsRead F.reading_may_fail (map (kept_edit r) edits.items)
        (λ changes. AreReadAs r changes (map (kept_edit r) edits.items)) result }
    ensures trees { (r : plain.Repository) → Stands F.is_honest F.history repository.now r
        → AreTrees r read.old → OnOk result (AreTrees r read.new) }
{
    let mut made = Vec::with_capacity(alloc, edits.len())?;
    let mut blobs = Vec::new(alloc);
    for edit in edits {
        let at = made.len();
        let source = source_at(sources, at);
        let found = found_for(repository, alloc, read, &edit, source)?;
        let (change, blob) = read_edit(repository.objects.kind(), edit, found);
        made.push(change)?;
        blobs.extend(blob)?;
    }
    Ok(Changes { made, blobs })
}

/// Returns whether a change grafts what isn't there.
pub(crate) fn graft_nothing(changes: &[PathChange]) -> bool
    ensures { result ≡ list_any (λ change. grafts_none change.change) changes.now }
{
    changes.iter().any(|change| grafts_none(&change.change))
}

fn grafts_none(change: &Change) -> bool
    ensures { result ≡ grafts_none change.now }
{
    matches!(change, Change::Graft(None))
}

/// Returns the changes as edits of files.
fn edits_of(
    alloc: Global,
    changes: &[PathChange],
) -> Result<Vec<history_files::Edit<'_>>, AllocError>
    ensures { IfOk result (λ edits. map edit_parts edits.items ≡ map change_parts changes.now) }
{
    let mut edits = Vec::with_capacity(alloc, changes.len())?;
    for change in changes {
        edits.push(history_files::Edit {
            path: &change.path,
            change: change.change,
        })?;
    }
    Ok(edits)
}

/// Returns what comes of edits that aren't made: `None` for a null id, and else a refusal or a
/// fault.
fn unmade(error: EditError) -> Result<Option<EditedFiles>, Stopped>
    ensures { result ≡ unmade error }
{
    match error {
        EditError::NullId => Ok(None),
        EditError::EmptyTree => Err(Stopped::Fault(Fault::File)),
        EditError::BadPath => Err(Stopped::Refused(Cause::BadPath)),
        EditError::IsFolder => Err(Stopped::Refused(Cause::IsFolder)),
        EditError::Failed | EditError::Broken { .. } => Err(Stopped::Fault(Fault::File)),
        EditError::Memory => Err(Stopped::Fault(Fault::Memory)),
    }
}

/// Returns what changes make of the files of the first parent's tree, or of none; `None` if what is
/// put or a tree would have the null id. Trees that were read aren't read again. It is refused with
/// `IsFolder` if there is a folder where a file is to be removed. The faults are those of
/// `read_edits`.
pub(crate) fn edited<F: Files>(
    repository: &Repository<F>,
    alloc: Global,
    read: &mut ReadTrees,
    tree: Option<ObjectId>,
    changes: &[PathChange],
) -> Result<Option<EditedFiles>, Stopped>
    ensures edited { (r : plain.Repository) (parents : List Id) (made : List model.Edit)
        → Stands F.is_honest F.history repository.now r → IsTreeBefore r parents tree
        → AreChangesOf r changes.now made → HavePaths made → AreTrees r read.old
        → TellsEdited F.reading_may_fail r parents made result }
    ensures trees { (r : plain.Repository) → Stands F.is_honest F.history repository.now r
        → AreTrees r read.old → OnOk result (AreTrees r read.new) }
{
    let edits = edits_of(alloc, changes)?;
    read_for_edits(alloc, &repository.objects, read, tree.as_ref(), &edits)?;
    let store = TreeStore {
        store: &repository.objects,
        read,
    };
    match edit_files(
        alloc,
        &store,
        repository.objects.kind(),
        tree.as_ref(),
        &edits,
    ) {
        Ok(edited) => Ok(Some(edited)),
        Err(error) => unmade(error),
    }
}
