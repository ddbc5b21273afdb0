//! Makes edits of a root's files (`edit_files`): tests paths and null ids, and writes the trees to be stored.

ghost use Rattle.std.specs.Prelude.{◌≡◌, ◌≤◌, ◌+◌, IfOk, IfErr, IsErrOf, map};
ghost use Rattle.std.specs.List.{list_all, list_any};
ghost use Rattle.gix_hash.specs.Id.{id_of};
ghost use Rattle.gix_object_editor.specs.Asked.{CountsUp};
ghost use Rattle.gix_object_editor.specs.Stored.{HasStored};
ghost use Rattle.gix_object_nodes.specs.Files.{Trees, is_null};
ghost use Rattle.gix_hash.specs.declared.kind.Kind.{Kind};
ghost use Rattle.history_model.specs.FileMap.{is_path};
ghost use Rattle.history_files.specs.StandIns.{puts_null, stand_in};
ghost use Rattle.history_files.specs.Edits.{name_count};
ghost use Rattle.gix_object_tree.specs.Entry.{own_item};
ghost use Rattle.gix_object_tree.specs.Writing.{tree_text};
ghost use Rattle.history_files.specs.Editing.{OfEdits, AreEdited, EditsFault, root_id};
ghost use Rattle.history_files.specs.Lookups.{AsksOf, root_count, root_into};
ghost use Rattle.history_files.specs.Opening.{TellsBroken};
ghost use Rattle.history_files.specs.Handing.{HasWritten, KeepsTree};
ghost use Rattle.history_files.specs.declared.edits.EditError.TheVariants.{Failed, Memory};

use crate::edits::{Change, Edit, EditError, make_edits};
use crate::opening::editor_of;
use crate::paths::is_file_path;
use crate::trees::{EditedFiles, EditedTree};
use gix_hash::{Kind, ObjectId};
use gix_object_editor::tree::editor::Editor;
use gix_object_hash::compute_hash;
use gix_object_lines::{Kind as ObjectKind, WriteTo};
use gix_object_lookup::FindInto;
use gix_object_tree::Tree;
use history_model::laws::edits_keep;
use std::alloc::{AllocError, Global};

/// Makes the edits of a root's files, in order, and returns the trees that are to be stored for the
/// result: those on the edited paths, and always the root's, even if it has no entries. Without a
/// root there are no files before. Nothing is stored. The ids of what is put, and of the trees, are
/// of this kind. Looks up the root's tree, and each tree into which an edit leads and that wasn't
/// looked up before: at most one more than there are names in the edited paths.
///
/// Returns `BadPath` if a path has an empty name or a zero byte, whatever the other edits are,
/// before anything is looked up; `IsFolder` if a `RemoveFile` finds files below its path;
/// `EmptyTree` if what is grafted has the id of the tree without entries; `NullId` if no edit is
/// refused and what is put or one of the trees has the null id; `Failed` if a lookup failed;
/// `Broken` if the root or a tree on a path is missing or can't be read; and `Memory` if no memory
/// is left.
pub fn edit_files<S: FindInto>(
    alloc: Global,
    store: &S,
    kind: Kind,
    root: Option<&ObjectId>,
    edits: &[Edit<'_>],
) -> Result<EditedFiles, EditError>
    ensures edited { OfEdits (S.is_honest store.now) (S.table store.now) kind
        (root_id root.entry) edits.now
        (λ files made. IfOk result (AreEdited kind files made)) }
    ensures refused { OfEdits (S.is_honest store.now) (S.table store.now) kind
        (root_id root.entry) edits.now
        (λ files made. IfErr result (EditsFault (S.may_fail store.now) kind files made)) }
    // Of any root.
    ensures broken { IfErr result (TellsBroken (S.is_honest store.now) (S.table store.now)) }
    ensures counted { IfOk result (λ edited. edited.lookups ≤ name_count edits.now + 1) }
    ensures asked { S.is_honest store.now
        → (trees : Trees) → HasStored (S.table store.now) trees
        → IfOk result (λ edited. AsksOf (root_into trees (root_id root.entry)) edits.now
        (root_count (root_id root.entry)) edited.lookups) }
    ensures failed { IsErrOf result Failed → S.may_fail store.now }
{
    edits_keep();
    if !are_paths(edits) {
        return Err(EditError::BadPath);
    }
    let mut editor = editor_of(alloc, store, root)?;
    if has_null(edits) {
        let tested = with_id(alloc, ObjectId::empty_blob(kind), edits)?;
        make_edits(alloc, &mut editor, tested.as_slice())?;
        return Err(EditError::NullId);
    }
    make_edits(alloc, &mut editor, edits)?;
    let edited = written(alloc, kind, &editor, roots(root))?;
    if has_null_tree(edited.trees.as_slice()) {
        return Err(EditError::NullId);
    }
    Ok(edited)
}

/// Returns whether each edit has a well-formed path.
pub(crate) fn are_paths(edits: &[Edit<'_>]) -> bool
    ensures { result ≡ list_all (λ edit. is_path edit.path.now) edits.now }
{
    edits.iter().all(|edit| is_file_path(edit.path))
}

// Returns whether an edit puts what has the null id.
fn has_null(edits: &[Edit<'_>]) -> bool
    ensures { result ≡ list_any (λ edit. puts_null edit.change) edits.now }
{
    edits.iter().any(|edit| puts_null(&edit.change))
}

fn puts_null(change: &Change) -> bool
    ensures { result ≡ puts_null change.now }
{
    match change {
        Change::Put { id, .. } => is_null(id),
        Change::Remove | Change::RemoveFile | Change::Graft(_) => false,
    }
}

// Returns the edits with this id for all that is put: they are tested so, since an editor has no
// file with the null id.
fn with_id<'a>(alloc: Global, id: ObjectId, edits: &[Edit<'a>]) -> Result<Vec<Edit<'a>>, AllocError>
    ensures { IfOk result (λ tested. tested.items ≡ map (stand_in id) edits.now) }
{
    edits.iter().map(|edit| stand_in(id, edit)).collect(alloc)
}

fn stand_in<'a>(id: ObjectId, edit: &Edit<'a>) -> Edit<'a>
    ensures { result ≡ stand_in id edit.now }
{
    let change = match edit.change {
        Change::Put { kind, .. } => Change::Put { kind, id },
        Change::Remove => Change::Remove,
        Change::RemoveFile => Change::RemoveFile,
        Change::Graft(found) => Change::Graft(found),
    };
    Edit {
        path: edit.path,
        change,
    }
}

fn has_null_tree(trees: &[EditedTree]) -> bool
    ensures { result ≡ list_any (λ tree. is_null (id_of tree.id)) trees.now }
{
    trees.iter().any(|tree| is_null(&tree.id))
}

fn is_null(id: &ObjectId) -> bool
    ensures { result ≡ is_null (id_of id.now) }
{
    id.is_null()
}

// Returns how many roots are given.
fn roots(root: Option<&ObjectId>) -> u64
    ensures { result ≡ root_count (root_id root.entry) }
{
    match root {
        Some(_) => 1,
        None => 0,
    }
}

// Returns the trees that the editor hands out. So many were looked up before it counted.
fn written<S: FindInto>(
    alloc: Global,
    kind: Kind,
    editor: &Editor<S>,
    before: u64,
) -> Result<EditedFiles, EditError>
    ensures trees { IfOk result (λ edited. HasWritten kind editor.now edited) }
    ensures counted { IfOk result (λ edited. edited.lookups ≤ editor.now.lookups + before) }
    ensures asked { IfOk result (λ edited. CountsUp editor.now.lookups edited.lookups before) }
    ensures refused { IfErr result (λ error. error ≡ Memory) }
{
    let mut trees = Vec::new(alloc);
    let root = editor.write(
        alloc,
        &mut |tree: &Tree| -> Result<ObjectId, AllocError>
            ensures { IfOk result (KeepsTree kind trees.entry.items tree.now trees.exit.items) }
        { keep(alloc, kind, &mut trees, tree) },
    );
    match root {
        Ok(root) => Ok(EditedFiles {
            root,
            trees,
            lookups: editor.lookups().saturating_add(before),
        }),
        Err(_) => Err(EditError::Memory),
    }
}

// Keeps a tree that is handed out, and returns its id.
fn keep(
    alloc: Global,
    kind: Kind,
    trees: &mut Vec<EditedTree>,
    tree: &Tree,
) -> Result<ObjectId, AllocError>
    ensures { IfOk result (KeepsTree kind trees.old.items tree.now trees.new.items) }
{
    let content = content_of(alloc, tree)?;
    let id = compute_hash(kind, ObjectKind::Tree, content.as_slice());
    trees.push(EditedTree { id, content })?;
    Ok(id)
}

// Returns the tree's text. Each name was tested, so only memory can be the cause if there is none.
fn content_of(alloc: Global, tree: &Tree) -> Result<Vec<u8>, AllocError>
    ensures { IfOk result (λ content.
        content.items ≡ tree_text (map own_item tree.now.entries.items)) }
{
    let mut content = Vec::new(alloc);
    match tree.write_to(&mut content) {
        Ok(()) => Ok(content),
        Err(_) => Err(AllocError),
    }
}
