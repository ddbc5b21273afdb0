//! An editor of a root's files (`open_editor`), whose tree is read and tested; or of no files, without a root.

ghost use Rattle.std.specs.Prelude.{◌≡◌, IfOk, IfErr, IsErrOf, Some};
ghost use Rattle.gix_hash.specs.Id.{id_of};
ghost use Rattle.gix_hash.specs.declared.kind.Kind.{Kind};
ghost use Rattle.gix_object_nodes.specs.Files.{Path, Trees};
ghost use Rattle.gix_object_editor.specs.Stored.{HasStored};
ghost use Rattle.gix_object_editor.specs.Editor.{asked_by, files_of, EachEntryHas, IsAsRead};
ghost use Rattle.history_model.specs.FileMap.{FileMap};
ghost use Rattle.history_files.specs.Unfolding.{IsUnfolded};
ghost use Rattle.history_files.specs.Editing.{IsBase, root_id};
ghost use Rattle.history_files.specs.Entries.{names_only, own_folders};
ghost use Rattle.history_files.specs.Lookups.{root_into};
ghost use Rattle.history_files.specs.Reading.{OfFiles, RootFault, OwnFault};
ghost use Rattle.history_files.specs.Opening.{EditsFiles, OpenFault, TellsBroken};
ghost use Rattle.history_files.specs.declared.edits.EditError.TheVariants.{Failed};

use crate::edits::EditError;
use crate::error::ReadError;
use crate::found::entries_of;
use gix_hash::ObjectId;
use gix_object_editor::tree::editor::Editor;
use gix_object_lookup::FindInto;
use gix_object_tree::{Tree, TreeRef};
use std::alloc::Global;

/// Returns an editor of a root's files, which looks trees up in the store. The root is the id of a
/// tree.
///
/// Returns `Failed` if the lookup failed, `Broken` if there is no readable and well-formed tree
/// under the root's id, and `Memory` if no memory is left.
pub fn open_editor<S: FindInto>(
    alloc: Global,
    store: S,
    root: &ObjectId,
) -> Result<Editor<S>, ReadError>
where
    S: Drop,
    ensures files { OfFiles (S.is_honest store) (S.table store) (id_of root.now)
        (λ kind files. IfOk result (λ editor. (trees : Trees) → HasStored (S.table store) trees
        → IsUnfolded kind files (files_of trees editor))) }
    ensures each { OfFiles (S.is_honest store) (S.table store) (id_of root.now)
        (λ kind files. IfOk result (EachEntryHas (names_only kind (own_folders files)))) }
    ensures as_read { IfOk result (λ editor. (trees : Trees) → IsAsRead trees editor) }
    ensures own { OfFiles (S.is_honest store) (S.table store) (id_of root.now)
        (λ kind files. IfErr result (OwnFault (S.may_fail store))) }
    ensures store { IfOk result (λ editor. editor.store ≡ store) }
    ensures uncounted { IfOk result (λ editor. editor.lookups ≡ 0) }
    // Only the root's tree is opened.
    ensures unopened { S.is_honest store → (trees : Trees) → HasStored (S.table store) trees
        → IfOk result (λ editor. (names : Path)
        → asked_by editor names trees ≡ root_into trees (Some (id_of root.now)) names) }
    ensures refused { IfErr result
        (RootFault (S.is_honest store) (S.may_fail store) (S.table store) (id_of root.now)) }
{
    let mut buffer = Vec::new(alloc);
    let entries = entries_of(alloc, &store, root, &mut buffer)?;
    let tree = TreeRef { entries }.to_owned()?;
    if !tree.is_well_formed() {
        return Err(ReadError::Broken { oid: *root });
    }
    Ok(Editor::new(alloc, &tree, store)?)
}

/// Returns an editor of the root's files, or of none.
pub(crate) fn editor_of<'a, S: FindInto>(
    alloc: Global,
    store: &'a S,
    root: Option<&ObjectId>,
) -> Result<Editor<&'a S>, EditError>
    ensures base { S.is_honest store.now → (kind : Kind) (files : FileMap)
        → IsBase (S.table store.now) kind (root_id root.entry) files
        → IfOk result (EditsFiles (S.table store.now) kind (own_folders files) files) }
    ensures as_read { IfOk result (λ editor. (trees : Trees) → IsAsRead trees editor) }
    ensures store { IfOk result (λ editor. editor.store ≡ store.entry) }
    ensures uncounted { IfOk result (λ editor. editor.lookups ≡ 0) }
    ensures unopened { S.is_honest store.now
        → (trees : Trees) → HasStored (S.table store.now) trees
        → IfOk result (λ editor. (names : Path)
        → asked_by editor names trees ≡ root_into trees (root_id root.entry) names) }
    ensures own { S.is_honest store.now → (kind : Kind) (files : FileMap)
        → IsBase (S.table store.now) kind (root_id root.entry) files
        → IfErr result (OpenFault (S.may_fail store.now)) }
    ensures broken { IfErr result (TellsBroken (S.is_honest store.now) (S.table store.now)) }
    ensures failed { IsErrOf result Failed → S.may_fail store.now }
{
    match root {
        Some(root) => Ok(open_editor(alloc, store, root)?),
        None => {
            let entries = Vec::new(alloc);
            Ok(Editor::new(alloc, &Tree { entries }, store)?)
        }
    }
}
