//! Trees into which edits lead, read ahead and kept: the edits are tried on an editor over kept trees.

ghost use Rattle.std.specs.Prelude.{◌≡◌, IfOk, IsErrOf, OnOk};
ghost use Rattle.gix_object_lookup.specs.declared.find.Error.TheVariants as looked_up;
ghost use Rattle.history_files.specs.KeptTrees.{AreOf};

use crate::editing::are_paths;
use crate::edits::{Edit, EditError, make_edit};
use crate::error::ReadError;
use crate::opening::open_editor;
use crate::read_trees::ReadTrees;
use gix_hash::ObjectId;
use gix_object_editor::tree::editor::Editor;
use gix_object_lookup::FindInto;
use gix_object_lookup::find::Error;
use gix_object_tree::Tree;
use std::alloc::Global;
use std::mem;

/// Reads the trees that `edit_files` looks up for the same root and edits, but those that are kept.
/// The edits are tried in memory: a tree is read when the first of them leads into it, and none is
/// for those after an edit that is refused. What can't be read is left out.
///
/// Returns `Failed` if a lookup failed, and `Memory` if no memory is left.
pub fn read_for_edits<S: FindInto>(
    alloc: Global,
    store: &S,
    read: &mut ReadTrees,
    root: Option<&ObjectId>,
    edits: &[Edit<'_>],
) -> Result<(), Error>
    ensures kept { S.is_honest store.now → AreOf (S.table store.now) read.old
        → OnOk result (AreOf (S.table store.now) read.new) }
    ensures failed { IsErrOf result looked_up.Failed → S.may_fail store.now }
{
    if !are_paths(edits) {
        return Ok(());
    }
    read_root(alloc, store, read, root)?;
    let kept = mem::replace(read, ReadTrees::new(alloc));
    *read = with_looked_up(alloc, store, kept, root, edits)?;
    Ok(())
}

// Reads the root's tree, unless it is kept.
fn read_root<S: FindInto>(
    alloc: Global,
    store: &S,
    read: &mut ReadTrees,
    root: Option<&ObjectId>,
) -> Result<(), Error>
    ensures kept { S.is_honest store.now → AreOf (S.table store.now) read.old
        → OnOk result (AreOf (S.table store.now) read.new) }
    ensures failed { IsErrOf result looked_up.Failed → S.may_fail store.now }
{
    match root {
        Some(root) => read.read(alloc, store, root),
        None => Ok(()),
    }
}

// Returns the trees that are kept, and with them those that the edits look up below the root.
fn with_looked_up<S: FindInto>(
    alloc: Global,
    store: &S,
    read: ReadTrees,
    root: Option<&ObjectId>,
    edits: &[Edit<'_>],
) -> Result<ReadTrees, Error>
    ensures kept { S.is_honest store.now → AreOf (S.table store.now) read
        → IfOk result (AreOf (S.table store.now)) }
    ensures failed { IsErrOf result looked_up.Failed → S.may_fail store.now }
{
    let mut editor = match editor_over(alloc, read, root) {
        Ok(editor) => editor,
        Err(ReadError::Memory) => return Err(Error::Memory),
        Err(_) => return Ok(ReadTrees::new(alloc)),
    };
    try_edits(alloc, store, &mut editor, edits)?;
    Ok(mem::replace(editor.store_mut(), ReadTrees::new(alloc)))
}

// Returns an editor of a root's files over the trees that are kept.
fn editor_over(
    alloc: Global,
    read: ReadTrees,
    root: Option<&ObjectId>,
) -> Result<Editor<ReadTrees>, ReadError>
    ensures { IfOk result (λ editor. editor.store ≡ read) }
{
    match root {
        Some(root) => open_editor(alloc, read, root),
        None => {
            let entries = Vec::new(alloc);
            Ok(Editor::new(alloc, &Tree { entries }, read)?)
        }
    }
}

// Makes the edits in order up to one that is refused, and reads the trees into which they lead.
fn try_edits<S: FindInto>(
    alloc: Global,
    store: &S,
    editor: &mut Editor<ReadTrees>,
    edits: &[Edit<'_>],
) -> Result<(), Error>
    ensures kept { S.is_honest store.now → AreOf (S.table store.now) editor.old.store
        → OnOk result (AreOf (S.table store.now) editor.new.store) }
    ensures failed { IsErrOf result looked_up.Failed → S.may_fail store.now }
{
    for edit in edits {
        if !try_edit(alloc, store, editor, edit)? {
            return Ok(());
        }
    }
    Ok(())
}

// Makes an edit, once the trees into which it leads are read, and returns whether it is made.
fn try_edit<S: FindInto>(
    alloc: Global,
    store: &S,
    editor: &mut Editor<ReadTrees>,
    edit: &Edit<'_>,
) -> Result<bool, Error>
    ensures kept { S.is_honest store.now → AreOf (S.table store.now) editor.old.store
        → OnOk result (AreOf (S.table store.now) editor.new.store) }
    ensures failed { IsErrOf result looked_up.Failed → S.may_fail store.now }
{
    'reading: for _ in 0..u64::MAX {
        let missing = match make_edit(alloc, editor, edit) {
            Ok(()) => return Ok(true),
            Err(EditError::Broken { oid }) => oid,
            Err(EditError::Memory) => return Err(Error::Memory),
            Err(_) => return Ok(false),
        };
        if !read_new(alloc, store, editor.store_mut(), &missing)? {
            return Ok(false);
        }
    }
    Ok(false)
}

// Reads the tree of this id, unless it is kept, and returns whether it is kept only now.
fn read_new<S: FindInto>(
    alloc: Global,
    store: &S,
    read: &mut ReadTrees,
    id: &ObjectId,
) -> Result<bool, Error>
    ensures kept { S.is_honest store.now → AreOf (S.table store.now) read.old
        → OnOk result (AreOf (S.table store.now) read.new) }
    ensures failed { IsErrOf result looked_up.Failed → S.may_fail store.now }
{
    if read.content(id).is_some() {
        return Ok(false);
    }
    read.read(alloc, store, id)?;
    Ok(read.content(id).is_some())
}
