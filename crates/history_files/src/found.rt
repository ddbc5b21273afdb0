//! The file or folder at a path, name by name: a tree's entries, the one of a name, and what its mode means.

ghost use Rattle.std.specs.Prelude.{◌≡◌, map, List, IfOk, IfErr, IsErrOf, None, option_map, option_and_then};
ghost use Rattle.gix_hash.specs.Id.{Id, id_of};
ghost use Rattle.gix_object_lines.specs.declared.kind.Kind.TheVariants as objects;
ghost use Rattle.gix_object_tree.specs.Entry.{Item, item_of};
ghost use Rattle.gix_object_tree.specs.Mode.{kind_of};
ghost use Rattle.gix_object_any.specs.Object.{Tree};
ghost use Rattle.gix_object_find.specs.Values.{StandsAs};
ghost use Rattle.gix_object_nodes.specs.Files.{named};
ghost use Rattle.history_model.specs.Objects as model;
ghost use Rattle.history_files.specs.Reading.{entry_of, named_as, named_by, TreeFault, OfFiles, OwnFault, StepsBelow, TellsUnread, unless_memory};
ghost use Rattle.history_files.specs.declared.error.ReadError.TheVariants.{Failed, Broken};
ghost use Rattle.history_files.specs.declared.found.Found.TheVariants.{File, Folder};

use crate::error::ReadError;
use crate::paths::names_of;
use gix_hash::ObjectId;
use gix_object_lines::decode;
use gix_object_lookup::{self as lookup, FindInto};
use gix_object_tree::tree::{EntryKind, EntryMode, EntryRef};
use history_model::FileKind;
use std::alloc::Global;

/// What is at a path.
#[derive(Clone, Copy, PartialEq, Eq)]
pub enum Found {
    /// A file.
    File {
        /// What the file is.
        kind: FileKind,
        /// The id of its bytes.
        id: ObjectId,
    },
    /// A folder: there are files below the path.
    Folder {
        /// The id of its tree.
        id: ObjectId,
    },
}

/// Returns what is at a path of a root's files: a file, a folder, or nothing. The root is the id of
/// a tree.
///
/// Returns `Failed` if a lookup failed, `Broken` if a tree on the path is missing or can't be read,
/// and `Memory` if no memory is left.
pub fn entry_at<S: FindInto>(
    alloc: Global,
    store: &S,
    root: &ObjectId,
    path: &[u8],
) -> Result<Option<Found>, ReadError>
    ensures found { OfFiles (S.is_honest store.now) (S.table store.now) (id_of root.now)
        (λ kind files. IfOk result (λ found.
        option_map entry_of found ≡ model.entry_at kind files path.now)) }
    ensures refused { OfFiles (S.is_honest store.now) (S.table store.now) (id_of root.now)
        (λ kind files. IfErr result (OwnFault (S.may_fail store.now))) }
    ensures broken { IfErr result (TellsUnread (S.is_honest store.now) (S.table store.now)) }
    ensures failed { IsErrOf result Failed → S.may_fail store.now }
{
    let names = names_of(alloc, path)?;
    let mut found = Found::Folder { id: *root };
    for name in names.as_slice() {
        match below(alloc, store, found, name)? {
            Some(next) => found = next,
            None => return Ok(None),
        }
    }
    Ok(Some(found))
}

// Returns what has this name in what was found: nothing, if that is a file.
fn below<S: FindInto>(
    alloc: Global,
    store: &S,
    found: Found,
    name: &[u8],
) -> Result<Option<Found>, ReadError>
    ensures found { S.is_honest store.now → IfOk result (λ next.
        StepsBelow (S.table store.now) found name.now next) }
    ensures refused { IfErr result (λ error. (tree : ObjectId) × (found ≡ Folder tree)
        × TreeFault (S.is_honest store.now) (S.may_fail store.now) (S.table store.now)
        (id_of tree) error) }
{
    match found {
        Found::File { .. } => Ok(None),
        Found::Folder { id } => named_in(alloc, store, &id, name),
    }
}

// Returns what has this name in the tree of this id.
fn named_in<S: FindInto>(
    alloc: Global,
    store: &S,
    tree: &ObjectId,
    name: &[u8],
) -> Result<Option<Found>, ReadError>
    ensures found { S.is_honest store.now → IfOk result (λ found. (items : List Item)
        → StandsAs (S.table store.now) (id_of tree.now) objects.Tree (Tree items)
        → option_map entry_of found ≡ option_and_then named_by (named name.now items)) }
    ensures refused { IfErr result
        (TreeFault (S.is_honest store.now) (S.may_fail store.now) (S.table store.now)
        (id_of tree.now)) }
{
    let mut buffer = Vec::new(alloc);
    let entries = entries_of(alloc, store, tree, &mut buffer)?;
    Ok(named_among(entries.as_slice(), name))
}

// Returns the entries of the tree of this id, whose content is put into the buffer.
pub(crate) fn entries_of<'a, S: FindInto>(
    alloc: Global,
    store: &S,
    tree: &ObjectId,
    buffer: &'a mut Vec<u8>,
) -> Result<Vec<EntryRef<'a>>, ReadError>
    ensures read { S.is_honest store.now → IfOk result (λ entries.
        StandsAs (S.table store.now) (id_of tree.now) objects.Tree
        (Tree (map item_of entries.items))) }
    ensures refused { IfErr result
        (TreeFault (S.is_honest store.now) (S.may_fail store.now) (S.table store.now)
        (id_of tree.now)) }
{
    let content = lookup::entries_of(store, tree.as_oid(), buffer)?;
    match content.entries(alloc) {
        Ok(entries) => Ok(entries),
        Err(error) => Err(decode_error(error, *tree)),
    }
}

// Returns why a tree's content isn't read.
fn decode_error(error: decode::Error, oid: ObjectId) -> ReadError
    ensures { result ≡ unless_memory error (Broken oid) }
{
    match error {
        decode::Error::Memory => ReadError::Memory,
        _ => ReadError::Broken { oid },
    }
}

// Returns what the first entry of this name names.
fn named_among(entries: &[EntryRef<'_>], name: &[u8]) -> Option<Found>
    ensures { option_map entry_of result
        ≡ option_and_then named_by (named name.now (map item_of entries.now)) }
{
    for entry in entries {
        if name == entry.filename.as_bytes() {
            return found_by(entry);
        }
    }
    None
}

// Returns what an entry names; a submodule is neither a file nor a folder.
fn found_by(entry: &EntryRef<'_>) -> Option<Found>
    ensures { option_map entry_of result ≡ named_by (item_of entry.now) }
{
    found_of(entry.mode, ObjectId::from(entry.oid))
}

/// Returns what an entry of this mode names.
pub(crate) fn found_of(mode: EntryMode, id: ObjectId) -> Option<Found>
    ensures { option_map entry_of result ≡ named_as (kind_of mode.value) (id_of id) }
{
    match mode.kind() {
        EntryKind::Tree => Some(Found::Folder { id }),
        EntryKind::Blob => Some(file(FileKind::File, id)),
        EntryKind::BlobExecutable => Some(file(FileKind::Exec, id)),
        EntryKind::Link => Some(file(FileKind::Link, id)),
        EntryKind::Commit => None,
    }
}

fn file(kind: FileKind, id: ObjectId) -> Found
    ensures { result ≡ File kind id }
{
    Found::File { kind, id }
}
