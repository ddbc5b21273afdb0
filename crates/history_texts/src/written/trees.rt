//! Trees in written form: order, modes and ids of entries, and the objects that they name.
ghost use Rattle.std.specs.Prelude.{◌≡◌, ◌↔◌, IfOk, IsTrue, List, MatchOption, map};
ghost use Rattle.std.specs.List.{All};
ghost use Rattle.gix_object_tree.specs.Entry.{item_of};
ghost use Rattle.gix_object_tree.specs.ModeText.{mode_of};
ghost use Rattle.history_texts.specs.Written.{AreWritten, IsWrittenEntry, IsWrittenMode, NamesByTree, Naming, named_by_item, naming_of};

use crate::written::Named;
use gix_hash::{Kind, ObjectId};
use gix_object_lines::decode::Error;
use gix_object_lines::{Kind as ObjectKind, WriteTo};
use gix_object_tree::TreeRef;
use gix_object_tree::tree::{EntryMode, EntryRef};
use std::alloc::{AllocError, Global};

/// Returns the objects that a tree's content names; `None` if it isn't in written form.
pub(crate) fn named_by_tree(
    alloc: Global,
    digests: Kind,
    content: &[u8],
) -> Result<Option<Vec<Named>>, AllocError>
    ensures { IfOk result (λ found. MatchOption found
        ((named : List Naming) → NamesByTree digests content.now named → ⊥)
        (λ named. NamesByTree digests content.now (map naming_of named.items))) }
{
    match TreeRef::from_bytes(alloc, content, digests) {
        Ok(tree) => named_by_entries(alloc, digests, content, &tree),
        Err(fault) => match fault {
            Error::Memory => Err(AllocError),
            _ => Ok(None),
        },
    }
}

// Returns the objects that the entries of a content name; `None` if it isn't in written form.
fn named_by_entries(
    alloc: Global,
    digests: Kind,
    content: &[u8],
    tree: &TreeRef<'_>,
) -> Result<Option<Vec<Named>>, AllocError>
    ensures { IfOk result (λ found. MatchOption found
        (¬ AreWritten digests content.now (map item_of tree.now.entries.items))
        (λ named. AreWritten digests content.now (map item_of tree.now.entries.items)
        × (map naming_of named.items
        ≡ map named_by_item (map item_of tree.now.entries.items)))) }
{
    if is_written_tree(alloc, digests, content, tree)? {
        Ok(Some(names_of(alloc, tree.entries.as_slice())?))
    } else {
        Ok(None)
    }
}

/// Returns whether these entries of a content are those of a tree in written form: in Git's order,
/// each name once, with the modes of files, programs, links and folders that aren't empty, in the
/// digits that Git writes.
pub fn is_written_tree(
    alloc: Global,
    digests: Kind,
    content: &[u8],
    tree: &TreeRef<'_>,
) -> Result<bool, AllocError>
    ensures { IfOk result (λ is. IsTrue is
        ↔ AreWritten digests content.now (map item_of tree.now.entries.items)) }
{
    if !tree.is_well_formed() || !are_entries_written(digests, tree.entries.as_slice()) {
        return Ok(false);
    }
    let mut text = Vec::with_capacity(alloc, content.len())?;
    // Names without a zero byte can be written, so only memory can be missing.
    tree.write_to(&mut text).map_err(|_| AllocError)?;
    Ok(text.as_slice() == content)
}

fn are_entries_written(digests: Kind, entries: &[EntryRef<'_>]) -> bool
    ensures { IsTrue result ↔ All (IsWrittenEntry digests) (map item_of entries.now) }
{
    for entry in entries {
        if !is_entry_written(digests, *entry) {
            return false;
        }
    }
    true
}

fn is_entry_written(digests: Kind, entry: EntryRef<'_>) -> bool
    ensures { IsTrue result ↔ IsWrittenEntry digests (item_of entry.entry) }
{
    is_mode_written(entry.mode) && !entry.oid.eq_oid(ObjectId::empty_tree(digests).as_oid())
}

fn is_mode_written(mode: EntryMode) -> bool
    ensures { IsTrue result ↔ IsWrittenMode (mode_of mode) }
{
    let mut backing = [0; 6];
    mode.as_bytes(&mut backing) == mode.kind().as_octal_str() && !mode.is_commit()
}

fn names_of(alloc: Global, entries: &[EntryRef<'_>]) -> Result<Vec<Named>, AllocError>
    ensures { IfOk result (λ named. map naming_of named.items
        ≡ map named_by_item (map item_of entries.now)) }
{
    let mut names = Vec::with_capacity(alloc, entries.len())?;
    for entry in entries {
        names.push(named_by_entry(*entry))?;
    }
    Ok(names)
}

fn named_by_entry(entry: EntryRef<'_>) -> Named
    ensures { naming_of result ≡ named_by_item (item_of entry.entry) }
{
    let kind = if entry.mode.is_tree() {
        ObjectKind::Tree
    } else {
        ObjectKind::Blob
    };
    Named {
        id: ObjectId::from(entry.oid),
        kind,
    }
}
