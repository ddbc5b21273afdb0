//! The file or folder at each of several paths, from the entries that one walk finds.

ghost use Rattle.std.specs.Prelude.{◌≡◌, map, IfOk, IfErr, IsErrOf, option_map};
ghost use Rattle.gix_hash.specs.Id.{id_of};
ghost use Rattle.gix_traverse_tree.specs.AtPaths.{AsksFor};
ghost use Rattle.history_model.specs.FileMap.{components};
ghost use Rattle.history_model.specs.Objects as model;
ghost use Rattle.history_files.specs.Reading.{entry_of, told_entry, OfFiles, OwnFault, StopsAtPaths};
ghost use Rattle.history_files.specs.declared.error.ReadError.TheVariants.{Failed};

use crate::error::ReadError;
use crate::found::{Found, found_of};
use crate::listing::read_error;
use gix_hash::ObjectId;
use gix_object_lookup::FindInto;
use gix_object_tree::tree::EntryMode;
use gix_traverse_tree::EntriesState;
use std::alloc::{AllocError, Global};

/// Returns what is at each of some paths of a root's files, in order: a file, a folder, or nothing.
/// The root is the id of a tree. Each tree on the paths is looked up once; the state counts them.
///
/// Returns `Failed` if a lookup failed; `Broken` with the id of a tree on the paths if it is
/// missing, or with the root's if one can't be read; and `Memory` if no memory is left.
pub fn entries_at<S: FindInto>(
    alloc: Global,
    store: &S,
    root: &ObjectId,
    paths: &[&[u8]],
    state: &mut EntriesState,
) -> Result<Vec<Option<Found>>, ReadError>
    ensures found { OfFiles (S.is_honest store.now) (S.table store.now) (id_of root.now)
        (λ kind files. IfOk result (λ found. map (option_map entry_of) found.items
        ≡ map (λ path. model.entry_at kind files path.now) paths.now)) }
    ensures refused { OfFiles (S.is_honest store.now) (S.table store.now) (id_of root.now)
        (λ kind files. IfErr result (OwnFault (S.may_fail store.now))) }
    ensures stopped { IfErr result
        (StopsAtPaths (S.is_honest store.now) (S.may_fail store.now) (S.table store.now) root.now
        (map (λ path. components path.now) paths.now)) }
    ensures failed { IsErrOf result Failed → S.may_fail store.now }
    ensures asked { AsksFor (S.is_honest store.now) (S.table store.now) (id_of root.now)
        (map (λ path. components path.now) paths.now) state.new.asked }
{
    match gix_traverse_tree::entries_at(*root, paths, store, state) {
        Ok(entries) => Ok(found_among(alloc, entries.as_slice())?),
        Err(error) => Err(read_error(error, *root)),
    }
}

// Returns what the entries name.
fn found_among(
    alloc: Global,
    entries: &[Option<(EntryMode, ObjectId)>],
) -> Result<Vec<Option<Found>>, AllocError>
    ensures { IfOk result (λ found. map (option_map entry_of) found.items
        ≡ map told_entry entries.now) }
{
    let mut found = Vec::new(alloc);
    for entry in entries {
        found.push(found_by_answer(entry))?;
    }
    Ok(found)
}

// Returns what an entry names, if there is one.
fn found_by_answer(entry: &Option<(EntryMode, ObjectId)>) -> Option<Found>
    ensures { option_map entry_of result ≡ told_entry entry.now }
{
    match entry {
        Some((mode, id)) => found_of(*mode, *id),
        None => None,
    }
}
