//! All trees below a root read, each distinct one once, and all files made of them (`files_by_trees`).

ghost use Rattle.std.specs.Prelude.{◌≡◌, map, IfOk, IfErr, IsErrOf, OnOk};
ghost use Rattle.std.specs.FinMap.{entries};
ghost use Rattle.gix_hash.specs.Id.{id_of};
ghost use Rattle.gix_object_lookup.specs.declared.find.Error.TheVariants as looked_up;
ghost use Rattle.history_model.specs.Answers.{file_line};
ghost use Rattle.history_files.specs.KeptTrees.{AreOf};
ghost use Rattle.history_files.specs.Reading.{OfFiles, OwnFault, line_of};
ghost use Rattle.history_files.specs.declared.error.ReadError.TheVariants.{Failed};

use crate::error::ReadError;
use crate::listing::{File, files};
use crate::read_trees::{ReadTrees, TreeStore};
use gix_hash::ObjectId;
use gix_object_lines::decode;
use gix_object_lookup::FindInto;
use gix_object_lookup::find::Error;
use gix_object_tree::TreeRefIter;
use std::alloc::{AllocError, Global};
use std::collections::BTreeSet;

/// Like [`files`], errors included, but looks each distinct tree up once, however often it occurs:
/// all of them are kept in memory meanwhile.
pub fn files_by_trees<S: FindInto>(
    alloc: Global,
    store: &S,
    root: &ObjectId,
) -> Result<Vec<File>, ReadError>
    ensures files { OfFiles (S.is_honest store.now) (S.table store.now) (id_of root.now)
        (λ kind files. IfOk result (λ found.
        map line_of found.items ≡ map (file_line kind) (entries files))) }
    ensures refused { OfFiles (S.is_honest store.now) (S.table store.now) (id_of root.now)
        (λ kind files. IfErr result (OwnFault (S.may_fail store.now))) }
    ensures failed { IsErrOf result Failed → S.may_fail store.now }
{
    let mut read = ReadTrees::new(alloc);
    read_below(alloc, store, &mut read, *root)?;
    files(alloc, &TreeStore { store, read: &read }, root)
}

/// Reads a root's tree and all trees below it, but those that are kept. What can't be read is left
/// out.
///
/// Returns `Failed` if a lookup failed, and `Memory` if no memory is left.
pub fn read_below<S: FindInto>(
    alloc: Global,
    store: &S,
    read: &mut ReadTrees,
    root: ObjectId,
) -> Result<(), Error>
    ensures kept { S.is_honest store.now → AreOf (S.table store.now) read.old
        → OnOk result (AreOf (S.table store.now) read.new) }
    ensures failed { IsErrOf result looked_up.Failed → S.may_fail store.now }
{
    let mut seen = BTreeSet::new(alloc);
    let mut waiting = Vec::new(alloc);
    waiting.push(root)?;
    'reading: for _ in 0..u64::MAX {
        let Some(id) = waiting.pop() else {
            return Ok(());
        };
        if seen.insert(id)? {
            read.read(alloc, store, &id)?;
            add_folders(alloc, &mut waiting, id, read)?;
        }
    }
    Ok(())
}

// Adds the folders that a kept tree's content names, if it can be read.
fn add_folders(
    alloc: Global,
    waiting: &mut Vec<ObjectId>,
    id: ObjectId,
    read: &ReadTrees,
) -> Result<(), AllocError> {
    let Some(content) = read.content(&id) else {
        return Ok(());
    };
    match TreeRefIter::from_bytes(content, id.kind()).entries(alloc) {
        Ok(entries) => {
            for entry in &entries {
                if entry.mode.is_tree() {
                    waiting.push(ObjectId::from(entry.oid))?;
                }
            }
            Ok(())
        }
        Err(decode::Error::Memory) => Err(AllocError),
        Err(_) => Ok(()),
    }
}
