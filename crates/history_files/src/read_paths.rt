//! Trees on several paths, read and kept: folders on the paths, and what is left of each path below them.

ghost use Rattle.std.specs.Prelude.{IsErrOf, OnOk};
ghost use Rattle.gix_object_lookup.specs.declared.find.Error.TheVariants as looked_up;
ghost use Rattle.history_files.specs.KeptTrees.{AreOf};

use crate::read_trees::ReadTrees;
use gix_hash::ObjectId;
use gix_object_lookup::FindInto;
use gix_object_lookup::find::Error;
use gix_object_tree::TreeRefIter;
use gix_object_tree::tree::EntryRef;
use std::alloc::{AllocError, Global};
use std::collections::BTreeMap;

// A tree, and what is left of some paths below it.
#[derive(Drop)]
struct Waiting<'a> {
    tree: ObjectId,
    rests: Vec<&'a [u8]>,
}

// What is left of some paths below each of the folders that they begin with.
type Rests<'a> = BTreeMap<&'a [u8], Vec<&'a [u8]>>;

/// Reads the trees on some paths below a root, but those that are kept: the root's, and each into
/// which a path leads. What can't be read is left out.
///
/// Returns `Failed` if a lookup failed, and `Memory` if no memory is left.
pub fn read_on_paths<S: FindInto>(
    alloc: Global,
    store: &S,
    read: &mut ReadTrees,
    root: &ObjectId,
    paths: Vec<&[u8]>,
) -> Result<(), Error>
    ensures kept { S.is_honest store.now → AreOf (S.table store.now) read.old
        → OnOk result (AreOf (S.table store.now) read.new) }
    ensures failed { IsErrOf result looked_up.Failed → S.may_fail store.now }
{
    let mut waiting = Vec::new(alloc);
    waiting.push(Waiting {
        tree: *root,
        rests: paths,
    })?;
    'reading: for _ in 0..u64::MAX {
        let Some(next) = waiting.pop() else {
            return Ok(());
        };
        read.read(alloc, store, &next.tree)?;
        follow_paths(alloc, read, &next, &mut waiting)?;
    }
    Ok(())
}

// Adds the folders of a tree on which paths go on, if the tree is kept and can be read.
fn follow_paths<'a>(
    alloc: Global,
    read: &ReadTrees,
    from: &Waiting<'a>,
    waiting: &mut Vec<Waiting<'a>>,
) -> Result<(), AllocError> {
    let mut rests = rests_of(alloc, &from.rests)?;
    let Some(content) = read.content(&from.tree) else {
        return Ok(());
    };
    for entry in TreeRefIter::from_bytes(content, from.tree.kind()) {
        match entry {
            Ok(entry) if !rests.is_empty() => add_waiting(&entry, &mut rests, waiting)?,
            _ => return Ok(()),
        }
    }
    Ok(())
}

// Adds the folder that an entry names, if paths go on there.
fn add_waiting<'a>(
    entry: &EntryRef<'_>,
    rests: &mut Rests<'a>,
    waiting: &mut Vec<Waiting<'a>>,
) -> Result<(), AllocError> {
    if entry.mode.is_tree() {
        if let Some(rests) = rests.remove(entry.filename.as_bytes()) {
            waiting.push(Waiting {
                tree: ObjectId::from(entry.oid),
                rests,
            })?;
        }
    }
    Ok(())
}

fn rests_of<'a>(alloc: Global, paths: &[&'a [u8]]) -> Result<Rests<'a>, AllocError> {
    let mut rests = BTreeMap::new(alloc);
    for path in paths {
        add_rest(alloc, &mut rests, path)?;
    }
    Ok(rests)
}

// Adds what is left of a path after its first name, if anything is.
fn add_rest<'a>(alloc: Global, rests: &mut Rests<'a>, path: &'a [u8]) -> Result<(), AllocError> {
    let Some(at) = path.iter().position(|byte| *byte == b'/') else {
        return Ok(());
    };
    let name = &path[..at];
    let mut there = match rests.remove(name) {
        Some(there) => there,
        None => Vec::new(alloc),
    };
    there.push(&path[at + 1..])?;
    rests.insert(name, there)?;
    Ok(())
}
