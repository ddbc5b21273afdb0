//! Entries by their paths.

ghost use Rattle.std.specs.Prelude.{◌≡◌, ◌↔◌, IsTrue, Some, map, IfOk, IfErr, option_map};
ghost use Rattle.gix_object_tree.specs.Entry.{item_of, own_item};
ghost use Rattle.gix_object_tree.specs.Reading.{Place, place_of};
ghost use Rattle.gix_object_lookup.specs.Path.{FindsFirst, IsUnspelled, NameFault, IsBelow, Follows, LooksUp, BelowFault, FollowFault, PathFault, names_in};
ghost use Rattle.gix_object_lookup.specs.declared.lookup.Error.TheVariants as fault;

use crate::find::existing_iter;
use crate::{FindInto, entries_of};
use gix_object_lines::decode;
use gix_object_tree::TreeRefIter;
use gix_object_tree::tree::{Entry, EntryRef};
use std::alloc::{AllocError, Global};

/// Why an entry can't be looked up.
#[derive(Debug, Clone, Copy, PartialEq, Eq, thiserror::Error)]
pub enum Error {
    /// A tree on the path isn't given.
    #[error(transparent)]
    Find(existing_iter::Error),
    /// An entry of a tree on the path can't be read.
    #[error("a tree on the path can't be read")]
    Decode(decode::Error),
    /// No memory is left.
    #[error("out of memory")]
    Memory,
}

impl From<existing_iter::Error> for Error {
    ghost from_gives = { λ error given. given ≡ fault.Find error };

    fn from(error: existing_iter::Error) -> Error {
        Error::Find(error)
    }
}

impl From<decode::Error> for Error {
    ghost from_gives = { λ error given. given ≡ fault.Decode error };

    fn from(error: decode::Error) -> Error {
        Error::Decode(error)
    }
}

impl From<AllocError> for Error {
    ghost from_gives = { λ _ given. given ≡ fault.Memory };

    fn from(_: AllocError) -> Error {
        Error::Memory
    }
}

/// Entries of a tree, and of the trees of a store below it, by their paths.
pub trait TreeRefIterExt {
    /// The entries to come.
    ghost place: { Self → Place };

    /// The entry of this path, whose names lead from this tree down through the trees of the store;
    /// `None` if a name is missing or leads to no tree, and for the path without names. Of entries
    /// of one name the first counts, and a tree is read no further than that. The buffer then holds
    /// the content of the last tree that was looked up.
    ///
    /// Returns `Find` if a tree to which the names lead isn't found, `Decode` if in one of them an
    /// entry before that of the next name can't be read, and `Memory` if no memory is left.
    fn lookup_entry<T: FindInto>(
        &self,
        alloc: Global,
        objects: &T,
        buffer: &mut Vec<u8>,
        path: &[&[u8]],
    ) -> Result<Option<Entry>, Error>
        ensures found { IfOk result (λ found. LooksUp (T.is_honest objects.now)
            (T.table objects.now) (place self.now) (map (λ name. name.now) path.now)
            (option_map own_item found)) }
        ensures refused { IfErr result (PathFault (T.is_honest objects.now)
            (T.may_fail objects.now) (T.table objects.now) (place self.now)
            (map (λ name. name.now) path.now)) };

    /// The entry of this path in one text, whose names are separated by slashes, as `lookup_entry`
    /// returns it. Empty names, as before a slash that begins the path or after one that ends it,
    /// are skipped. The errors are those of `lookup_entry`.
    fn lookup_entry_by_path<T: FindInto>(
        &self,
        alloc: Global,
        objects: &T,
        buffer: &mut Vec<u8>,
        path: &[u8],
    ) -> Result<Option<Entry>, Error>
        ensures found { IfOk result (λ found. LooksUp (T.is_honest objects.now)
            (T.table objects.now) (place self.now) (names_in path.now)
            (option_map own_item found)) }
        ensures refused { IfErr result (PathFault (T.is_honest objects.now)
            (T.may_fail objects.now) (T.table objects.now) (place self.now)
            (names_in path.now)) };
}

impl<'a> TreeRefIterExt for TreeRefIter<'a> {
    ghost place = { place_of };

    fn lookup_entry<T: FindInto>(
        &self,
        alloc: Global,
        objects: &T,
        buffer: &mut Vec<u8>,
        path: &[&[u8]],
    ) -> Result<Option<Entry>, Error> {
        let Some((name, rest)) = path.split_first() else {
            return Ok(None);
        };
        match own_named(*self, name, alloc)? {
            Some(entry) => follow(entry, objects, rest, buffer, alloc),
            None => Ok(None),
        }
    }

    fn lookup_entry_by_path<T: FindInto>(
        &self,
        alloc: Global,
        objects: &T,
        buffer: &mut Vec<u8>,
        path: &[u8],
    ) -> Result<Option<Entry>, Error> {
        let names = names_of(path, alloc)?;
        self.lookup_entry(alloc, objects, buffer, names.as_slice())
    }
}

// The names between slashes that aren't empty.
fn names_of(path: &[u8], alloc: Global) -> Result<Vec<&[u8]>, AllocError>
    ensures { IfOk result (λ names. map (λ name. name.now) names.items ≡ names_in path.now) }
{
    path.split(|byte| *byte == b'/')
        .filter(|name| !name.is_empty())
        .collect(alloc)
}

// From an entry on by the names of the path.
fn follow<T: FindInto>(
    entry: Entry,
    objects: &T,
    path: &[&[u8]],
    buffer: &mut Vec<u8>,
    alloc: Global,
) -> Result<Option<Entry>, Error>
    ensures found { IfOk result (λ found. Follows (T.is_honest objects.now) (T.table objects.now)
        (Some (own_item entry)) (map (λ name. name.now) path.now) (option_map own_item found)) }
    ensures refused { IfErr result (FollowFault (T.is_honest objects.now) (T.may_fail objects.now)
        (T.table objects.now) (own_item entry) (map (λ name. name.now) path.now)) }
{
    let mut entry = entry;
    for name in path {
        match below(&entry, objects, name, buffer, alloc)? {
            Some(next) => entry = next,
            None => return Ok(None),
        }
    }
    Ok(Some(entry))
}

// The entry of the name in the tree that an entry names.
fn below<T: FindInto>(
    entry: &Entry,
    objects: &T,
    name: &[u8],
    buffer: &mut Vec<u8>,
    alloc: Global,
) -> Result<Option<Entry>, Error>
    ensures found { IfOk result (λ found. IsBelow (T.is_honest objects.now) (T.table objects.now)
        (own_item entry.now) name.now (option_map own_item found)) }
    ensures refused { IfErr result (BelowFault (T.is_honest objects.now) (T.may_fail objects.now)
        (T.table objects.now) (own_item entry.now) name.now) }
{
    if !entry.mode.is_tree() {
        return Ok(None);
    }
    let tree = entries_of(objects, entry.oid.as_oid(), buffer)?;
    own_named(tree, name, alloc)
}

// A copy of the first entry of the name.
fn own_named(tree: TreeRefIter<'_>, name: &[u8], alloc: Global) -> Result<Option<Entry>, Error>
    ensures found { IfOk result (λ found. FindsFirst (place_of tree.entry) name.now
        (option_map own_item found)) }
    ensures refused { IfErr result (NameFault (place_of tree.entry) name.now) }
{
    match named(tree, name)? {
        Some(entry) => Ok(Some(entry.to_owned(alloc)?)),
        None => Ok(None),
    }
}

// The first entry of the name.
fn named<'a>(tree: TreeRefIter<'a>, name: &[u8]) -> Result<Option<EntryRef<'a>>, decode::Error>
    ensures found { IfOk result (λ found. FindsFirst (place_of tree.entry) name.now
        (option_map item_of found)) }
    ensures refused { IfErr result (IsUnspelled (place_of tree.entry) name.now) }
{
    let mut tree = tree;
    'entries: while let Some(entry) = tree.next() {
        let entry = entry?;
        if has_name(entry, name) {
            return Ok(Some(entry));
        }
    }
    Ok(None)
}

fn has_name(entry: EntryRef<'_>, name: &[u8]) -> bool
    ensures { IsTrue result ↔ ((item_of entry.entry).name ≡ name.now) }
{
    entry.filename.as_bytes() == name
}
