//! What trees have under the names of some paths (`NamedTrees`): each tree is read once.

ghost use Rattle.std.specs.Prelude.{◌≡◌, Contains, IfErr, IfOk, IsErrOf, List, OnOk, Option, bytes_eq, map, option_map};
ghost use Rattle.std.specs.Borrow.{Bor};
ghost use Rattle.gix_hash.specs.Id.{Id, id_of};
ghost use Rattle.gix_object_lookup.specs.Table.{Table};
ghost use Rattle.history_model.specs.Bytes.{Bytes};
ghost use Rattle.history_model.specs.Objects.{entry_at};
ghost use Rattle.history_files.specs.NamedTrees.{AreAnswers, AreAt, AreNamed, CanFollow, CanFollowEach, HasNamed, IsNext, OfRoot, TellsNames, at_name, found_or_none, or_found, texts};
ghost use Rattle.history_files.specs.Reading.{OfFiles, OwnFault, entry_of};
ghost use Rattle.history_files.specs.declared.error.ReadError.TheVariants.{Failed};
ghost use Rattle.history_files.specs.declared.found.Found.TheVariants.{Folder};

use crate::error::ReadError;
use crate::found::Found;
use crate::found_each::entries_at;
use crate::paths::names_of;
use gix_hash::ObjectId;
use gix_object_lookup::FindInto;
use gix_traverse_tree::EntriesState;
use std::alloc::{AllocError, Global};
use std::collections::BTreeMap;

// What a tree has under some names: nothing under those that are left out.
type Named<'a> = BTreeMap<&'a [u8], Found>;

// Names, and what each tree that was read has under them.
#[derive(Drop)]
struct Answers<'a> {
    names: Vec<&'a [u8]>,
    named: BTreeMap<ObjectId, Named<'a>>,
    state: EntriesState,
}

/// Some paths, and what each tree that was read has under their names.
#[derive(Drop)]
pub struct NamedTrees<'a> {
    paths: Vec<Vec<&'a [u8]>>,
    answers: Answers<'a>,
}

impl<'a> NamedTrees<'a> {
    /// Returns these paths, and no tree.
    pub fn new(alloc: Global, paths: &[&'a [u8]]) -> Result<NamedTrees<'a>, AllocError>
        ensures { (table : Table) → IfOk result (AreNamed table paths.now) }
    {
        let mut split = Vec::new(alloc);
        let mut names = Vec::new(alloc);
        for path in paths {
            let parts = names_of(alloc, path)?;
            names.extend_from_slice(parts.as_slice())?;
            split.push(parts)?;
        }
        Ok(NamedTrees {
            paths: split,
            answers: Answers {
                names,
                named: BTreeMap::new(alloc),
                state: EntriesState::new(alloc),
            },
        })
    }
}

/// Returns what is at each of the paths of a root's files, in order: a file, a folder, or nothing.
/// The root is the id of a tree. Each tree on the paths is looked up only if it wasn't before, here
/// or below another root.
///
/// Returns `Failed` if a lookup failed; `Broken` with the id of a tree on the paths if it is
/// missing or can't be read; and `Memory` if no memory is left.
pub fn entries_at_once<S: FindInto>(
    alloc: Global,
    store: &S,
    root: &ObjectId,
    trees: &mut NamedTrees<'_>,
) -> Result<Vec<Option<Found>>, ReadError>
    ensures found { (paths : List (Bor Bytes)) → AreNamed (S.table store.now) paths trees.old
        → OfFiles (S.is_honest store.now) (S.table store.now) (id_of root.now) (λ kind files.
        IfOk result (λ found. map (option_map entry_of) found.items
        ≡ map (λ path. entry_at kind files path.now) paths)) }
    ensures refused { (paths : List (Bor Bytes)) → AreNamed (S.table store.now) paths trees.old
        → OfFiles (S.is_honest store.now) (S.table store.now) (id_of root.now) (λ kind files.
        IfErr result (OwnFault (S.may_fail store.now))) }
    ensures failed { IsErrOf result Failed → S.may_fail store.now }
    ensures kept { S.is_honest store.now → (paths : List (Bor Bytes))
        → AreNamed (S.table store.now) paths trees.old
        → OnOk result (AreNamed (S.table store.now) paths trees.new) }
{
    trees
        .answers
        .follow_each(alloc, store, root, trees.paths.as_slice())
}

impl<'a> Answers<'a> {
    // Returns what is at each of some paths of a root's files, by their names.
    fn follow_each<S: FindInto>(
        &mut self,
        alloc: Global,
        store: &S,
        root: &ObjectId,
        paths: &[Vec<&[u8]>],
    ) -> Result<Vec<Option<Found>>, ReadError>
        ensures found { (given : List (Bor Bytes))
            → CanFollowEach (S.table store.now) given paths.now self.old
            → OfFiles (S.is_honest store.now) (S.table store.now) (id_of root.now) (λ kind files.
            IfOk result (λ found. map (option_map entry_of) found.items
            ≡ map (λ path. entry_at kind files path.now) given)) }
        ensures refused { (given : List (Bor Bytes))
            → CanFollowEach (S.table store.now) given paths.now self.old
            → OfFiles (S.is_honest store.now) (S.table store.now) (id_of root.now) (λ kind files.
            IfErr result (OwnFault (S.may_fail store.now))) }
        ensures failed { IsErrOf result Failed → S.may_fail store.now }
        ensures kept { S.is_honest store.now → AreAnswers (S.table store.now) self.old
            → OnOk result (AreAnswers (S.table store.now) self.new) }
        ensures names { self.new.names.items ≡ self.old.names.items }
    {
        let mut found = Vec::new(alloc);
        for path in paths {
            let there = self.follow(alloc, store, root, path.as_slice())?;
            found.push(there)?;
        }
        Ok(found)
    }

    // Returns what is at a path of a root's files, by its names.
    fn follow<S: FindInto>(
        &mut self,
        alloc: Global,
        store: &S,
        root: &ObjectId,
        path: &[&[u8]],
    ) -> Result<Option<Found>, ReadError>
        ensures found { (text : Bytes) → CanFollow (S.table store.now) self.old path.now text
            → OfFiles (S.is_honest store.now) (S.table store.now) (id_of root.now) (λ kind files.
            IfOk result (λ found. option_map entry_of found ≡ entry_at kind files text)) }
        ensures refused { (text : Bytes) → CanFollow (S.table store.now) self.old path.now text
            → OfFiles (S.is_honest store.now) (S.table store.now) (id_of root.now) (λ kind files.
            IfErr result (OwnFault (S.may_fail store.now))) }
        ensures failed { IsErrOf result Failed → S.may_fail store.now }
        ensures kept { S.is_honest store.now → AreAnswers (S.table store.now) self.old
            → OnOk result (AreAnswers (S.table store.now) self.new) }
        ensures names { self.new.names.items ≡ self.old.names.items }
    {
        let mut found = Found::Folder { id: *root };
        for name in path {
            match self.below(alloc, store, found, name)? {
                Some(next) => found = next,
                None => return Ok(None),
            }
        }
        Ok(Some(found))
    }

    // Returns what has this name in what was found: nothing, if that is a file.
    fn below<S: FindInto>(
        &mut self,
        alloc: Global,
        store: &S,
        found: Found,
        name: &[u8],
    ) -> Result<Option<Found>, ReadError>
        ensures found { S.is_honest store.now → AreAnswers (S.table store.now) self.old
            → Contains (texts self.old.names.items) name.now
            → IfOk result (λ next. IsNext (S.table store.now) found name.now next) }
        ensures refused { IfErr result (λ error. (tree : ObjectId) × (found ≡ Folder tree)
            × OfFiles (S.is_honest store.now) (S.table store.now) (id_of tree) (λ kind files.
            OwnFault (S.may_fail store.now) error)) }
        ensures failed { IsErrOf result Failed → S.may_fail store.now }
        ensures kept { S.is_honest store.now → AreAnswers (S.table store.now) self.old
            → OnOk result (AreAnswers (S.table store.now) self.new) }
        ensures names { self.new.names.items ≡ self.old.names.items }
    {
        match found {
            Found::File { .. } => Ok(None),
            Found::Folder { id } => self.named_in(alloc, store, &id, name),
        }
    }

    // Returns what has this name in the tree of this id, which is read if it wasn't.
    fn named_in<S: FindInto>(
        &mut self,
        alloc: Global,
        store: &S,
        tree: &ObjectId,
        name: &[u8],
    ) -> Result<Option<Found>, ReadError>
        ensures found { S.is_honest store.now → AreAnswers (S.table store.now) self.old
            → Contains (texts self.old.names.items) name.now
            → OfRoot (S.table store.now) (id_of tree.now) (λ kind files.
            IfOk result (λ found. option_map entry_of found ≡ entry_at kind files name.now)) }
        ensures refused { OfFiles (S.is_honest store.now) (S.table store.now) (id_of tree.now)
            (λ kind files. IfErr result (OwnFault (S.may_fail store.now))) }
        ensures failed { IsErrOf result Failed → S.may_fail store.now }
        ensures kept { S.is_honest store.now → AreAnswers (S.table store.now) self.old
            → OnOk result (AreAnswers (S.table store.now) self.new) }
        ensures names { self.new.names.items ≡ self.old.names.items }
    {
        if let Some(named) = self.named.get(tree) {
            return Ok(found_by(named, name));
        }
        let named = read_names(alloc, store, tree, self.names.as_slice(), &mut self.state)?;
        let found = found_by(&named, name);
        self.named.insert(*tree, named)?;
        Ok(found)
    }
}

// Returns what a tree has under a name.
fn found_by(named: &Named<'_>, name: &[u8]) -> Option<Found>
    ensures { result ≡ at_name named.now name.now }
{
    named.get(name).copied()
}

// Reads the tree of this id, and returns what it has under these names.
fn read_names<'a, S: FindInto>(
    alloc: Global,
    store: &S,
    tree: &ObjectId,
    names: &[&'a [u8]],
    state: &mut EntriesState,
) -> Result<Named<'a>, ReadError>
    ensures read { S.is_honest store.now
        → IfOk result (HasNamed (S.table store.now) names.now (id_of tree.now)) }
    ensures refused { OfFiles (S.is_honest store.now) (S.table store.now) (id_of tree.now)
        (λ kind files. IfErr result (OwnFault (S.may_fail store.now))) }
    ensures failed { IsErrOf result Failed → S.may_fail store.now }
{
    let found = entries_at(alloc, store, tree, names, state)?;
    Ok(by_names(alloc, names, found.as_slice())?)
}

// Returns what was found under each of some names, in their order.
fn by_names<'a>(
    alloc: Global,
    names: &[&'a [u8]],
    found: &[Option<Found>],
) -> Result<Named<'a>, AllocError>
    ensures { (at : Bytes → Option (Bytes × Id)) → AreAt at names.now found.now
        → IfOk result (TellsNames at names.now) }
{
    let mut named = BTreeMap::new(alloc);
    'names: for place in 0..names.len() {
        put(&mut named, names[place], found_in(found, place))?;
    }
    Ok(named)
}

// Adds what is under a name, if anything is.
fn put<'a>(named: &mut Named<'a>, name: &'a [u8], found: Option<Found>) -> Result<(), AllocError>
    ensures { OnOk result ((other : Bytes) → at_name named.new other
        ≡ or_found (bytes_eq name.now other) found (at_name named.old other)) }
{
    let Some(found) = found else {
        return Ok(());
    };
    named.insert(name, found)?;
    Ok(())
}

// Returns what was found at a place: nothing after the last.
fn found_in(found: &[Option<Found>], place: usize) -> Option<Found>
    ensures { result ≡ found_or_none found.now place }
{
    match found.get(place) {
        Some(there) => *there,
        None => None,
    }
}
