//! `entries_at`: the entries at several paths; reads each tree once, counts these, records the names found.

ghost use Rattle.std.specs.Prelude.{◌≡◌, ◌<◌, ◌≤◌, ℕ, List, [], length, map, IfOk, IfErr, OnOk, Some, None};
ghost use Rattle.std.specs.List.{All};
ghost use Rattle.gix_hash.specs.Id.{id_of};
ghost use Rattle.gix_object_tree.specs.Entry.{item_of};
ghost use Rattle.gix_object_tree.specs.Reading.{place_of};
ghost use Rattle.gix_object_lookup.specs.Path.{FindsFirst};
ghost use Rattle.gix_traverse_tree.specs.AtPaths.{names_of, root_item, IsUnread, TellsEach, AsksFor, AsksForAll, EntriesFault};
ghost use Rattle.gix_traverse_tree.specs.Folders.{number_in, IsNumbered};
ghost use Rattle.gix_traverse_tree.specs.Known.{known, told_at, else_this, StepsTo, AwaitsNames, KeepsOthers, CountsAsked, ReadFault, ReadsBelow, StopsReading};

use crate::error::Error;
use crate::folders::{Folder, number_paths};
use crate::lookup::read_tree;
use gix_hash::ObjectId;
use gix_object_lines::decode;
use gix_object_lookup::FindInto;
use gix_object_tree::TreeRefIter;
use gix_object_tree::tree::{EntryKind, EntryMode, EntryRef};
use std::alloc::{AllocError, Global};

/// What looking at several paths keeps. Several calls may use one after another, which saves
/// memory.
#[derive(Drop)]
pub struct EntriesState {
    content: Vec<u8>,
    found: Vec<Option<(EntryMode, ObjectId)>>,
    asked: usize,
}

impl EntriesState {
    /// A state for a first call. It takes no memory.
    pub fn new(alloc: Global) -> EntriesState
        ensures { result.asked ≡ 0 }
    {
        EntriesState {
            content: Vec::new(alloc),
            found: Vec::new(alloc),
            asked: 0,
        }
    }

    /// How many trees the last call looked up.
    pub fn asked(&self) -> usize
        ensures { result ≡ self.now.asked }
    {
        self.asked
    }
}

// Records the entry at its name's number, unless one is there.
fn record_found(
    entry: &EntryRef<'_>,
    folder: &Folder<'_>,
    found: &mut Vec<Option<(EntryMode, ObjectId)>>,
)
    requires { (name : List ℕ) (n : ℕ) → number_in folder.now name ≡ Some n
        → n < length found.old.items }
    ensures here { (n : ℕ) → number_in folder.now (item_of entry.now).name ≡ Some n
        → told_at (item_of entry.now).name found.new.items n
        ≡ else_this (told_at (item_of entry.now).name found.old.items n) (item_of entry.now) }
    ensures others { (n : ℕ) → (number_in folder.now (item_of entry.now).name ≡ Some n → ⊥)
        → known found.new.items n ≡ known found.old.items n }
    ensures len { length found.new.items ≡ length found.old.items }
{
    if let Some(number) = folder.number(entry.filename.as_bytes()) {
        if found[number].is_none() {
            found[number] = Some((entry.mode, ObjectId::from(entry.oid)));
        }
    }
}

// Records the first entry of each name that has a number.
fn record_all_found(
    entries: TreeRefIter<'_>,
    folder: &Folder<'_>,
    found: &mut Vec<Option<(EntryMode, ObjectId)>>,
) -> Result<(), decode::Error>
    requires { AwaitsNames folder.now found.old.items }
    ensures told { OnOk result ((name : List ℕ) (n : ℕ) → number_in folder.now name ≡ Some n
        → FindsFirst (place_of entries.entry) name (told_at name found.new.items n)) }
    ensures others { KeepsOthers folder.now found.old.items found.new.items }
    ensures refused { IfErr result (IsUnread (place_of entries.entry)) }
{
    let mut rest = entries;
    'entries: while let Some(read) = rest.next() {
        let entry = read?;
        record_found(&entry, folder, found);
    }
    Ok(())
}

impl EntriesState {
    // Nothing is known but the root.
    fn begin(&mut self, root: ObjectId, count: usize) -> Result<(), AllocError>
        requires { 0 < count }
        ensures root { OnOk result
            (told_at [] self.new.found.items 0 ≡ Some (root_item (id_of root))) }
        ensures none { (n : ℕ) → 0 < n → OnOk result (known self.new.found.items n ≡ None) }
        ensures len { OnOk result (length self.new.found.items ≡ count) }
        ensures asked { self.new.asked ≡ self.old.asked }
    {
        self.found.clear();
        self.found
            .push(Some((EntryMode::from(EntryKind::Tree), root)))?;
        self.found.resize(count, None)
    }

    // Reads the tree that is known of a number, if a path goes on from there.
    fn read<F: FindInto>(
        &mut self,
        folder: &Folder<'_>,
        number: usize,
        objects: &F,
    ) -> Result<(), Error>
        requires within { number < length self.old.found.items }
        requires awaits { AwaitsNames folder.now self.old.found.items }
        requires later { (name : List ℕ) (n : ℕ) → number_in folder.now name ≡ Some n → number < n }
        requires few { self.old.asked ≤ number }
        ensures steps { OnOk result ((name : List ℕ) (n : ℕ) → number_in folder.now name ≡ Some n
            → StepsTo (F.is_honest objects.now) (F.table objects.now)
            (known self.new.found.items number) name (known self.new.found.items n)) }
        ensures others { KeepsOthers folder.now self.old.found.items self.new.found.items }
        ensures asked { CountsAsked folder.now (known self.old.found.items number) self.old.asked
            self.new.asked }
        ensures refused { IfErr result
            (ReadFault (F.is_honest objects.now) (F.may_fail objects.now) (F.table objects.now)
            folder.now (known self.old.found.items number)) }
    {
        let Some((mode, id)) = self.found[number] else {
            return Ok(());
        };
        if folder.is_empty() || !mode.is_tree() {
            return Ok(());
        }
        self.asked += 1;
        read_tree(objects, &id, &mut self.content)?;
        let entries = TreeRefIter::from_bytes(self.content.as_slice(), id.kind());
        record_all_found(entries, folder, &mut self.found)?;
        Ok(())
    }

    // Reads all known trees from which a path goes on, each after those that it lies in.
    fn read_all<F: FindInto>(&mut self, folders: &[Folder<'_>], objects: &F) -> Result<(), Error>
        requires len { length self.old.found.items ≡ length folders.now }
        requires numbered { IsNumbered folders.now }
        requires none { (n : ℕ) → 0 < n → known self.old.found.items n ≡ None }
        requires fresh { self.old.asked ≡ 0 }
        ensures read { OnOk result
            (ReadsBelow (F.is_honest objects.now) (F.table objects.now) folders.now
            self.new.found.items self.new.asked (length folders.now)) }
        ensures stopped { IfErr result
            (StopsReading (F.is_honest objects.now) (F.may_fail objects.now) (F.table objects.now)
            folders.now self.new.found.items self.new.asked) }
        ensures root { known self.new.found.items 0 ≡ known self.old.found.items 0 }
        ensures len { length self.new.found.items ≡ length self.old.found.items }
    {
        'folders: for number in 0..folders.len() {
            self.read(&folders[number], number, objects)?;
        }
        Ok(())
    }

    // What is known of these numbers.
    fn answers(&self, numbers: &[usize]) -> Result<Vec<Option<(EntryMode, ObjectId)>>, AllocError>
        requires { All (λ n. n < length self.now.found.items) numbers.now }
        ensures { IfOk result (λ answers.
            answers.items ≡ map (known self.now.found.items) numbers.now) }
    {
        let mut answers = Vec::new(*self.found.allocator());
        for number in numbers {
            answers.push(self.found[*number])?;
        }
        Ok(answers)
    }
}

/// The entry at each of the paths below the root, in their order, and `None` if there is none. The
/// names of a path are separated by slashes, and lead from the tree of the root's id down through
/// the trees of the store. Of entries of one name the first counts, and nothing is below what is no
/// tree. Paths may be equal, and may begin one another. Each tree is looked up once, and read
/// whole, however many paths lead into it.
///
/// Returns `Find` if a tree into which a path leads isn't found, `ObjectDecode` if an entry of one
/// can't be read, and `Memory` if no memory is left.
pub fn entries_at<F: FindInto + Drop>(
    root: ObjectId,
    paths: &[&[u8]],
    objects: F,
    state: &mut EntriesState,
) -> Result<Vec<Option<(EntryMode, ObjectId)>>, Error>
    ensures told { IfOk result (λ answers. TellsEach (F.is_honest objects) (F.table objects)
        (id_of root) (map (λ path. names_of path.now) paths.now) answers.items) }
    ensures asked { AsksFor (F.is_honest objects) (F.table objects) (id_of root)
        (map (λ path. names_of path.now) paths.now) state.new.asked }
    ensures whole { OnOk result (AsksForAll (F.is_honest objects) (F.table objects) (id_of root)
        (map (λ path. names_of path.now) paths.now) state.new.asked) }
    ensures refused { IfErr result (EntriesFault (F.is_honest objects) (F.may_fail objects)
        (F.table objects) (id_of root) (map (λ path. names_of path.now) paths.now)) }
{
    state.asked = 0;
    let alloc: Global = *state.content.allocator();
    let mut folders = Vec::new(alloc);
    let numbers = number_paths(alloc, &mut folders, paths)?;
    state.begin(root, folders.len())?;
    state.read_all(folders.as_slice(), &objects)?;
    Ok(state.answers(numbers.as_slice())?)
}
