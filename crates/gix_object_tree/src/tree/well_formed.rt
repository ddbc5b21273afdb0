//! Whether a tree is as Git writes it.

ghost use Rattle.std.specs.Prelude.{◌≡◌, ◌↔◌, map, IsTrue};
ghost use Rattle.std.specs.List.{All};
ghost use Rattle.gix_object_tree.specs.Entry.{item_of, own_item};
ghost use Rattle.gix_object_tree.specs.WellFormed.{ComesBefore, IsFilename, IsInOrder, HasNamesOnce, IsWellFormed};

use crate::tree::entry::AsEntry;
use crate::tree::search::bisect;
use crate::tree::{EntryRef, Tree, TreeRef, name_order};

impl<'a> TreeRef<'a> {
    /// Returns whether no name is empty or holds `/` or a zero byte, the entries are in Git's
    /// order, and no two have one name.
    pub fn is_well_formed(&self) -> bool
        ensures { IsTrue result ↔ IsWellFormed (map item_of self.now.entries.items) }
    {
        is_well_formed(self.entries.as_slice())
    }
}

impl Tree {
    /// Returns whether no name is empty or holds `/` or a zero byte, the entries are in Git's
    /// order, and no two have one name.
    pub fn is_well_formed(&self) -> bool
        ensures { IsTrue result ↔ IsWellFormed (map own_item self.now.entries.items) }
    {
        is_well_formed(self.entries.as_slice())
    }
}

fn is_well_formed<T: AsEntry>(entries: &[T]) -> bool
    ensures { IsTrue result ↔ IsWellFormed (map T.item entries.now) }
{
    has_filenames(entries) && is_in_order(entries) && has_names_once(entries)
}

fn has_filenames<T: AsEntry>(entries: &[T]) -> bool
    ensures { IsTrue result ↔ All (λ item. IsFilename item.name) (map T.item entries.now) }
{
    for entry in entries {
        if !is_filename(entry.as_entry().filename.as_bytes()) {
            return false;
        }
    }
    true
}

fn is_filename(name: &[u8]) -> bool
    ensures { IsTrue result ↔ IsFilename name.now }
{
    !name.is_empty() && !name.contains(&b'/') && !name.contains(&0)
}

fn is_in_order<T: AsEntry>(entries: &[T]) -> bool
    ensures { IsTrue result ↔ IsInOrder (map T.item entries.now) }
{
    for at in 1..entries.len() {
        if !comes_before(entries[at - 1].as_entry(), entries[at].as_entry()) {
            return false;
        }
    }
    true
}

fn comes_before(entry: EntryRef<'_>, other: EntryRef<'_>) -> bool
    ensures { IsTrue result ↔ ComesBefore (item_of entry.entry) (item_of other.entry) }
{
    name_order(
        entry.filename.as_bytes(),
        entry.mode.is_tree(),
        other.filename.as_bytes(),
        other.mode.is_tree(),
    )
    .is_lt()
}

// Of entries in order: two of one name are a tree and no tree, for else their keys would be one.
fn has_names_once<T: AsEntry>(entries: &[T]) -> bool
    ensures { IsInOrder (map T.item entries.now)
        → IsTrue result ↔ HasNamesOnce (map T.item entries.now) }
{
    for entry in entries {
        let entry = entry.as_entry();
        if entry.mode.is_tree() && bisect(entries, entry.filename.as_bytes(), false).is_some() {
            return false;
        }
    }
    true
}
