//! Laws of trees, their entries and modes, each the contract of a function.
//!
//! The function makes the calls whose promises its law has.

ghost use Rattle.std.specs.Prelude.{◌≡◌, ◌↔◌, List, None, IsTrue, map, []};
ghost use Rattle.std.specs.List.{All};
ghost use Rattle.gix_object_tree.specs.Entry.{Item, item_of, own_item, SpellsTree};
ghost use Rattle.gix_object_tree.specs.Hashing.{item_input};
ghost use Rattle.gix_object_tree.specs.ModeText.{SpellsMode, mode_of, mode_text};
ghost use Rattle.gix_object_tree.specs.OrderLaws.{item_eq};
ghost use Rattle.gix_object_tree.specs.Reading.{Gives, start};
ghost use Rattle.gix_object_tree.specs.WellFormed.{IsWellFormed};
ghost use Rattle.gix_object_tree.specs.Writing.{HasIds, IsToldAgain, SpellsAsWritten, tree_text, tree_refusal};
ghost use Rattle.gix_object_tree.specs.declared.tree.entry.EntryRef as borrowed;

use crate::tree::entry::AsEntry;
use crate::tree::{Entry, EntryMode, EntryRef};
use crate::{Tree, TreeRef};
use gix_hash::Kind;

/// Bytes spell at most one tree.
pub fn bytes_spell_one_tree(_content: &[u8], _hash_kind: Kind)
    ensures { (one other : List Item) → SpellsTree _hash_kind _content.now one
        → SpellsTree _hash_kind _content.now other → one ≡ other }
{}

/// The text that is written of a mode is read as that mode.
pub fn written_mode_is_read_back(mode: EntryMode)
    ensures { SpellsMode (mode_text (mode_of mode)) (mode_of mode) }
{
    let _value = mode.value();
    let mut backing = [0; 6];
    let _text = mode.as_bytes(&mut backing);
}

/// What is written of a tree that isn't refused spells its entries if its ids are of this hash
/// function: it is read as that tree.
pub fn written_tree_is_read_back(tree: &TreeRef<'_>, _hash_kind: Kind)
    ensures { let items = map item_of tree.now.entries.items in
        tree_refusal items ≡ None → HasIds _hash_kind items
        → SpellsTree _hash_kind (tree_text items) items }
{
    entries_are_told_again(tree.entries.as_slice());
}

/// The same of a tree that owns its entries.
pub fn owned_written_tree_is_read_back(tree: &Tree, _hash_kind: Kind)
    ensures { let items = map own_item tree.now.entries.items in
        tree_refusal items ≡ None → HasIds _hash_kind items
        → SpellsTree _hash_kind (tree_text items) items }
{
    entries_are_told_again(tree.entries.as_slice());
}

/// A tree that was read has ids of its hash function, and is written without a refusal: to the
/// bytes that it was read from, if each mode has the digits there that are written for it.
pub fn read_tree_is_written(_content: &[u8], _hash_kind: Kind)
    ensures ids { (items : List Item) → SpellsTree _hash_kind _content.now items
        → HasIds _hash_kind items }
    ensures accepted { (items : List Item) → SpellsTree _hash_kind _content.now items
        → tree_refusal items ≡ None }
    ensures bytes { (items : List Item) → SpellsAsWritten _hash_kind _content.now items
        → tree_text items ≡ _content.now }
{}

/// A well-formed tree is written without a refusal.
pub fn well_formed_tree_is_written()
    ensures { (items : List Item) → IsWellFormed items → tree_refusal items ≡ None }
{}

/// The entries that a content spells are those that the reader gives one after another, to the end
/// of the content: so it gives no error exactly if `TreeRef::from_bytes` reads a tree, and then the
/// same entries.
pub fn entries_are_read_one_by_one(_content: &[u8], _hash_kind: Kind)
    ensures { (entries : List borrowed.EntryRef)
        → SpellsTree _hash_kind _content.now (map item_of entries)
        ↔ Gives (start _hash_kind _content.now) entries (start _hash_kind []) }
{}

/// Entries are equal exactly if their modes, names and ids are.
pub fn equal_entries_are_one(_entry: &Entry, _other: &Entry)
    ensures { IsTrue (item_eq (own_item _entry.now) (own_item _other.now))
        ↔ (own_item _entry.now ≡ own_item _other.now) }
{}

/// Equal entries feed a hasher the same bytes, also if one borrows its parts and the other owns
/// them.
pub fn equal_entries_are_fed_alike(_entry: &Entry, _other: &EntryRef<'_>)
    ensures { IsTrue (item_eq (own_item _entry.now) (item_of _other.now))
        → item_input (own_item _entry.now) ≡ item_input (item_of _other.now) }
{}

fn entries_are_told_again<T: AsEntry>(entries: &[T])
    ensures { All IsToldAgain (map T.item entries.now) }
{
    for entry in entries {
        entry_is_told_again(entry.as_entry());
    }
}

fn entry_is_told_again(entry: EntryRef<'_>)
    ensures { IsToldAgain (item_of entry.entry) }
{
    written_mode_is_read_back(entry.mode);
    let _id = entry.oid.as_bytes();
}
