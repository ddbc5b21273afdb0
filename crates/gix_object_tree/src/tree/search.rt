//! Finding entries by their names.

ghost use Rattle.std.specs.Prelude.{◌≡◌, ◌<◌, ◌↔◌, length, map, IsTrue, IfSome, IfNone};
ghost use Rattle.std.specs.List.{All, Contains, HoldsAt};
ghost use Rattle.bstr.specs.BStr.{bstr_bytes};
ghost use Rattle.gix_hash.specs.Order.{digits_cmp};
ghost use Rattle.gix_object_tree.specs.Entry.{item_of};
ghost use Rattle.gix_object_tree.specs.Order.{git_key, item_key};
ghost use Rattle.gix_object_tree.specs.WellFormed.{IsInOrder, IsNamed};

use crate::tree::entry::AsEntry;
use crate::tree::{EntryRef, TreeRef, name_order};
use bstr::BStr;
use std::cmp::Ordering;

impl<'a> TreeRef<'a> {
    /// The entry of this name: a tree if `is_dir` is set, and otherwise another one. It is found by
    /// binary search, so that an entry of a tree that is not in Git's order may be missed.
    pub fn bisect_entry(&self, name: BStr<'_>, is_dir: bool) -> Option<EntryRef<'a>>
        ensures found { IfSome result
            (λ entry. Contains (map item_of self.now.entries.items) (item_of entry)
            × IsNamed (bstr_bytes name.entry) is_dir (item_of entry)) }
        ensures missing { IsInOrder (map item_of self.now.entries.items)
            → IfNone result
            (All (λ item. ¬ IsNamed (bstr_bytes name.entry) is_dir item)
            (map item_of self.now.entries.items)) }
    {
        let at = bisect(self.entries.as_slice(), name.as_bytes(), is_dir)?;
        Some(self.entries[at])
    }
}

// The place of the entry of this name, a tree's or another one.
pub(crate) fn bisect<T: AsEntry>(entries: &[T], name: &[u8], is_tree: bool) -> Option<usize>
    ensures within { IfSome result (λ at. at < length entries.now) }
    ensures found { IfSome result
        (λ at. HoldsAt (λ entry. IsNamed name.now is_tree (T.item entry)) entries.now at) }
    ensures missing { IsInOrder (map T.item entries.now)
        → IfNone result (All (λ item. ¬ IsNamed name.now is_tree item) (map T.item entries.now)) }
{
    let at = search(entries, name, is_tree)?;
    if is_named(entries[at].as_entry(), name, is_tree) {
        return Some(at);
    }
    None
}

// The place of an entry with the key of this name.
fn search<T: AsEntry>(entries: &[T], name: &[u8], is_tree: bool) -> Option<usize>
    ensures within { IfSome result (λ at. at < length entries.now) }
    ensures found { IfSome result
        (λ at. HoldsAt
        (λ entry. item_key (T.item entry) ≡ git_key name.now is_tree) entries.now at) }
    ensures missing { IsInOrder (map T.item entries.now)
        → IfNone result
        (All (λ item. ¬ (item_key item ≡ git_key name.now is_tree)) (map T.item entries.now)) }
{
    entries
        .binary_search_by(|entry| order_to(entry, name, is_tree))
        .ok()
}

fn order_to<T: AsEntry>(entry: &T, name: &[u8], is_tree: bool) -> Ordering
    ensures { result ≡ digits_cmp (item_key (T.item entry.now)) (git_key name.now is_tree) }
{
    let entry = entry.as_entry();
    name_order(
        entry.filename.as_bytes(),
        entry.mode.is_tree(),
        name,
        is_tree,
    )
}

fn is_named(entry: EntryRef<'_>, name: &[u8], is_tree: bool) -> bool
    ensures { IsTrue result ↔ IsNamed name.now is_tree (item_of entry.entry) }
{
    entry.filename.as_bytes() == name && entry.mode.is_tree() == is_tree
}
