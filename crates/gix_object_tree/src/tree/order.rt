//! Git's order of entries.

ghost use Rattle.std.specs.Prelude.{◌≡◌, Some};
ghost use Rattle.std.proofs.Common.{refl};
ghost use Rattle.gix_object_tree.specs.Entry.{item_of, own_item};
ghost use Rattle.gix_object_tree.specs.Order.{name_cmp, item_cmp};
ghost use Rattle.gix_object_tree.specs.OrderLaws.{item_eq, total, equivalence, eq_laws, order_laws};

use crate::tree::{Entry, EntryRef};
use gix_hash::ObjectId;
use std::cmp::Ordering;

/// The order of two names in a tree: that of their bytes, a tree's name as if `/` followed it.
pub fn name_order(a: &[u8], a_is_tree: bool, b: &[u8], b_is_tree: bool) -> Ordering
    ensures { result ≡ name_cmp a.now a_is_tree b.now b_is_tree }
{
    let slash_of_a: &[u8] = if a_is_tree { b"/" } else { b"" };
    let slash_of_b: &[u8] = if b_is_tree { b"/" } else { b"" };
    a.iter().chain(slash_of_a).cmp(b.iter().chain(slash_of_b))
}

// By Git's key, then mode, name and id.
impl Ord for EntryRef<'_> {
    ghost cmp = { λ a b. item_cmp (item_of a) (item_of b) };

    ghost total = { total item_of };

    ghost matches_partial_cmp = { λ a b. refl };

    ghost matches_eq = { λ a b. refl };

    fn cmp(&self, other: &Self) -> Ordering {
        name_order(
            self.filename.as_bytes(),
            self.mode.is_tree(),
            other.filename.as_bytes(),
            other.mode.is_tree(),
        )
        .then(self.mode.cmp(&other.mode))
        .then(self.filename.as_bytes().cmp(other.filename.as_bytes()))
        .then(ObjectId::from(self.oid).cmp(&ObjectId::from(other.oid)))
    }
}

impl PartialOrd for EntryRef<'_> {
    ghost partial_cmp = { λ a b. Some (item_cmp (item_of a) (item_of b)) };

    ghost laws = { order_laws item_of };

    fn partial_cmp(&self, other: &Self) -> Option<Ordering> {
        Some(self.cmp(other))
    }
}

// Equal if neither comes first, and so if mode, name and id are the same.
impl PartialEq for EntryRef<'_> {
    ghost eq = { λ a b. item_eq (item_of a) (item_of b) };

    ghost laws = { eq_laws item_of };

    fn eq(&self, other: &Self) -> bool {
        self.cmp(other).is_eq()
    }
}

impl Eq for EntryRef<'_> {
    ghost laws = { equivalence item_of };
}

// As the entry that borrows its parts.
impl Ord for Entry {
    ghost cmp = { λ a b. item_cmp (own_item a) (own_item b) };

    ghost total = { total own_item };

    ghost matches_partial_cmp = { λ a b. refl };

    ghost matches_eq = { λ a b. refl };

    fn cmp(&self, other: &Entry) -> Ordering {
        EntryRef::from(self).cmp(&EntryRef::from(other))
    }
}

impl PartialOrd for Entry {
    ghost partial_cmp = { λ a b. Some (item_cmp (own_item a) (own_item b)) };

    ghost laws = { order_laws own_item };

    fn partial_cmp(&self, other: &Entry) -> Option<Ordering> {
        Some(self.cmp(other))
    }
}

impl PartialEq for Entry {
    ghost eq = { λ a b. item_eq (own_item a) (own_item b) };

    ghost laws = { eq_laws own_item };

    fn eq(&self, other: &Entry) -> bool {
        self.cmp(other).is_eq()
    }
}

impl Eq for Entry {
    ghost laws = { equivalence own_item };
}
