//! What entries feed a hasher.

ghost use Rattle.gix_object_tree.specs.Entry.{item_of, own_item};
ghost use Rattle.gix_object_tree.specs.Hashing.{item_input, same_input};

use crate::tree::{Entry, EntryRef};
use std::hash::{Hash, Hasher};

// Its mode, its name and its id, each as that is fed by itself.
impl Hash for EntryRef<'_> {
    ghost hash_input = { λ entry. item_input (item_of entry) };

    ghost respects_eq = { λ a b. same_input (item_of a) (item_of b) };

    fn hash<H: Hasher>(&self, state: &mut H) {
        self.mode.hash(state);
        self.filename.hash(state);
        self.oid.hash(state);
    }
}

// As the entry that borrows its parts.
impl Hash for Entry {
    ghost hash_input = { λ entry. item_input (own_item entry) };

    ghost respects_eq = { λ a b. same_input (own_item a) (own_item b) };

    fn hash<H: Hasher>(&self, state: &mut H) {
        EntryRef::from(self).hash(state);
    }
}
