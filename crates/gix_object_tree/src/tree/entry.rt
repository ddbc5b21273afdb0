//! Entries of trees.

ghost use Rattle.std.specs.Prelude.{◌≡◌};
ghost use Rattle.gix_object_tree.specs.Entry.{Item, item_of, own_item};

use crate::tree::EntryMode;
use bstr::BStr;
use gix_hash::{ObjectId, oid};
use gix_object_lines::ByteString;

/// An entry of a tree, whose name and id are borrowed from the tree's content.
#[derive(Debug, Clone, Copy)]
pub struct EntryRef<'a> {
    /// What is named.
    pub mode: EntryMode,
    /// The name, of one folder.
    pub filename: BStr<'a>,
    /// The id of the object that is named.
    pub oid: oid<'a>,
}

/// An entry of a tree.
#[derive(Debug, Drop)]
pub struct Entry {
    /// What is named.
    pub mode: EntryMode,
    /// The name, of one folder.
    pub filename: ByteString,
    /// The id of the object that is named.
    pub oid: ObjectId,
}

/// What holds an entry.
pub(crate) trait AsEntry {
    /// The entry.
    ghost item: { Self → Item };

    /// The entry, borrowed.
    fn as_entry(&self) -> EntryRef<'_>
        ensures { item_of result ≡ item self.now };
}

impl AsEntry for EntryRef<'_> {
    ghost item = { item_of };

    fn as_entry(&self) -> EntryRef<'_> {
        *self
    }
}

impl AsEntry for Entry {
    ghost item = { own_item };

    fn as_entry(&self) -> EntryRef<'_> {
        EntryRef::from(self)
    }
}
