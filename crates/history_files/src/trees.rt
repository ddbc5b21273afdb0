//! What edits made of a root's files: the new root, and the trees to store (`EditedFiles`, `EditedTree`).

ghost use Rattle.history_files.specs.TreeIds.{IsTreeId};

use gix_hash::ObjectId;

/// A tree of edited files.
#[derive(Drop)]
pub struct EditedTree {
    /// Its id.
    pub id: ObjectId,
    /// Its content.
    pub content: Vec<u8>,
    pub ghost named: { IsTreeId id content.items },
}

/// What edits made of a root's files.
#[derive(Drop)]
pub struct EditedFiles {
    /// The id of the tree of all files.
    pub root: ObjectId,
    /// The trees that are to be stored, each after those of its own folders. That of all files is
    /// the last.
    pub trees: Vec<EditedTree>,
    /// How many trees were looked up in the store.
    pub lookups: u64,
}
