//! What a commit says, of which its row is made: its tree, parents and time (`Told`).

use gix_hash::ObjectId;
use gix_traverse_graph::ParentIds;

/// What a stored commit says, of which its row is made.
#[derive(Drop)]
pub struct Told {
    /// The commit's id.
    pub id: ObjectId,
    /// The id of its tree.
    pub tree: ObjectId,
    /// The ids of its parents, in their order.
    pub parents: ParentIds,
    /// Its committer's seconds since 1970.
    pub time: i64,
}
