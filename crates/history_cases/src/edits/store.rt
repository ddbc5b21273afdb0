//! Whether the trees are closed.

use case_words::Trees;
use gix_hash::{Kind, ObjectId};
use gix_object_tree::TreeRef;
use std::alloc::Global;

/// Returns whether there is each tree that a tree of this content names.
pub fn has_named(trees: &Trees, alloc: Global, kind: Kind, content: &[u8]) -> bool {
    let Ok(tree) = TreeRef::from_bytes(alloc, content, kind) else {
        return false;
    };
    for entry in &tree.entries {
        if entry.mode.is_tree() && !trees.has(&ObjectId::from(entry.oid)) {
            return false;
        }
    }
    true
}
