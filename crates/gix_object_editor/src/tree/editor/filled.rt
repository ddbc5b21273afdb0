//! Whether a file is below a folder, which `remove_leaf` then refuses to remove.

ghost use Rattle.std.specs.Prelude.{◌≡◌, ◌<◌, ◌≤◌, ◌+◌, ◌∷◌, [], length, IsTrue, IsFalse, IfErr, OnOk, None, false};
ghost use Rattle.gix_object_nodes.specs.Files.{Bytes, Path, Trees};
ghost use Rattle.gix_object_nodes.specs.Nodes.{slots_of, files_of_node, IsForest, AreFilled, HasFileBelow, IsFolderAt};
ghost use Rattle.gix_object_editor.specs.Refusals.{FolderFault};
ghost use Rattle.gix_object_editor.specs.Asked.{unopened_into, Asks};
ghost use Rattle.gix_object_editor.specs.Grown.{HasTree, Grows};

use crate::tree::editor::Error;
use crate::tree::editor::forest::open;
use gix_object_lines::ByteString;
use gix_object_lookup::FindInto;
use gix_object_nodes::node::{Node, NodeId};
use std::alloc::Global;

/// Refuses a name's folder if a file is below it. Its tree is opened.
pub(crate) fn refuse_folder<S: FindInto>(
    store: &S,
    nodes: &mut Vec<Node>,
    lookups: &mut u64,
    alloc: Global,
    at: NodeId,
    name: &[u8],
) -> Result<(), Error>
    requires { HasTree nodes.old.items at.0 }
    ensures grows { Grows (S.is_honest store.now) (S.table store.now) nodes.old.items
        nodes.new.items }
    ensures plain { OnOk result (IsFolderAt (slots_of nodes.new.items) at.0 name.now None) }
    ensures counted { lookups.new ≤ lookups.old + 1 }
    ensures asked { Asks (S.is_honest store.now) (S.may_fail store.now) (S.table store.now)
        (λ trees. unopened_into trees (slots_of nodes.old.items) at.0
        (name.now ∷ [])) lookups.old lookups.new result }
    ensures refused { IfErr result (FolderFault (S.is_honest store.now) (S.may_fail store.now)
        (S.table store.now) (slots_of nodes.new.items) at.0 name.now) }
{
    let Some(folder) = open(store, nodes, lookups, alloc, at, name)? else {
        return Ok(());
    };
    if has_file(nodes.as_slice(), folder) {
        let filename = ByteString::from_slice(alloc, name)?;
        return Err(Error::CannotRemoveNonLeaf { filename });
    }
    Ok(())
}

// Returns whether a file is below an opened tree. An entry that isn't null has one, unless a tree
// was opened for it.
fn has_file(nodes: &[Node], at: NodeId) -> bool
    requires forest { IsForest (slots_of nodes.now) (length nodes.now) }
    requires within { at.0 < length nodes.now }
    ensures found { IsTrue result → (trees : Trees) → AreFilled trees (slots_of nodes.now)
        → HasFileBelow trees (slots_of nodes.now) at.0 }
    ensures none { IsFalse result → (trees : Trees) (m : Bytes) (rest : Path)
        → files_of_node trees (slots_of nodes.now) at.0 (m ∷ rest) ≡ None }
{
    let node = &nodes[at.0];
    for slot in node.slots.values() {
        let filled = match slot.child {
            Some(child) => has_file(nodes, child),
            None => !slot.oid.is_null(),
        };
        if filled {
            return true;
        }
    }
    false
}
