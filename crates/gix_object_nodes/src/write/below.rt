//! Handing out the changed trees below an opened one to be written, each after those that lie in it.

ghost use Rattle.std.specs.Prelude.{◌≡◌, ◌<◌, ◌+◌, List, [], length, IfOk, IfErr};
ghost use Rattle.std.specs.List.{FoldsTo};
ghost use Rattle.gix_object_nodes.specs.Files.{Path};
ghost use Rattle.gix_object_nodes.specs.Nodes.{slots_of, onto, IsForest, Way};
ghost use Rattle.gix_object_nodes.specs.Marks.{due_in};
ghost use Rattle.gix_object_nodes.specs.Writing.{ids_of};
ghost use Rattle.gix_object_nodes.specs.Written.{HandedOut, HandsOut, StopsWriting};
ghost use Rattle.gix_object_nodes.specs.Below.{IsHandedOutFrom, Answered};

use crate::node::{Node, NodeId};
use crate::write::Error;
use crate::write::entries::tree_of;
use crate::write::reached::reached;
use gix_hash::ObjectId;
use gix_object_tree::Tree;
use std::alloc::Global;

/// Hands out the changed trees below an opened one that have entries, each after those that lie in
/// it, and returns their ids by their numbers. Returns `Out` if `out` returns an error, and
/// `Memory` if no memory is left.
pub fn write_below<E, F: FnMut(&Tree) -> Result<ObjectId, E>>(
    nodes: &[Node],
    from: NodeId,
    alloc: Global,
    out: &mut F,
) -> Result<Vec<Option<ObjectId>>, Error<E>>
    requires callable { F.IsAlwaysCallable out.old }
    requires forest { IsForest (slots_of nodes.now) (length nodes.now) }
    requires within { from.0 < length nodes.now }
    ensures written { (base : Path) → Way (due_in nodes.now from.0) base from.0
        → IfOk result (λ ids. (handed : List HandedOut)
        × FoldsTo (HandsOut F.FnMut) out.old handed out.new
        × IsHandedOutFrom (due_in nodes.now from.0) base (length nodes.now)
        (ids_of ids.items) handed (from.0 + 1)) }
    ensures len { IfOk result (λ ids. length ids.items ≡ length nodes.now) }
    ensures refused { (base : Path) → Way (due_in nodes.now from.0) base from.0
        → IfErr result (λ error. StopsWriting F.FnMut nodes.now from.0
        (onto base []) out.old error out.new) }
    ensures callable { F.IsAlwaysCallable out.new }
{
    let reached = reached(nodes, from, alloc)?;
    let mut ids = vec![in alloc; None; nodes.len()]?;
    let mut at = nodes.len();
    'nodes: while at > from.0 + 1 {
        at -= 1;
        if reached[at] {
            let tree = tree_of(&nodes[at], nodes, ids.as_slice(), alloc)?;
            ids[at] = hand_out(&tree, out)?;
        }
    }
    Ok(ids)
}

// Hands out a tree, unless it has no entries.
fn hand_out<E, F: FnMut(&Tree) -> Result<ObjectId, E>>(
    tree: &Tree,
    out: &mut F,
) -> Result<Option<ObjectId>, Error<E>>
    requires { F.IsAlwaysCallable out.old }
    ensures answered { Answered F.FnMut out.old tree.now result out.new }
    ensures callable { F.IsAlwaysCallable out.new }
{
    if tree.entries.is_empty() {
        return Ok(None);
    }
    match out(tree) {
        Ok(oid) => Ok(Some(oid)),
        Err(error) => Err(Error::Out(error)),
    }
}
