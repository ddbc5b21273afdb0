//! `Editor::write`, also for a cursor: changed trees are handed out, the topmost last, and its id is returned.

ghost use Rattle.std.specs.Prelude.{◌<◌, [], length, IfOk, IfErr};
ghost use Rattle.gix_hash.specs.Id.{id_of};
ghost use Rattle.gix_object_nodes.specs.Files.{Path};
ghost use Rattle.gix_object_nodes.specs.Nodes.{slots_of, Way, onto};
ghost use Rattle.gix_object_editor.specs.Written.{WriteFault, Writes};

use crate::tree::editor::Editor;
use gix_hash::ObjectId;
use gix_object_nodes::node::NodeId;
pub use gix_object_nodes::write::Error;
use gix_object_nodes::write::{tree_of, write_below};
use gix_object_tree::Tree;
use std::alloc::Global;

impl<S> Editor<S> {
    /// Hands out the trees that edits changed since the root was set, also if they were handed out
    /// before, and returns the root's id.
    ///
    /// Each is handed out once, after the trees that lie in it, and named by the id that `out`
    /// returned for it. The root comes last. A folder whose tree has no entries is left out, and so
    /// is an entry with the null id.
    ///
    /// Returns `Out` if `out` returns an error, and `Memory` if no memory is left.
    pub fn write<E, F: FnMut(&Tree) -> Result<ObjectId, E>>(
        &self,
        alloc: Global,
        out: &mut F,
    ) -> Result<ObjectId, Error<E>>
        requires { F.IsAlwaysCallable out.old }
        ensures written { IfOk result (λ root. Writes F.FnMut self.now 0 [] out.old
            (id_of root) out.new) }
        ensures refused { IfErr result
            (λ error. WriteFault F.FnMut self.now 0 [] out.old error out.new) }
        ensures callable { F.IsAlwaysCallable out.new }
    {
        self.write_from(alloc, NodeId(0), out)
    }

    /// Hands out the trees that edits changed below this one, and this, and returns its id.
    pub(crate) fn write_from<E, F: FnMut(&Tree) -> Result<ObjectId, E>>(
        &self,
        alloc: Global,
        from: NodeId,
        out: &mut F,
    ) -> Result<ObjectId, Error<E>>
        requires callable { F.IsAlwaysCallable out.old }
        requires within { from.0 < length self.now.nodes.items }
        ensures written { (base : Path) → Way (slots_of self.now.nodes.items) base from.0
            → IfOk result (λ id. Writes F.FnMut self.now from.0 (onto base []) out.old
            (id_of id) out.new) }
        ensures refused { (base : Path) → Way (slots_of self.now.nodes.items) base from.0
            → IfErr result (λ error. WriteFault F.FnMut self.now from.0
            (onto base []) out.old error out.new) }
        ensures callable { F.IsAlwaysCallable out.new }
    {
        let nodes = self.nodes.as_slice();
        let ids = write_below(nodes, from, alloc, out)?;
        let tree = tree_of(&nodes[from.0], nodes, ids.as_slice(), alloc)?;
        match out(&tree) {
            Ok(id) => Ok(id),
            Err(error) => Err(Error::Out(error)),
        }
    }
}
