//! `breadthfirst` and its state: shows a level's entries, queues trees, reads the next level; finds cycles.

ghost use Rattle.std.specs.Prelude.{◌≡◌, ◌↔◌, ◌<◌, ◌≤◌, ◌++◌, ◌∷◌, [], ℕ, List, Option, Some, IfOk, IfErr, IfSome, IsOk, OnOk, length, true, map};
ghost use Rattle.std.specs.declared.ops.ControlFlow.TheVariants.{Continue, Break};
ghost use Rattle.gix_hash.specs.Id.{Id, id_of};
ghost use Rattle.gix_object_tree.specs.Entry.{item_of};
ghost use Rattle.gix_object_tree.specs.Reading.{place_of};
ghost use Rattle.gix_traverse_tree.specs.declared.error.Error.TheVariants.{Cancelled};
ghost use Rattle.gix_traverse_tree.specs.Calls.{Runs, shown, descends};
ghost use Rattle.gix_traverse_tree.specs.Trees.{whole, failed, is_among};
ghost use Rattle.gix_traverse_tree.specs.Breadth.{Tree, behind, queued_id};
ghost use Rattle.gix_traverse_tree.specs.Nodes.{IsLinked, IsWayUp, StandsAt, AreAllFrom, Queues, MemoryOr, ShowsListing, StopsListing, ShowsTree, ShowsLevel, StopsLevel, Walks};

use crate::entry::show;
pub use crate::error::Error;
use crate::lookup::read_tree;
use crate::{Visit, visit};
use gix_hash::ObjectId;
use gix_object_lookup::FindInto;
use gix_object_tree::TreeRefIter;
use gix_object_tree::tree::EntryRef;
use std::alloc::{AllocError, Global};
use std::ops::ControlFlow;

/// A tree that a walk has met, and the number of the one that it lies in.
#[derive(Debug, Clone, Copy)]
struct Node {
    id: ObjectId,
    above: Option<usize>,
}

/// What a walk in breadth order keeps. Several walks may use one after another, which saves memory.
#[derive(Drop)]
pub struct State {
    nodes: Vec<Node>,
    content: Vec<u8>,
}

impl State {
    /// A state for a first walk. It takes no memory.
    pub fn new(alloc: Global) -> State
        ensures nodes { result.nodes.items ≡ [] }
        ensures content { result.content.items ≡ [] }
    {
        State {
            nodes: Vec::new(alloc),
            content: Vec::new(alloc),
        }
    }

    /// A state for a first walk, which serves as well as a copy. It takes no memory, so it never
    /// fails.
    pub fn try_clone(&self) -> Result<State, AllocError>
        ensures nodes { IfOk result (λ state. state.nodes.items ≡ []) }
        ensures content { IfOk result (λ state. state.content.items ≡ []) }
        ensures whole { IsOk result }
    {
        Ok(State::new(*self.nodes.allocator()))
    }
}

// Returns whether the way up from a node leads past this id.
fn lies_above(nodes: &[Node], above: Option<usize>, id: &ObjectId) -> bool
    requires linked { IsLinked nodes.now }
    requires within { IfSome above (λ n. n < length nodes.now) }
    ensures { (ids : List Id) → IsWayUp nodes.now above ids → result ≡ is_among (id_of id.now) ids }
{
    let mut link = above;
    'up: while let Some(number) = link {
        let node = &nodes[number];
        if *id == node.id {
            return true;
        }
        link = node.above;
    }
    false
}

// Queues the tree that an entry names.
fn queue<V: Visit>(
    entry: &EntryRef<'_>,
    above: Option<usize>,
    nodes: &mut Vec<Node>,
    delegate: &mut V,
) -> Result<(), Error>
    ensures queued { OnOk result
        (Queues above nodes.old.items nodes.new.items ((item_of entry.now).id ∷ [])) }
    ensures told { OnOk result
        (Runs V.goes delegate.old (behind (item_of entry.now) true) delegate.new) }
    ensures refused { IfErr result (MemoryOr (λ _. ⊥)) }
{
    delegate.pop_path_component()?;
    delegate.push_back_tracked_path_component(entry.filename)?;
    nodes.push(Node {
        id: ObjectId::from(entry.oid),
        above,
    })?;
    delegate.pop_path_component()?;
    Ok(())
}

// Shows an entry, and queues it if it is a tree to go below.
fn pass<V: Visit>(
    entry: &EntryRef<'_>,
    above: Option<usize>,
    nodes: &mut Vec<Node>,
    delegate: &mut V,
) -> Result<(), Error>
    ensures passed { OnOk result ((answer : _) × Runs V.goes delegate.old
        (shown (item_of entry.now) (Continue answer)
        ++ behind (item_of entry.now)
        (descends (item_of entry.now) (Continue answer))) delegate.new
        × Queues above nodes.old.items nodes.new.items
        (queued_id (item_of entry.now) (descends (item_of entry.now) (Continue answer)))) }
    ensures ended { IfErr result
        (MemoryOr
        (λ error. (error ≡ Cancelled)
        × Runs V.goes delegate.old (shown (item_of entry.now) (Break tt)) delegate.new)) }
{
    match show(entry, delegate)? {
        ControlFlow::Break(()) => Err(Error::Cancelled),
        ControlFlow::Continue(below) => {
            if entry.mode.is_tree() && below {
                queue(entry, above, nodes, delegate)
            } else {
                delegate.pop_path_component()?;
                Ok(())
            }
        }
    }
}

// Shows the entries of a tree, and queues those to go below.
fn show_entries<V: Visit>(
    entries: TreeRefIter<'_>,
    above: Option<usize>,
    nodes: &mut Vec<Node>,
    delegate: &mut V,
) -> Result<(), Error>
    ensures listed { OnOk result
        (ShowsListing V.goes (place_of entries.entry).kind
        (place_of entries.entry).input above delegate.old nodes.old.items delegate.new
        nodes.new.items) }
    ensures stopped { IfErr result
        (MemoryOr
        (StopsListing V.goes (place_of entries.entry).kind
        (place_of entries.entry).input delegate.old delegate.new)) }
{
    let mut rest = entries;
    'entries: while let Some(read) = rest.next() {
        let entry = read?;
        pass(&entry, above, nodes, delegate)?;
    }
    Ok(())
}

impl State {
    // Reads a queued tree, and shows its entries.
    fn read<F: FindInto, V: Visit>(
        &mut self,
        number: usize,
        objects: &F,
        delegate: &mut V,
    ) -> Result<(), Error>
        requires linked { IsLinked self.old.nodes.items }
        requires within { number < length self.old.nodes.items }
        ensures linked { OnOk result (IsLinked self.new.nodes.items) }
        ensures longer { OnOk result (length self.old.nodes.items ≤ length self.new.nodes.items) }
        ensures read { (tree : Tree) → StandsAt self.old.nodes.items number tree
            → OnOk result
            (ShowsTree V.goes (F.is_honest objects.now) (F.table objects.now)
            (F.ids objects.now) number tree delegate.old self.old.nodes.items delegate.new
            self.new.nodes.items) }
        ensures stopped { (tree : Tree) (trees : List Tree)
            → StandsAt self.old.nodes.items number tree
            → IfErr result
            (MemoryOr
            (StopsLevel V.goes (F.is_honest objects.now) (F.may_fail objects.now)
            (F.table objects.now) (tree ∷ trees) delegate.old delegate.new)) }
    {
        delegate.pop_front_tracked_path_and_set_current()?;
        let node = self.nodes[number];
        if lies_above(self.nodes.as_slice(), node.above, &node.id) {
            return Err(Error::Cycle);
        }
        read_tree(objects, &node.id, &mut self.content)?;
        let entries = TreeRefIter::from_bytes(self.content.as_slice(), node.id.kind());
        show_entries(entries, Some(number), &mut self.nodes, delegate)
    }

    // Reads the trees of a level.
    fn read_level<F: FindInto, V: Visit>(
        &mut self,
        start: usize,
        end: usize,
        objects: &F,
        delegate: &mut V,
    ) -> Result<(), Error>
        requires linked { IsLinked self.old.nodes.items }
        requires all { end ≡ length self.old.nodes.items }
        ensures linked { OnOk result (IsLinked self.new.nodes.items) }
        ensures read { (trees : List Tree) → AreAllFrom self.old.nodes.items start trees
            → OnOk result
            (ShowsLevel V.goes (F.is_honest objects.now) (F.may_fail objects.now)
            (F.table objects.now)
            (F.ids objects.now) trees delegate.old self.old.nodes.items delegate.new
            self.new.nodes.items) }
        ensures stopped { (trees : List Tree) → AreAllFrom self.old.nodes.items start trees
            → IfErr result
            (MemoryOr
            (StopsLevel V.goes (F.is_honest objects.now) (F.may_fail objects.now)
            (F.table objects.now) trees delegate.old delegate.new)) }
    {
        'trees: for number in start..end {
            self.read(number, objects, delegate)?;
        }
        Ok(())
    }

    // Walks, from a root's entries on.
    fn walk<F: FindInto, V: Visit>(
        &mut self,
        root: TreeRefIter<'_>,
        objects: &F,
        delegate: &mut V,
    ) -> Result<(), Error>
        ensures whole { OnOk result
            (Walks V.goes (F.is_honest objects.now) (F.may_fail objects.now) (F.table objects.now)
            (place_of root.entry).kind
            (place_of root.entry).input delegate.old delegate.new whole) }
        ensures stopped { IfErr result
            (MemoryOr
            (λ error. Walks V.goes (F.is_honest objects.now) (F.may_fail objects.now)
            (F.table objects.now) (place_of root.entry).kind
            (place_of root.entry).input delegate.old delegate.new (failed error))) }
    {
        self.nodes.clear();
        show_entries(root, None, &mut self.nodes, delegate)?;
        let mut start = 0;
        'levels: while start < self.nodes.len() {
            let end = self.nodes.len();
            self.read_level(start, end, objects, delegate)?;
            start = end;
        }
        Ok(())
    }
}

/// Shows the delegate all entries under the root: first those of the root, in their order, then
/// those of the trees among them, and so on, level by level. It goes below a tree if the delegate
/// returns `Continue(true)`.
///
/// Returns `Cancelled` after an entry for which the delegate returns `Break`. At a tree's turn,
/// after all that comes before, returns `Cycle` if the tree lies under itself, and `Find` if it
/// isn't found; at an entry's turn, `ObjectDecode` if the entry can't be read. Returns `Memory` if
/// no memory is left, also for the delegate. The root's own id isn't known, so that a root which
/// lies under itself is met twice.
pub fn breadthfirst<F: FindInto + Drop, V: Visit>(
    root: TreeRefIter<'_>,
    state: &mut State,
    objects: F,
    delegate: &mut V,
) -> Result<(), Error>
    ensures whole { OnOk result
        (Walks V.goes (F.is_honest objects) (F.may_fail objects) (F.table objects)
        (place_of root.entry).kind (place_of root.entry).input delegate.old delegate.new whole) }
    ensures stopped { IfErr result
        (MemoryOr
        (λ error. Walks V.goes (F.is_honest objects) (F.may_fail objects) (F.table objects)
        (place_of root.entry).kind (place_of root.entry).input delegate.old delegate.new
        (failed error))) }
{
    state.walk(root, &objects, delegate)
}
