//! `depthfirst`: shows the next entry of the innermost open tree, enters and leaves trees, finds cycles.

ghost use Rattle.std.specs.Prelude.{◌≡◌, IfOk, IfErr, OnOk, reverse, length};
ghost use Rattle.std.specs.List.{list_any};
ghost use Rattle.gix_hash.specs.Id.{id_of};
ghost use Rattle.gix_hash.specs.Order.{id_eq};
ghost use Rattle.gix_object_tree.specs.Entry.{item_of};
ghost use Rattle.gix_traverse_tree.specs.Calls.{Runs};
ghost use Rattle.gix_traverse_tree.specs.Trees.{failed, TreeFault};
ghost use Rattle.gix_traverse_tree.specs.Nodes.{MemoryOr};
ghost use Rattle.gix_traverse_tree.specs.Opened.{left_of, ids_of, Rest, AreOpen, ShowsEntry, ShowsNext, HasNoNext, Opens, GoesOn, IsAtEnd, IsGood, WalksIn, WhereTrue, IsResumed};

mod buffers;

use crate::entry::show;
pub use crate::error::Error;
use crate::lookup::read_tree;
use crate::{Visit, visit};
use bstr::BStr;
use gix_hash::ObjectId;
use gix_object_lookup::FindInto;
use gix_object_tree::TreeRefIter;
use gix_object_tree::tree::EntryRef;
use std::alloc::Global;
use std::ops::ControlFlow;

/// A tree that a walk is in: its content, and where in it the next entry begins.
#[derive(Drop)]
struct Open {
    id: ObjectId,
    content: Vec<u8>,
    offset: usize,
}

/// What came of a look at the next entry: none is left, the walk goes past it or below it, or the
/// delegate ended the walk.
#[derive(Clone, Copy)]
enum Step {
    Left,
    Past,
    Below(ObjectId),
    Ended,
}

/// What a walk in depth order keeps. Several walks may use one after another, which saves memory.
#[derive(Drop)]
pub struct State {
    buffers: Vec<Vec<u8>>,
}

// Shows an entry, and returns how the walk goes on.
fn pass<V: Visit>(entry: &EntryRef<'_>, delegate: &mut V) -> Result<Step, visit::Error>
    ensures { IfOk result
        (λ step. ShowsEntry V.goes delegate.old (item_of entry.now) delegate.new step) }
{
    match show(entry, delegate)? {
        ControlFlow::Break(()) => {
            if entry.mode.is_tree() {
                delegate.pop_path_component()?;
            }
            Ok(Step::Ended)
        }
        ControlFlow::Continue(below) => {
            delegate.pop_path_component()?;
            if entry.mode.is_tree() && below {
                delegate.push_back_tracked_path_component(BStr::new(b""))?;
                delegate.push_back_tracked_path_component(entry.filename)?;
                Ok(Step::Below(ObjectId::from(entry.oid)))
            } else {
                Ok(Step::Past)
            }
        }
    }
}

impl Open {
    // What is left of the content.
    fn bytes_left(&self) -> &[u8]
        ensures { result.now ≡ left_of self.now }
    {
        self.content.get(self.offset..).unwrap_or(b"")
    }
}

// Returns whether one of the trees has this id.
fn is_open(trees: &[Open], id: &ObjectId) -> bool
    ensures { result ≡ list_any (λ tree. id_eq (id_of id.now) (id_of tree.id)) trees.now }
{
    trees.iter().any(|tree| *id == tree.id)
}

// Shows the next entry of a tree.
fn show_next<V: Visit>(tree: &mut Open, delegate: &mut V) -> Result<Step, Error>
    ensures kept { tree.new.id ≡ tree.old.id }
    ensures shown { IfOk result
        (λ step. ShowsNext V.goes delegate.old tree.old delegate.new tree.new step) }
    ensures refused { IfErr result (MemoryOr (HasNoNext delegate.old tree.old delegate.new)) }
{
    let mut entries = TreeRefIter::from_bytes(tree.bytes_left(), tree.id.kind());
    let Some(read) = entries.next() else {
        return Ok(Step::Left);
    };
    let entry = read?;
    let step = pass(&entry, delegate)?;
    tree.offset = entries.offset_to_next_entry(tree.content.as_slice());
    Ok(step)
}

// Reads a tree, and is in it.
fn enter<F: FindInto, V: Visit>(
    id: ObjectId,
    trees: &mut Vec<Open>,
    state: &mut State,
    objects: &F,
    delegate: &mut V,
) -> Result<(), Error>
    ensures opened { OnOk result
        (Opens V.goes (F.is_honest objects.now) (F.table objects.now) (F.ids objects.now)
        (id_of id) delegate.old (reverse trees.old.items) delegate.new
        (reverse trees.new.items)) }
    ensures refused { IfErr result
        (MemoryOr
        (λ error. TreeFault (F.is_honest objects.now) (F.may_fail objects.now)
        (F.table objects.now) (ids_of (reverse trees.old.items)) (id_of id) error
        × (delegate.new ≡ delegate.old))) }
{
    if is_open(trees.as_slice(), &id) {
        return Err(Error::Cycle);
    }
    let mut content = state.pop_buf();
    read_tree(objects, &id, &mut content)?;
    trees.push(Open {
        id,
        content,
        offset: 0,
    })?;
    delegate.pop_back_tracked_path_and_set_current()?;
    Ok(())
}

// Takes the path of the innermost tree again, if there is one.
fn resume<V: Visit>(trees: &[Open], delegate: &mut V) -> Result<(), visit::Error>
    ensures { OnOk result (IsResumed V.goes delegate.old (length trees.now) delegate.new) }
{
    if trees.is_empty() {
        return Ok(());
    }
    delegate.pop_back_tracked_path_and_set_current()
}

// Goes on by one entry, or out of a tree: whether there is more to do.
fn take_step<F: FindInto, V: Visit>(
    trees: &mut Vec<Open>,
    state: &mut State,
    objects: &F,
    delegate: &mut V,
) -> Result<bool, Error>
    ensures more { IfOk result
        (λ more. WhereTrue more
        (GoesOn V.goes (F.is_honest objects.now) (F.may_fail objects.now) (F.table objects.now)
        (F.ids objects.now) delegate.old (reverse trees.old.items) delegate.new
        (reverse trees.new.items))
        (IsAtEnd V.goes (F.is_honest objects.now) (F.may_fail objects.now)
        (F.table objects.now) delegate.old (reverse trees.old.items) delegate.new IsGood)) }
    ensures stopped { IfErr result
        (MemoryOr
        (λ error. IsAtEnd V.goes (F.is_honest objects.now) (F.may_fail objects.now)
        (F.table objects.now) delegate.old (reverse trees.old.items) delegate.new
        (λ end. end ≡ failed error))) }
{
    let Some(mut tree) = trees.pop() else {
        return Ok(false);
    };
    match show_next(&mut tree, delegate)? {
        Step::Left => {
            state.push_buf(tree.content);
            resume(trees.as_slice(), delegate)?;
            Ok(true)
        }
        Step::Past => {
            trees.push(tree)?;
            Ok(true)
        }
        Step::Below(id) => {
            trees.push(tree)?;
            enter(id, trees, state, objects, delegate)?;
            Ok(true)
        }
        Step::Ended => Ok(false),
    }
}

// Walks, from a root on.
fn walk<F: FindInto, V: Visit>(
    root: ObjectId,
    state: &mut State,
    objects: &F,
    delegate: &mut V,
) -> Result<(), Error>
    ensures whole { OnOk result
        (WalksIn V.goes (F.is_honest objects.now) (F.may_fail objects.now) (F.table objects.now)
        (id_of root) delegate.old delegate.new IsGood) }
    ensures stopped { IfErr result
        (MemoryOr
        (λ error. WalksIn V.goes (F.is_honest objects.now) (F.may_fail objects.now)
        (F.table objects.now) (id_of root) delegate.old delegate.new
        (λ end. end ≡ failed error))) }
{
    let mut trees = Vec::new(*state.buffers.allocator());
    enter(root, &mut trees, state, objects, delegate)?;
    let mut more = true;
    'steps: while more {
        more = take_step(&mut trees, state, objects, delegate)?;
    }
    Ok(())
}

/// Shows the delegate all entries under the root, each before what lies in it, and that before the
/// entry after it. It goes below a tree if the delegate returns `Continue(true)`, and ends on
/// `Break`.
///
/// At a tree's turn, after all that comes before, returns `Cycle` if the tree lies under itself,
/// and `Find` if it isn't found; at an entry's turn, `ObjectDecode` if the entry can't be read.
/// Returns `Memory` if no memory is left, also for the delegate.
pub fn depthfirst<F: FindInto + Drop, V: Visit>(
    root: ObjectId,
    state: &mut State,
    objects: F,
    delegate: &mut V,
) -> Result<(), Error>
    ensures whole { OnOk result
        (WalksIn V.goes (F.is_honest objects) (F.may_fail objects) (F.table objects)
        (id_of root) delegate.old delegate.new IsGood) }
    ensures stopped { IfErr result
        (MemoryOr
        (λ error. WalksIn V.goes (F.is_honest objects) (F.may_fail objects) (F.table objects)
        (id_of root) delegate.old delegate.new (λ end. end ≡ failed error))) }
{
    walk(root, state, &objects, delegate)
}
