//! Copies: of a recorder, its entries and its paths, and of the states that walks take.

use crate::tree::put_record;
use bstr::BStr;
use case_words::{Page, Trees};
use gix_hash::ObjectId;
use gix_object_lookup::entries_of;
use gix_traverse_tree::recorder::Recorder;
use gix_traverse_tree::{Visit, breadthfirst, depthfirst};
use std::alloc::Global;

/// Adds what a copy of a recorder has after a walk with a copied state: its path, the one that is
/// queued, and copies of its entries. `None` if the walk ends with an error, or no memory is left.
pub fn put_copied(
    alloc: Global,
    operation: &str,
    root: &ObjectId,
    trees: &Trees,
    page: &mut Page,
) -> Option<()> {
    let mut recorder = Recorder::new(alloc);
    if operation == "depth-copied" {
        by_depth(alloc, root, trees, &mut recorder, page)?;
    } else {
        by_levels(alloc, root, trees, &mut recorder)?;
    }
    tell(&mut recorder)?;
    put_copy(&mut recorder.try_clone().ok()?, page)
}

// The walk, with how long the buffers are that a state gives, at first and after it got one back
// with a byte.
fn by_depth(
    alloc: Global,
    root: &ObjectId,
    trees: &Trees,
    recorder: &mut Recorder,
    page: &mut Page,
) -> Option<()> {
    let mut state = depthfirst::State::new(alloc);
    let mut buffer = state.pop_buf();
    page.put_between("", buffer.len(), " ");
    buffer.push(7).ok()?;
    state.push_buf(buffer);
    page.put_between("", state.pop_buf().len(), " ");
    depthfirst::depthfirst(*root, &mut state.try_clone().ok()?, trees, recorder).ok()
}

fn by_levels(alloc: Global, root: &ObjectId, trees: &Trees, recorder: &mut Recorder) -> Option<()> {
    let mut state = breadthfirst::State::new(alloc).try_clone().ok()?;
    let mut content = Vec::new(alloc);
    let entries = entries_of(trees, root.as_oid(), &mut content).ok()?;
    breadthfirst::breadthfirst(entries, &mut state, trees, recorder).ok()
}

// The recorder's path is `a` then, and it has `a/b` queued.
fn tell(recorder: &mut Recorder) -> Option<()> {
    recorder.pop_front_tracked_path_and_set_current().ok()?;
    recorder.push_path_component(BStr::new(b"a")).ok()?;
    recorder
        .push_back_tracked_path_component(BStr::new(b"b"))
        .ok()?;
    recorder.pop_path_component().ok()
}

fn put_copy(recorder: &mut Recorder, page: &mut Page) -> Option<()> {
    page.between("", recorder.path_clone().ok()?.as_bytes(), " ");
    recorder.pop_front_tracked_path_and_set_current().ok()?;
    page.escaped(recorder.path_clone().ok()?.as_bytes());
    for entry in &recorder.records {
        put_record(&entry.try_clone().ok()?, page);
    }
    Some(())
}
