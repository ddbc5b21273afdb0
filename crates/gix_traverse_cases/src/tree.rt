//! Cases of `gix_traverse_tree`.

use crate::copies::put_copied;
use case_words::{Case, Page, Row, Trees};
use gix_hash::ObjectId;
use gix_object_lookup::entries_of;
use gix_object_tree::tree::EntryMode;
use gix_traverse_tree::recorder::{Entry, Location, Recorder};
use gix_traverse_tree::{EntriesState, breadthfirst, depthfirst, entries_at};
use std::alloc::Global;

/// Adds the answer to a line. `None` if it is no case, or if no memory is left.
pub fn put_answer(alloc: Global, line: &str, page: &mut Page) -> Option<()> {
    let (operation, words) = line.split_once(' ')?;
    put_of_case(alloc, operation, &Case::read(alloc, words)?, page)
}

fn put_of_case(alloc: Global, operation: &str, case: &Case, page: &mut Page) -> Option<()> {
    let root = ObjectId::try_from(case.text(0)).ok()?;
    let front = if operation == "paths" { 2 } else { 1 };
    let trees = read_trees(alloc, case.kind.len_in_bytes(), case.behind(front))?;
    match operation {
        "paths" => put_paths(alloc, &root, case.text(1), &trees, page),
        "depth-copied" | "breadth-copied" => put_copied(alloc, operation, &root, &trees, page),
        _ => put_walk(alloc, operation, &root, &trees, page),
    }
}

// These trees, each an id and after it the content. `None` if one has no id, or if no memory is
// left.
fn read_trees(alloc: Global, width: usize, words: &[Vec<u8>]) -> Option<Trees> {
    let mut trees = Trees::new(alloc);
    for word in words {
        let oid = ObjectId::try_from(word.get(..width)?).ok()?;
        let content = Vec::from_slice(alloc, word.get(width..)?).ok()?;
        trees.add(Row { oid, content }).ok()?;
    }
    Some(trees)
}

/// Adds an entry: its mode, its path and its id.
pub fn put_record(entry: &Entry, page: &mut Page) {
    page.put_between(" ", entry.mode.as_str(), " ");
    page.escaped(entry.filepath.as_bytes());
    page.put_between(" ", entry.oid, "");
}

// How a walk from the root ends, and what a recorder has that tracks what the operation's name says
// after the order; before it, at `asked`, how many trees were looked up.
fn put_walk(
    alloc: Global,
    operation: &str,
    root: &ObjectId,
    trees: &Trees,
    page: &mut Page,
) -> Option<()> {
    let (order, tracked) = operation.split_once('-').unwrap_or((operation, ""));
    let location = match tracked {
        "" => Some(Location::Path),
        "names" => Some(Location::FileName),
        _ => None,
    };
    let mut recorder = Recorder::new(alloc).track_location(location);
    trees.count_anew();
    match order {
        "depth" => by_depth(alloc, root, trees, &mut recorder, page),
        "breadth" => by_levels(alloc, root, trees, &mut recorder, page),
        _ => return None,
    }
    if tracked == "asked" {
        page.put_between(" asked ", trees.asked(), "");
    }
    for entry in &recorder.records {
        put_record(entry, page);
    }
    Some(())
}

fn by_depth(
    alloc: Global,
    root: &ObjectId,
    trees: &Trees,
    recorder: &mut Recorder,
    page: &mut Page,
) {
    let mut state = depthfirst::State::new(alloc);
    match depthfirst::depthfirst(*root, &mut state, trees, recorder) {
        Ok(()) => page.text("whole"),
        Err(error) => page.refused(error),
    }
}

fn by_levels(
    alloc: Global,
    root: &ObjectId,
    trees: &Trees,
    recorder: &mut Recorder,
    page: &mut Page,
) {
    let mut content = Vec::new(alloc);
    let entries = match entries_of(trees, root.as_oid(), &mut content) {
        Ok(entries) => entries,
        Err(error) => return page.refused(error),
    };
    let mut state = breadthfirst::State::new(alloc);
    match breadthfirst::breadthfirst(entries, &mut state, trees, recorder) {
        Ok(()) => page.text("whole"),
        Err(error) => page.refused(error),
    }
}

// What two calls with one state return for these paths, each of which ends with a zero byte.
fn put_paths(
    alloc: Global,
    root: &ObjectId,
    paths: &[u8],
    trees: &Trees,
    page: &mut Page,
) -> Option<()> {
    let mut paths: Vec<&[u8]> = paths.split(|byte| *byte == 0).collect(alloc).ok()?;
    paths.pop();
    let mut state = EntriesState::new(alloc);
    put_entries(root, paths.as_slice(), trees, &mut state, page);
    page.text(" again ");
    put_entries(root, paths.as_slice(), trees, &mut state, page);
    Some(())
}

// One call, after how many trees it says that it looked up, and how many were looked up.
fn put_entries(
    root: &ObjectId,
    paths: &[&[u8]],
    trees: &Trees,
    state: &mut EntriesState,
    page: &mut Page,
) {
    trees.count_anew();
    let answered = entries_at(*root, paths, trees, state);
    page.put_between("", state.asked(), " ");
    page.put_between("of ", trees.asked(), "");
    match answered {
        Ok(entries) => {
            for entry in &entries {
                put_entry(entry, page);
            }
        }
        Err(error) => {
            page.text(" ");
            page.refused(error);
        }
    }
}

fn put_entry(entry: &Option<(EntryMode, ObjectId)>, page: &mut Page) {
    match entry {
        Some((mode, oid)) => {
            page.put_between(" ", mode.as_str(), " ");
            page.put_between("", oid, "");
        }
        None => page.text(" none"),
    }
}
