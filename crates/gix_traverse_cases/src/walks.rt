//! Walks of `Simple`, and what they give.

use crate::history::History;
use crate::numbers::read_ids;
use crate::predicate::Refusing;
use case_words::Store;
use gix_hash::ObjectId;
use gix_traverse_commit::simple::Sorting;
use gix_traverse_commit::{Accept, All, Graph, Info, Parents, Simple};
use std::alloc::Global;

/// What a walk is to list.
#[derive(Clone, Copy)]
pub struct Asked<'a> {
    /// The tips.
    pub tips: &'a str,
    /// The hidden commits, or the ends.
    pub hidden: &'a str,
    /// Along which parents it goes.
    pub parents: Parents,
}

/// The parents that a word names.
pub fn parents_of(word: &str) -> Parents {
    if word == "first" {
        Parents::First
    } else {
        Parents::All
    }
}

/// A copy of the graph, if there is one. `None` if no memory is left.
pub fn copied(graph: &Option<Graph>) -> Option<Option<Graph>> {
    match graph {
        Some(graph) => Some(Some(graph.try_clone().ok()?)),
        None => Some(None),
    }
}

/// Copies of what a walk gave, and how many objects it looked up.
#[derive(Drop)]
pub struct Listed {
    /// The commits.
    pub infos: Vec<Info>,
    /// How many objects.
    pub lookups: usize,
}

/// Copies of what a walk gives in this order, made with a predicate or without. `None` if it ends
/// with an error, or no memory is left.
pub fn given(
    alloc: Global,
    history: &History,
    asked: Asked<'_>,
    sorting: Sorting,
    is_filtered: bool,
) -> Option<Listed> {
    let tips = read_ids(alloc, asked.tips)?;
    let rest = read_rest(alloc, history, asked, sorting)?;
    if is_filtered {
        collected(
            alloc,
            Simple::filtered(tips, &history.objects, All).ok()?,
            rest,
        )
    } else {
        collected(alloc, Simple::new(tips, &history.objects).ok()?, rest)
    }
}

/// The same with a predicate that refuses some commits, and for which commits it was called.
pub fn given_refusing(
    alloc: Global,
    history: &History,
    asked: Asked<'_>,
    sorting: Sorting,
    refused: &str,
    noted: &mut Vec<ObjectId>,
) -> Option<Listed> {
    let tips = read_ids(alloc, asked.tips)?;
    let rest = read_rest(alloc, history, asked, sorting)?;
    let predicate = Refusing {
        refused: read_ids(alloc, refused)?,
        asked: noted,
    };
    collected(
        alloc,
        Simple::filtered(tips, &history.objects, predicate).ok()?,
        rest,
    )
}

// What a walk is given once it is made.
#[derive(Drop)]
struct Rest {
    parents: Parents,
    graph: Option<Graph>,
    hidden: Vec<ObjectId>,
    sorting: Sorting,
}

fn read_rest(alloc: Global, history: &History, asked: Asked<'_>, sorting: Sorting) -> Option<Rest> {
    Some(Rest {
        parents: asked.parents,
        graph: copied(&history.graph)?,
        hidden: read_ids(alloc, asked.hidden)?,
        sorting,
    })
}

fn collected<P: Accept + Drop>(
    alloc: Global,
    walk: Simple<&Store, P>,
    rest: Rest,
) -> Option<Listed> {
    let Rest {
        parents,
        graph,
        hidden,
        sorting,
    } = rest;
    let walk = walk.parents(parents).commit_graph(graph).hide(hidden).ok()?;
    let mut walk = walk.sorting(sorting).ok()?;
    let mut infos = Vec::new(alloc);
    collect(&mut walk, &mut infos)?;
    Some(Listed {
        infos,
        lookups: walk.lookups(),
    })
}

// Adds copies of the commits that come, up to the end. `None` at an error.
fn collect<P: Accept + Drop>(walk: &mut Simple<&Store, P>, infos: &mut Vec<Info>) -> Option<()> {
    for _ in 0..100_000u32 {
        match walk.next() {
            Some(Ok(info)) => infos.push(info.try_clone().ok()?).ok()?,
            Some(Err(_)) => return None,
            None => return Some(()),
        }
    }
    None
}
