//! Walks in which each commit comes after its children.

use crate::history::History;
use crate::numbers::{put_each, read_ids};
use crate::walks::{Asked, copied};
use case_words::{Page, Store};
use gix_hash::ObjectId;
use gix_traverse_commit::All;
use gix_traverse_topo::{Builder, Error, Sorting, Topo};
use std::alloc::Global;

/// Adds the commits that a walk in this order gives, and how many objects it looked up, or that a
/// commit isn't found. `None` at another error, or if no memory is left.
pub fn put_given(
    alloc: Global,
    history: &History,
    asked: Asked<'_>,
    sorting: Sorting,
    page: &mut Page,
) -> Option<()> {
    match built(alloc, history, asked, sorting)? {
        Ok(mut walk) => put_commits(alloc, &mut walk, page),
        Err(error) => put_end(error, page),
    }
}

fn put_commits(alloc: Global, walk: &mut Topo<All>, page: &mut Page) -> Option<()> {
    let mut ids = Vec::new(alloc);
    let ended = collect(walk, &mut ids)?;
    put_each(ids.as_slice(), page);
    match ended {
        Ok(()) => {
            page.put_between("after ", walk.lookups(), "");
            Some(())
        }
        Err(error) => put_end(error, page),
    }
}

// The end of a walk by this error, if a commit isn't found.
fn put_end(error: Error, page: &mut Page) -> Option<()> {
    match error {
        Error::Find(_) => {
            page.text("find");
            Some(())
        }
        _ => None,
    }
}

/// The commits that a walk in this order gives, ascending. `None` at an error, or if no memory is
/// left.
pub fn set(
    alloc: Global,
    history: &History,
    asked: Asked<'_>,
    sorting: Sorting,
) -> Option<Vec<ObjectId>> {
    let mut walk = built(alloc, history, asked, sorting)?.ok()?;
    let mut ids = Vec::new(alloc);
    collect(&mut walk, &mut ids)?.ok()?;
    ids.sort().ok()?;
    Some(ids)
}

fn built(
    alloc: Global,
    history: &History,
    asked: Asked<'_>,
    sorting: Sorting,
) -> Option<Result<Topo<All>, Error>> {
    let graph = copied(&history.graph)?;
    let builder = between(alloc, &history.objects, asked)?;
    let builder = builder.with_commit_graph(graph).sorting(sorting);
    Some(builder.parents(asked.parents).build())
}

// The builder of a walk from these tips to these ends.
fn between<'s>(
    alloc: Global,
    objects: &'s Store,
    asked: Asked<'_>,
) -> Option<Builder<&'s Store, All>> {
    let tips = read_ids(alloc, asked.tips)?;
    let ends = read_ids(alloc, asked.hidden)?;
    let builder = Builder::from_iters(alloc, objects, tips.as_slice(), Some(ends.as_slice()));
    Some(builder.ok()?.with_predicate(All))
}

// Adds the commits that come, up to the end or the first error. `None` if no memory is left.
fn collect(walk: &mut Topo<All>, ids: &mut Vec<ObjectId>) -> Option<Result<(), Error>> {
    for _ in 0..100_000u32 {
        match walk.next() {
            Some(Ok(info)) => ids.push(info.id).ok()?,
            Some(Err(error)) => return Some(Err(error)),
            None => return Some(Ok(())),
        }
    }
    None
}
