//! What is shown of the commits that a walk gives.

use crate::numbers::{number, put_each, put_ids};
use case_words::Page;
use gix_hash::ObjectId;
use gix_traverse_commit::Info;
use std::alloc::Global;

/// The ids of these commits, ascending. `None` if no memory is left.
pub fn set_of(alloc: Global, infos: &[Info]) -> Option<Vec<ObjectId>> {
    let mut ids = Vec::new(alloc);
    for info in infos {
        ids.push(info.id).ok()?;
    }
    ids.sort().ok()?;
    Some(ids)
}

/// Adds all that is known of the commits for `infos`, their numbers in ascending order for `set`,
/// and otherwise their numbers. `None` if no memory is left.
pub fn put_found(alloc: Global, what: &str, infos: &[Info], page: &mut Page) -> Option<()> {
    if what == "set" {
        put_each(set_of(alloc, infos)?.as_slice(), page);
        return Some(());
    }
    for info in infos {
        if what == "infos" {
            put_info(info, page);
        } else {
            page.put_between("", number(&info.id), " ");
        }
    }
    Some(())
}

// A commit's number, its parents', its generation and its time; `-` is none.
fn put_info(info: &Info, page: &mut Page) {
    page.put_between("", number(&info.id), ":");
    put_ids(info.parent_ids.as_slice(), page);
    match info.generation {
        Some(generation) => page.put_between(":", generation, ":"),
        None => page.text(":-:"),
    }
    match info.commit_time {
        Some(time) => page.put_between("", time, " "),
        None => page.text("- "),
    }
}
