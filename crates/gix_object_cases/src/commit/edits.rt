//! Commits with one part changed: what is written of them, and whether they can be owned.

use crate::written::show_written;
use bstr::BStr;
use case_words::{Case, Page, text_of};
use gix_object_commit::CommitRef;
use gix_object_commit::commit::HeaderRef;
use gix_object_lines::lines::{ActorRef, Time};
use std::alloc::{AllocError, Global};

/// Adds what is written of the commit with the part that the operation names, and of the commit
/// that owns its parts, except for a header.
pub fn change<'a>(
    alloc: Global,
    operation: &str,
    mut commit: CommitRef<'a>,
    case: &'a Case,
    page: &mut Page,
) {
    if put_part(operation, &mut commit, case).is_err() {
        return page.text("no memory");
    }
    show_written(alloc, &commit, page);
    if operation != "with-header" {
        show_own(alloc, commit, page);
    }
}

fn put_part<'a>(
    operation: &str,
    commit: &mut CommitRef<'a>,
    case: &'a Case,
) -> Result<(), AllocError> {
    let part = BStr::new(case.text(1));
    match operation {
        "with-tree" => commit.tree = part,
        "with-parent" => return Ok(commit.parents.push(part)?),
        "with-encoding" => commit.encoding = Some(part),
        "with-header" => {
            let value = BStr::new(case.text(2));
            let header = HeaderRef { name: part, value };
            return Ok(commit.extra_headers.push(header)?);
        }
        _ => {
            commit.author = ActorRef {
                name: part,
                email: BStr::new(case.text(2)),
                time: BStr::new(case.text(3)),
            };
        }
    }
    Ok(())
}

fn show_own(alloc: Global, commit: CommitRef<'_>, page: &mut Page) {
    match commit.into_owned() {
        Ok(own) => {
            page.text("; own ");
            show_written(alloc, &own, page);
        }
        Err(error) => {
            page.text("; not owned ");
            page.name(error);
        }
    }
}

fn time_of(seconds: &[u8], offset: &[u8]) -> Option<Time> {
    Some(Time {
        seconds: text_of(seconds)?.parse::<i64>().ok()?,
        offset: text_of(offset)?.parse::<i32>().ok()?,
    })
}

/// Owned, with the further texts as the seconds and the offset of its author's time.
pub fn time(alloc: Global, commit: CommitRef<'_>, case: &Case, page: &mut Page) {
    let Some(time) = time_of(case.text(1), case.text(2)) else {
        return page.text("no time");
    };
    match commit.into_owned() {
        Ok(mut own) => {
            own.author.time = time;
            show_written(alloc, &own, page);
        }
        Err(error) => {
            page.text("not owned ");
            page.name(error);
        }
    }
}
