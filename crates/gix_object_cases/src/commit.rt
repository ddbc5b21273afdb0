//! Cases of the crates `gix_object_commit`, its lines and tokens, and `gix_object_hash`.

mod edits;
mod fields;
mod hashing;
mod messages;
mod signing;

use crate::written::show_object;
use case_words::{Case, Page};
use gix_object_commit::{Commit, CommitRef};
use std::alloc::Global;

/// Adds what the operation gives.
pub fn put_answer(alloc: Global, operation: &str, case: &Case, page: &mut Page) {
    match operation {
        "signature" => signing::signature(alloc, case, page),
        "blob" => hashing::blob(alloc, case, page),
        "hash" => hashing::hash(case, page),
        "stream" => hashing::stream(case, page),
        _ => match CommitRef::from_bytes(alloc, case.text(0), case.kind) {
            Ok(commit) => put_of_commit(alloc, operation, commit, case, page),
            Err(error) => page.refused(error),
        },
    }
}

// The operations on a commit that is read whole.
fn put_of_commit<'a>(
    alloc: Global,
    operation: &str,
    commit: CommitRef<'a>,
    case: &'a Case,
    page: &mut Page,
) {
    match operation {
        "read" => fields::show_fields(&commit, page),
        "write" => show_object(alloc, case.kind, &commit, page),
        "own" => put_owned(alloc, case.kind, commit, page),
        "message" => messages::parts(&commit, page),
        "trailers" => messages::trailers(&commit, page),
        "sign" => signing::sign(alloc, commit, case, page),
        "with-time" => edits::time(alloc, commit, case, page),
        _ => edits::change(alloc, operation, commit, case, page),
    }
}

// The length and the id of what is written of a commit that owns its parts, and whether one that
// was given is the same as one that was lent.
fn put_owned(alloc: Global, kind: gix_hash::Kind, commit: CommitRef<'_>, page: &mut Page) {
    let Ok(lent) = commit.to_owned() else {
        return page.text("not owned");
    };
    match commit.into_owned() {
        Ok(given) => put_alike(alloc, kind, &given, &lent, page),
        Err(_) => page.text("not owned"),
    }
}

fn put_alike(alloc: Global, kind: gix_hash::Kind, given: &Commit, lent: &Commit, page: &mut Page) {
    show_object(alloc, kind, given, page);
    page.text(if lent == given {
        " alike"
    } else {
        " different"
    });
}
