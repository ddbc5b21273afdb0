//! A commit's message, split, and its trailers.

use case_words::Page;
use gix_object_commit::CommitRef;
use gix_object_message::{SelectedTrailers, TrailerRef};

/// The title, the body and the summary.
pub fn parts(commit: &CommitRef<'_>, page: &mut Page) {
    let message = commit.message();
    page.between("title ", message.title.as_bytes(), "; ");
    page.told("body ", message.body, "; ");
    match commit.message_summary() {
        Ok(summary) => page.between("summary ", summary.as_slice(), ""),
        Err(error) => page.name(error),
    }
}

fn show_trailer(trailer: TrailerRef<'_>, page: &mut Page) {
    page.between(" ", trailer.token.as_bytes(), ": ");
    page.between("", trailer.value.as_bytes(), ";");
}

fn show_selected(word: &str, trailers: SelectedTrailers<'_>, page: &mut Page) {
    page.text(word);
    for trailer in trailers {
        show_trailer(trailer, page);
    }
}

/// The trailers, all and those of each filter.
pub fn trailers(commit: &CommitRef<'_>, page: &mut Page) {
    page.text("all");
    for trailer in commit.message_trailers() {
        show_trailer(trailer, page);
    }
    show_selected(" signed", commit.signed_off_by_trailers(), page);
    show_selected(" co-authored", commit.co_authored_by_trailers(), page);
    show_selected(" assisted", commit.assisted_by_trailers(), page);
    show_selected(" authors", commit.author_trailers(), page);
    show_selected(" attribution", commit.attribution_trailers(), page);
}
