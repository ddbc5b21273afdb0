//! Commits read whole.

use crate::written::show_actor;
use case_words::Page;
use gix_object_commit::CommitRef;

/// Adds the parts of a commit as its fields hold them.
pub fn show_fields(commit: &CommitRef<'_>, page: &mut Page) {
    page.between("tree ", commit.tree.as_bytes(), "; ");
    for parent in commit.parents.as_slice() {
        page.between("parent ", parent.as_bytes(), "; ");
    }
    show_actor("author ", commit.author, "; ", page);
    show_actor("committer ", commit.committer, "; ", page);
    if let Some(encoding) = commit.encoding {
        page.between("encoding ", encoding.as_bytes(), "; ");
    }
    for header in commit.extra_headers.as_slice() {
        page.between("header ", header.name.as_bytes(), "|");
        page.between("", header.value.as_bytes(), "; ");
    }
    page.between("message ", commit.message.as_bytes(), "");
}
