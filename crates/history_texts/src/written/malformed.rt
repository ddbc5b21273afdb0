//! What is wrong with a commit or a tag that isn't in written form: a time before 1970, a tag of no commit.
ghost use Rattle.std.specs.Prelude.{◌≡◌, ◌↔◌, IfOk, IsTrue};
ghost use Rattle.history_texts.specs.Malformed.{IsBefore1970, IsCommitBefore1970, IsTagBefore1970, IsTagOfOther, is_before, is_type_of_other};

use crate::written::tags::{TagTexts, line_behind};
use gix_hash::Kind;
use gix_object_commit::CommitRef;
use gix_object_lines::Kind as ObjectKind;
use gix_object_lines::decode::Error;
use gix_object_lines::lines::read_actor;
use std::alloc::{AllocError, Global};

/// Returns whether the content is a commit's, by Git's format, or has the lines of a commit's tag,
/// and one of its times is before 1970: the seconds have a minus.
pub fn is_before_1970(
    alloc: Global,
    digests: Kind,
    kind: ObjectKind,
    content: &[u8],
) -> Result<bool, AllocError>
    ensures { IfOk result (λ is. IsTrue is ↔ IsBefore1970 digests kind content.now) }
{
    match kind {
        ObjectKind::Tree | ObjectKind::Blob => Ok(false),
        ObjectKind::Commit => is_commit_before_1970(alloc, digests, content),
        ObjectKind::Tag => Ok(is_tag_before_1970(content)),
    }
}

fn is_commit_before_1970(alloc: Global, digests: Kind, content: &[u8]) -> Result<bool, AllocError>
    ensures { IfOk result (λ is. IsTrue is ↔ IsCommitBefore1970 digests content.now) }
{
    match CommitRef::from_bytes(alloc, content, digests) {
        Ok(parts) => Ok(
            is_before(parts.author.time.as_bytes()) || is_before(parts.committer.time.as_bytes()),
        ),
        Err(fault) => match fault {
            Error::Memory => Err(AllocError),
            _ => Ok(false),
        },
    }
}

fn is_tag_before_1970(content: &[u8]) -> bool
    ensures { IsTrue result ↔ IsTagBefore1970 content.now }
{
    let Some(texts) = TagTexts::new(content) else {
        return false;
    };
    match read_actor(texts.tagger) {
        Ok(actor) => is_before(actor.time.as_bytes()),
        Err(_) => false,
    }
}

// Returns whether the seconds of a time have a minus.
fn is_before(time: &[u8]) -> bool
    ensures { result ≡ is_before time.now }
{
    time.starts_with(b"-")
}

/// Returns whether the content is of a tag of a blob, a tree or another tag, by its first two
/// lines.
pub fn is_tag_of_other(content: &[u8]) -> bool
    ensures { IsTrue result ↔ IsTagOfOther content.now }
{
    let Some((_, rest)) = line_behind(content, b"object ") else {
        return false;
    };
    is_type_of_other(rest)
}

// Returns whether a text begins with the line of another type than a commit's.
fn is_type_of_other(text: &[u8]) -> bool
    ensures { result ≡ is_type_of_other text.now }
{
    text.starts_with(b"type blob\n")
        || text.starts_with(b"type tree\n")
        || text.starts_with(b"type tag\n")
}
