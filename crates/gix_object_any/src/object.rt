//! Objects of any kind.

ghost use Rattle.std.specs.Prelude.{◌≡◌, ◌≢◌, MatchOption};
ghost use Rattle.gix_object_lines.specs.declared.kind.Kind.TheVariants as kinds;
ghost use Rattle.gix_object_any.specs.Object.{kind_of};
ghost use Rattle.gix_object_any.specs.Views.{value_of};
ghost use Rattle.gix_object_any.specs.declared.object.ObjectRef.TheVariants as object;

mod convert;
mod decode;
mod write;

use gix_object_commit::CommitRef;
use gix_object_hash::BlobRef;
use gix_object_lines::Kind;
use gix_object_lines::decode::{Error, LooseHeaderDecodeError};
use gix_object_tag::TagRef;
use gix_object_tree::TreeRef;
use std::convert::TryFrom;

/// An object whose parts are borrowed from its content.
#[derive(Debug, Drop, PartialEq, Eq)]
pub enum ObjectRef<'a> {
    /// The content of a file.
    Blob(BlobRef<'a>),
    /// The entries of a folder.
    Tree(TreeRef<'a>),
    /// A tree with its history.
    Commit(CommitRef<'a>),
    /// A name and a message for another object.
    Tag(TagRef<'a>),
}

/// Why bytes are no loose object.
#[derive(Debug, Clone, Copy, PartialEq, Eq, thiserror::Error)]
pub enum LooseDecodeError {
    /// No header begins the bytes.
    #[error("the bytes don't begin with an object's header")]
    InvalidHeader(LooseHeaderDecodeError),
    /// What follows the header is shorter or longer than the header says.
    #[error("the content is shorter or longer than its header says")]
    ContentLength,
    /// What follows the header isn't read as content of the kind.
    #[error("what follows the header isn't the object's content")]
    InvalidContent(Error),
    /// No memory is left.
    #[error("out of memory")]
    OutOfMemory,
}

impl<'a> ObjectRef<'a> {
    /// The object's kind.
    pub fn kind(&self) -> Kind
        ensures { result ≡ kind_of (value_of self.now) }
    {
        match self {
            ObjectRef::Blob(_) => Kind::Blob,
            ObjectRef::Tree(_) => Kind::Tree,
            ObjectRef::Commit(_) => Kind::Commit,
            ObjectRef::Tag(_) => Kind::Tag,
        }
    }

    /// The blob; `None` if the object is of another kind.
    pub fn as_blob(&self) -> Option<&BlobRef<'a>>
        ensures { MatchOption result (kind_of (value_of self.now) ≢ kinds.Blob)
            (λ blob. self.now ≡ object.Blob blob.now) }
    {
        match self {
            ObjectRef::Blob(blob) => Some(blob),
            ObjectRef::Tree(_) | ObjectRef::Commit(_) | ObjectRef::Tag(_) => None,
        }
    }

    /// The tree; `None` if the object is of another kind.
    pub fn as_tree(&self) -> Option<&TreeRef<'a>>
        ensures { MatchOption result (kind_of (value_of self.now) ≢ kinds.Tree)
            (λ tree. self.now ≡ object.Tree tree.now) }
    {
        match self {
            ObjectRef::Tree(tree) => Some(tree),
            ObjectRef::Blob(_) | ObjectRef::Commit(_) | ObjectRef::Tag(_) => None,
        }
    }

    /// The commit; `None` if the object is of another kind.
    pub fn as_commit(&self) -> Option<&CommitRef<'a>>
        ensures { MatchOption result (kind_of (value_of self.now) ≢ kinds.Commit)
            (λ commit. self.now ≡ object.Commit commit.now) }
    {
        match self {
            ObjectRef::Commit(commit) => Some(commit),
            ObjectRef::Blob(_) | ObjectRef::Tree(_) | ObjectRef::Tag(_) => None,
        }
    }

    /// The tag; `None` if the object is of another kind.
    pub fn as_tag(&self) -> Option<&TagRef<'a>>
        ensures { MatchOption result (kind_of (value_of self.now) ≢ kinds.Tag)
            (λ tag. self.now ≡ object.Tag tag.now) }
    {
        match self {
            ObjectRef::Tag(tag) => Some(tag),
            ObjectRef::Blob(_) | ObjectRef::Tree(_) | ObjectRef::Commit(_) => None,
        }
    }

    /// The blob itself; `None` if the object is of another kind.
    pub fn into_blob(self) -> Option<BlobRef<'a>>
        ensures { MatchOption result (kind_of (value_of self.entry) ≢ kinds.Blob)
            (λ blob. self.entry ≡ object.Blob blob) }
    {
        BlobRef::try_from(self).ok()
    }

    /// The tree itself; `None` if the object is of another kind.
    pub fn into_tree(self) -> Option<TreeRef<'a>>
        ensures { MatchOption result (kind_of (value_of self.entry) ≢ kinds.Tree)
            (λ tree. self.entry ≡ object.Tree tree) }
    {
        TreeRef::try_from(self).ok()
    }

    /// The commit itself; `None` if the object is of another kind.
    pub fn into_commit(self) -> Option<CommitRef<'a>>
        ensures { MatchOption result (kind_of (value_of self.entry) ≢ kinds.Commit)
            (λ commit. self.entry ≡ object.Commit commit) }
    {
        CommitRef::try_from(self).ok()
    }

    /// The tag itself; `None` if the object is of another kind.
    pub fn into_tag(self) -> Option<TagRef<'a>>
        ensures { MatchOption result (kind_of (value_of self.entry) ≢ kinds.Tag)
            (λ tag. self.entry ≡ object.Tag tag) }
    {
        TagRef::try_from(self).ok()
    }
}
