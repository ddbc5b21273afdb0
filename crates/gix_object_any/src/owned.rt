//! Objects that own their parts.

ghost use Rattle.std.specs.Prelude.{◌≡◌, ◌≢◌, IfOk, IfErr, MatchOption, MatchResult};
ghost use Rattle.gix_object_lines.specs.declared.kind.Kind.TheVariants as kinds;
ghost use Rattle.gix_object_any.specs.Object as value;
ghost use Rattle.gix_object_any.specs.Object.{kind_of};
ghost use Rattle.gix_object_any.specs.Owned.{own_value, IsOwned, OwningFault};
ghost use Rattle.gix_object_any.specs.Views.{value_of};
ghost use Rattle.gix_object_any.specs.declared.owned.Object.TheVariants as object;

mod convert;
mod write;

use crate::ObjectRef;
use gix_object_commit::Commit;
use gix_object_hash::{Blob, BlobRef};
use gix_object_lines::Kind;
use gix_object_lines::decode::Error;
use gix_object_tag::Tag;
use gix_object_tree::Tree;
use std::alloc::Global;
use std::convert::TryFrom;

/// An object.
#[derive(Debug, Drop, PartialEq, Eq)]
pub enum Object {
    /// The content of a file.
    Blob(Blob),
    /// The entries of a folder.
    Tree(Tree),
    /// A tree with its history.
    Commit(Commit),
    /// A name and a message for another object.
    Tag(Tag),
}

impl Object {
    /// The object's kind.
    pub fn kind(&self) -> Kind
        ensures { result ≡ kind_of (own_value self.now) }
    {
        match self {
            Object::Blob(_) => Kind::Blob,
            Object::Tree(_) => Kind::Tree,
            Object::Commit(_) => Kind::Commit,
            Object::Tag(_) => Kind::Tag,
        }
    }

    /// The blob; `None` if the object is of another kind.
    pub fn as_blob(&self) -> Option<&Blob>
        ensures { MatchOption result (kind_of (own_value self.now) ≢ kinds.Blob)
            (λ blob. self.now ≡ object.Blob blob.now) }
    {
        match self {
            Object::Blob(blob) => Some(blob),
            Object::Tree(_) | Object::Commit(_) | Object::Tag(_) => None,
        }
    }

    /// The tree; `None` if the object is of another kind.
    pub fn as_tree(&self) -> Option<&Tree>
        ensures { MatchOption result (kind_of (own_value self.now) ≢ kinds.Tree)
            (λ tree. self.now ≡ object.Tree tree.now) }
    {
        match self {
            Object::Tree(tree) => Some(tree),
            Object::Blob(_) | Object::Commit(_) | Object::Tag(_) => None,
        }
    }

    /// The commit; `None` if the object is of another kind.
    pub fn as_commit(&self) -> Option<&Commit>
        ensures { MatchOption result (kind_of (own_value self.now) ≢ kinds.Commit)
            (λ commit. self.now ≡ object.Commit commit.now) }
    {
        match self {
            Object::Commit(commit) => Some(commit),
            Object::Blob(_) | Object::Tree(_) | Object::Tag(_) => None,
        }
    }

    /// The tag; `None` if the object is of another kind.
    pub fn as_tag(&self) -> Option<&Tag>
        ensures { MatchOption result (kind_of (own_value self.now) ≢ kinds.Tag)
            (λ tag. self.now ≡ object.Tag tag.now) }
    {
        match self {
            Object::Tag(tag) => Some(tag),
            Object::Blob(_) | Object::Tree(_) | Object::Commit(_) => None,
        }
    }

    /// The blob itself, or the object if it is of another kind.
    pub fn try_into_blob(self) -> Result<Blob, Object>
        ensures { MatchResult result (λ blob. self ≡ object.Blob blob)
            (λ back. (back ≡ self) × (kind_of (own_value self) ≢ kinds.Blob)) }
    {
        Blob::try_from(self)
    }

    /// The blob, borrowed; `None` if the object is of another kind.
    pub fn try_into_blob_ref(&self) -> Option<BlobRef<'_>>
        ensures { MatchOption result (kind_of (own_value self.now) ≢ kinds.Blob)
            (λ blob. value.Blob blob.content.now ≡ own_value self.now) }
    {
        Some(self.as_blob()?.to_ref())
    }

    /// The tree itself, or the object if it is of another kind.
    pub fn try_into_tree(self) -> Result<Tree, Object>
        ensures { MatchResult result (λ tree. self ≡ object.Tree tree)
            (λ back. (back ≡ self) × (kind_of (own_value self) ≢ kinds.Tree)) }
    {
        Tree::try_from(self)
    }

    /// The commit itself, or the object if it is of another kind.
    pub fn try_into_commit(self) -> Result<Commit, Object>
        ensures { MatchResult result (λ commit. self ≡ object.Commit commit)
            (λ back. (back ≡ self) × (kind_of (own_value self) ≢ kinds.Commit)) }
    {
        Commit::try_from(self)
    }

    /// The tag itself, or the object if it is of another kind.
    pub fn try_into_tag(self) -> Result<Tag, Object>
        ensures { MatchResult result (λ tag. self ≡ object.Tag tag)
            (λ back. (back ≡ self) × (kind_of (own_value self) ≢ kinds.Tag)) }
    {
        Tag::try_from(self)
    }

    /// The blob itself. The object must be of this kind.
    pub fn into_blob(self) -> Blob
        requires { kind_of (own_value self) ≡ kinds.Blob }
        ensures { self ≡ object.Blob result }
    {
        self.try_into_blob().unwrap()
    }

    /// The tree itself. The object must be of this kind.
    pub fn into_tree(self) -> Tree
        requires { kind_of (own_value self) ≡ kinds.Tree }
        ensures { self ≡ object.Tree result }
    {
        self.try_into_tree().unwrap()
    }

    /// The commit itself. The object must be of this kind.
    pub fn into_commit(self) -> Commit
        requires { kind_of (own_value self) ≡ kinds.Commit }
        ensures { self ≡ object.Commit result }
    {
        self.try_into_commit().unwrap()
    }

    /// The tag itself. The object must be of this kind.
    pub fn into_tag(self) -> Tag
        requires { kind_of (own_value self) ≡ kinds.Tag }
        ensures { self ≡ object.Tag result }
    {
        self.try_into_tag().unwrap()
    }
}

impl<'a> ObjectRef<'a> {
    /// The object with copies of its parts: see `to_owned`.
    pub fn into_owned(self, alloc: Global) -> Result<Object, Error>
        ensures own { IfOk result (IsOwned (value_of self.entry)) }
        ensures refused { IfErr result (OwningFault (value_of self.entry)) }
    {
        self.to_owned(alloc)
    }

    /// An object with copies of the parts. Returns `HexDigits` if a commit's or tag's id is no id's
    /// digits, and `InvalidTime` if an actor has no time; neither happens for an object that was
    /// read. Returns `Memory` if no memory is left.
    pub fn to_owned(&self, alloc: Global) -> Result<Object, Error>
        ensures own { IfOk result (IsOwned (value_of self.now)) }
        ensures refused { IfErr result (OwningFault (value_of self.now)) }
    {
        match self {
            ObjectRef::Blob(blob) => match blob.into_owned(alloc) {
                Ok(blob) => Ok(Object::Blob(blob)),
                Err(_) => Err(Error::Memory),
            },
            ObjectRef::Tree(tree) => match tree.to_owned() {
                Ok(tree) => Ok(Object::Tree(tree)),
                Err(_) => Err(Error::Memory),
            },
            ObjectRef::Commit(commit) => Ok(Object::Commit(commit.to_owned()?)),
            ObjectRef::Tag(tag) => Ok(Object::Tag(tag.into_owned(alloc)?)),
        }
    }
}
