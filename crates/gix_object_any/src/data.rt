//! The bytes of an object.

ghost use Rattle.std.specs.Prelude.{◌≡◌, ◌≢◌, ◌⊎◌, ℕ, List, Err, IfOk, IfErr, MatchOption, MatchResult};
ghost use Rattle.gix_hash.specs.Id.{id_of};
ghost use Rattle.gix_hash.specs.Hasher.{id_of_message};
ghost use Rattle.gix_hash.specs.Views.{viewed_id};
ghost use Rattle.gix_object_lines.specs.declared.decode.Error.TheVariants.{Memory};
ghost use Rattle.gix_object_lines.specs.declared.kind.Kind.TheVariants as kinds;
ghost use Rattle.gix_object_any.specs.Checks.{TellsBoth};
ghost use Rattle.gix_object_any.specs.Loose.{loose_text};
ghost use Rattle.gix_object_any.specs.Object.{Value, Tells, ContentFault};
ghost use Rattle.gix_object_any.specs.Readers.{ReadsCommit, ReadsTag, ReadsTree};
ghost use Rattle.gix_object_any.specs.Views.{value_of};

pub mod verify;

use crate::ObjectRef;
use gix_hash::{ObjectId, oid};
use gix_object_commit::CommitRefIter;
use gix_object_hash::compute_hash;
use gix_object_lines::Kind;
use gix_object_lines::decode::Error;
use gix_object_tag::TagRefIter;
use gix_object_tree::TreeRefIter;
use std::alloc::Global;

/// An object that wasn't read yet: its kind, and its content in bytes.
#[derive(Debug, Clone, Copy, PartialEq, Eq)]
pub struct Data<'a> {
    /// The object's kind.
    pub kind: Kind,
    /// The hash function of the object's id, and of the ids in its content.
    pub object_hash: gix_hash::Kind,
    /// The content, without a header.
    pub content: &'a [u8],
}

impl<'a> Data<'a> {
    /// The object of this kind and content. Whether the content is one of the kind isn't tested.
    pub fn new(kind: Kind, object_hash: gix_hash::Kind, content: &'a [u8]) -> Data<'a>
        ensures kind { result.kind ≡ kind }
        ensures object_hash { result.object_hash ≡ object_hash }
        ensures content { result.content.now ≡ content.now }
    {
        Data {
            kind,
            object_hash,
            content,
        }
    }

    /// The object that the content spells. The errors are those of `ObjectRef::from_bytes`.
    pub fn decode(&self, alloc: Global) -> Result<ObjectRef<'a>, Error>
        ensures read { IfOk result
            (λ object. Tells self.now.object_hash self.now.kind self.now.content.now
            (value_of object)) }
        ensures every { (value : Value)
            → Tells self.now.object_hash self.now.kind self.now.content.now value
            → MatchResult result (λ object. value_of object ≡ value)
            (λ fault. ((self.now.kind ≡ kinds.Tree) ⊎ (self.now.kind ≡ kinds.Commit))
            × (fault ≡ Memory)) }
        ensures refused { IfErr result
            (λ fault. ContentFault self.now.object_hash self.now.kind self.now.content.now fault) }
    {
        ObjectRef::from_bytes(alloc, self.kind, self.content, self.object_hash)
    }

    /// A reader of the tree's entries; `None` if the object is of another kind.
    pub fn try_into_tree_iter(self) -> Option<TreeRefIter<'a>>
        ensures { MatchOption result (self.entry.kind ≢ kinds.Tree)
            (λ reader. (self.entry.kind ≡ kinds.Tree)
            × ReadsTree self.entry.object_hash self.entry.content.now reader) }
    {
        match self.kind {
            Kind::Tree => Some(TreeRefIter::from_bytes(self.content, self.object_hash)),
            Kind::Blob | Kind::Commit | Kind::Tag => None,
        }
    }

    /// A reader of the commit's parts; `None` if the object is of another kind.
    pub fn try_into_commit_iter(self) -> Option<CommitRefIter<'a>>
        ensures { MatchOption result (self.entry.kind ≢ kinds.Commit)
            (λ reader. (self.entry.kind ≡ kinds.Commit)
            × ReadsCommit self.entry.object_hash self.entry.content.now reader) }
    {
        match self.kind {
            Kind::Commit => Some(CommitRefIter::from_bytes(self.content, self.object_hash)),
            Kind::Tree | Kind::Blob | Kind::Tag => None,
        }
    }

    /// A reader of the tag's parts; `None` if the object is of another kind.
    pub fn try_into_tag_iter(self) -> Option<TagRefIter<'a>>
        ensures { MatchOption result (self.entry.kind ≢ kinds.Tag)
            (λ reader. (self.entry.kind ≡ kinds.Tag)
            × ReadsTag self.entry.object_hash self.entry.content.now reader) }
    {
        match self.kind {
            Kind::Tag => Some(TagRefIter::from_bytes(self.content, self.object_hash)),
            Kind::Tree | Kind::Blob | Kind::Commit => None,
        }
    }

    /// The object's id: the digest of its header and content. Returns `Verify`, with both ids, if
    /// that isn't the expected one.
    pub fn verify_checksum(&self, expected: oid<'_>) -> Result<ObjectId, verify::Error>
        ensures { let id =
            id_of_message self.now.object_hash (loose_text self.now.kind self.now.content.now) in
            MatchResult result (λ found. (id_of found ≡ id) × (viewed_id expected.entry ≡ id))
            (λ fault. (viewed_id expected.entry ≢ id)
            × TellsBoth fault id (viewed_id expected.entry)) }
    {
        let actual = compute_hash(self.object_hash, self.kind, self.content);
        actual.as_oid().verify(expected)?;
        Ok(actual)
    }
}
