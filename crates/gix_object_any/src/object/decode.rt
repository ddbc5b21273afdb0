//! Reading objects.

ghost use Rattle.std.specs.Prelude.{◌≡◌, ◌⊎◌, ◌++◌, ℕ, List, IfOk, IfErr, MatchOption, MatchResult, length};
ghost use Rattle.gix_object_lines.specs.declared.decode.Error.TheVariants.{Memory};
ghost use Rattle.gix_object_lines.specs.declared.kind.Kind.{Kind};
ghost use Rattle.gix_object_lines.specs.declared.kind.Kind.TheVariants as kinds;
ghost use Rattle.gix_object_any.specs.Loose.{IsLoose, LooseFault, CutFault, loose_text};
ghost use Rattle.gix_object_any.specs.Object.{Value, Tells, ContentFault};
ghost use Rattle.gix_object_any.specs.Views.{value_of};
ghost use Rattle.gix_object_any.specs.declared.object.LooseDecodeError.TheVariants.{OutOfMemory};

use crate::object::{LooseDecodeError, ObjectRef};
use gix_object_commit::CommitRef;
use gix_object_hash::BlobRef;
use gix_object_lines::Kind;
use gix_object_lines::decode::{Error, loose_header};
use gix_object_tag::TagRef;
use gix_object_tree::TreeRef;
use std::alloc::Global;

impl<'a> ObjectRef<'a> {
    /// The object that the bytes are: a header, and then as many bytes of content as it says, its
    /// ids of this hash function.
    ///
    /// Returns `InvalidHeader` if no header begins the bytes; `ContentLength` if fewer or more bytes
    /// follow the header than it says, neither of which git-fsck lets pass; `InvalidContent` with
    /// an error of `from_bytes` if the content isn't read; and `OutOfMemory` if no memory is left
    /// for a tree's entries or a commit's parts.
    pub fn from_loose(
        alloc: Global,
        bytes: &'a [u8],
        hash_kind: gix_hash::Kind,
    ) -> Result<ObjectRef<'a>, LooseDecodeError>
        ensures read { IfOk result (λ object. IsLoose hash_kind bytes.now (value_of object)) }
        ensures every { (value : Value) → IsLoose hash_kind bytes.now value
            → MatchResult result (λ object. value_of object ≡ value)
            (λ fault. fault ≡ OutOfMemory) }
        ensures refused { IfErr result (λ fault. LooseFault hash_kind bytes.now fault) }
    {
        let (kind, content) = split_loose(bytes)?;
        match ObjectRef::from_bytes(alloc, kind, content, hash_kind) {
            Ok(object) => Ok(object),
            Err(Error::Memory) => Err(LooseDecodeError::OutOfMemory),
            Err(error) => Err(LooseDecodeError::InvalidContent(error)),
        }
    }

    /// The object of this kind that the content spells, its ids of this hash function.
    ///
    /// Any bytes are a blob. The errors of a tree, a commit and a tag are those of their readers,
    /// `Memory` only a tree's or a commit's.
    pub fn from_bytes(
        alloc: Global,
        kind: Kind,
        content: &'a [u8],
        hash_kind: gix_hash::Kind,
    ) -> Result<ObjectRef<'a>, Error>
        ensures read { IfOk result (λ object. Tells hash_kind kind content.now (value_of object)) }
        ensures every { (value : Value) → Tells hash_kind kind content.now value
            → MatchResult result (λ object. value_of object ≡ value)
            (λ fault. ((kind ≡ kinds.Tree) ⊎ (kind ≡ kinds.Commit)) × (fault ≡ Memory)) }
        ensures refused { IfErr result (λ fault. ContentFault hash_kind kind content.now fault) }
    {
        match kind {
            Kind::Blob => Ok(ObjectRef::Blob(BlobRef::from_bytes(content))),
            Kind::Tree => Ok(ObjectRef::Tree(TreeRef::from_bytes(alloc, content, hash_kind)?)),
            Kind::Commit => Ok(ObjectRef::Commit(CommitRef::from_bytes(
                alloc, content, hash_kind,
            )?)),
            Kind::Tag => Ok(ObjectRef::Tag(TagRef::from_bytes(content, hash_kind)?)),
        }
    }
}

// The kind that a loose object's header names, and its content.
fn split_loose(bytes: &[u8]) -> Result<(Kind, &[u8]), LooseDecodeError>
    ensures read { IfOk result (λ object. bytes.now ≡ loose_text object.0 object.1.now) }
    ensures every { (kind : Kind) (content : List ℕ) → bytes.now ≡ loose_text kind content
        → MatchResult result (λ object. (object.0 ≡ kind) × (object.1.now ≡ content)) (λ _. ⊥) }
    ensures refused { IfErr result (λ fault. CutFault bytes.now fault) }
{
    let (kind, size, header) = loose_header(bytes).map_err(LooseDecodeError::InvalidHeader)?;
    let content = &bytes[header..];
    if content.len() as u64 != size {
        return Err(LooseDecodeError::ContentLength);
    }
    Ok((kind, content))
}
