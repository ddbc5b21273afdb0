//! Conversions between objects and their kinds.

ghost use Rattle.std.specs.Prelude.{◌≡◌, ◌≢◌, MatchResult};
ghost use Rattle.gix_object_lines.specs.declared.kind.Kind.TheVariants as kinds;
ghost use Rattle.gix_object_any.specs.Object.{kind_of};
ghost use Rattle.gix_object_any.specs.Views.{value_of};
ghost use Rattle.gix_object_any.specs.declared.object.ObjectRef.TheVariants as object;

use crate::object::ObjectRef;
use gix_object_commit::CommitRef;
use gix_object_hash::BlobRef;
use gix_object_tag::TagRef;
use gix_object_tree::TreeRef;
use std::convert::TryFrom;

impl<'a> From<BlobRef<'a>> for ObjectRef<'a> {
    ghost from_gives = { λ blob given. given ≡ object.Blob blob };

    fn from(blob: BlobRef<'a>) -> ObjectRef<'a> {
        ObjectRef::Blob(blob)
    }
}

impl<'a> From<TreeRef<'a>> for ObjectRef<'a> {
    ghost from_gives = { λ tree given. given ≡ object.Tree tree };

    fn from(tree: TreeRef<'a>) -> ObjectRef<'a> {
        ObjectRef::Tree(tree)
    }
}

impl<'a> From<CommitRef<'a>> for ObjectRef<'a> {
    ghost from_gives = { λ commit given. given ≡ object.Commit commit };

    fn from(commit: CommitRef<'a>) -> ObjectRef<'a> {
        ObjectRef::Commit(commit)
    }
}

impl<'a> From<TagRef<'a>> for ObjectRef<'a> {
    ghost from_gives = { λ tag given. given ≡ object.Tag tag };

    fn from(tag: TagRef<'a>) -> ObjectRef<'a> {
        ObjectRef::Tag(tag)
    }
}

// An object of another kind is returned as the error.
impl<'a> TryFrom<ObjectRef<'a>> for BlobRef<'a> {
    type Error = ObjectRef<'a>;

    ghost try_from_gives = { λ given r. MatchResult r
        (λ blob. given ≡ object.Blob blob)
        (λ back. (back ≡ given) × (kind_of (value_of back) ≢ kinds.Blob)) };

    fn try_from(object: ObjectRef<'a>) -> Result<BlobRef<'a>, ObjectRef<'a>> {
        match object {
            ObjectRef::Blob(blob) => Ok(blob),
            other => Err(other),
        }
    }
}

// An object of another kind is returned as the error.
impl<'a> TryFrom<ObjectRef<'a>> for TreeRef<'a> {
    type Error = ObjectRef<'a>;

    ghost try_from_gives = { λ given r. MatchResult r
        (λ tree. given ≡ object.Tree tree)
        (λ back. (back ≡ given) × (kind_of (value_of back) ≢ kinds.Tree)) };

    fn try_from(object: ObjectRef<'a>) -> Result<TreeRef<'a>, ObjectRef<'a>> {
        match object {
            ObjectRef::Tree(tree) => Ok(tree),
            other => Err(other),
        }
    }
}

// An object of another kind is returned as the error.
impl<'a> TryFrom<ObjectRef<'a>> for CommitRef<'a> {
    type Error = ObjectRef<'a>;

    ghost try_from_gives = { λ given r. MatchResult r
        (λ commit. given ≡ object.Commit commit)
        (λ back. (back ≡ given) × (kind_of (value_of back) ≢ kinds.Commit)) };

    fn try_from(object: ObjectRef<'a>) -> Result<CommitRef<'a>, ObjectRef<'a>> {
        match object {
            ObjectRef::Commit(commit) => Ok(commit),
            other => Err(other),
        }
    }
}

// An object of another kind is returned as the error.
impl<'a> TryFrom<ObjectRef<'a>> for TagRef<'a> {
    type Error = ObjectRef<'a>;

    ghost try_from_gives = { λ given r. MatchResult r
        (λ tag. given ≡ object.Tag tag)
        (λ back. (back ≡ given) × (kind_of (value_of back) ≢ kinds.Tag)) };

    fn try_from(object: ObjectRef<'a>) -> Result<TagRef<'a>, ObjectRef<'a>> {
        match object {
            ObjectRef::Tag(tag) => Ok(tag),
            other => Err(other),
        }
    }
}
