//! Conversions between owned objects and their kinds.

ghost use Rattle.std.specs.Prelude.{◌≡◌, ◌≢◌, MatchResult};
ghost use Rattle.gix_object_lines.specs.declared.kind.Kind.TheVariants as kinds;
ghost use Rattle.gix_object_any.specs.Object.{kind_of};
ghost use Rattle.gix_object_any.specs.Owned.{own_value};
ghost use Rattle.gix_object_any.specs.declared.owned.Object.TheVariants as object;

use crate::Object;
use gix_object_commit::Commit;
use gix_object_hash::Blob;
use gix_object_tag::Tag;
use gix_object_tree::Tree;
use std::convert::TryFrom;

impl From<Blob> for Object {
    ghost from_gives = { λ blob given. given ≡ object.Blob blob };

    fn from(blob: Blob) -> Object {
        Object::Blob(blob)
    }
}

impl From<Tree> for Object {
    ghost from_gives = { λ tree given. given ≡ object.Tree tree };

    fn from(tree: Tree) -> Object {
        Object::Tree(tree)
    }
}

impl From<Commit> for Object {
    ghost from_gives = { λ commit given. given ≡ object.Commit commit };

    fn from(commit: Commit) -> Object {
        Object::Commit(commit)
    }
}

impl From<Tag> for Object {
    ghost from_gives = { λ tag given. given ≡ object.Tag tag };

    fn from(tag: Tag) -> Object {
        Object::Tag(tag)
    }
}

// An object of another kind is returned as the error.
impl TryFrom<Object> for Blob {
    type Error = Object;

    ghost try_from_gives = { λ given r. MatchResult r
        (λ blob. given ≡ object.Blob blob)
        (λ back. (back ≡ given) × (kind_of (own_value back) ≢ kinds.Blob)) };

    fn try_from(object: Object) -> Result<Blob, Object> {
        match object {
            Object::Blob(blob) => Ok(blob),
            other => Err(other),
        }
    }
}

// An object of another kind is returned as the error.
impl TryFrom<Object> for Tree {
    type Error = Object;

    ghost try_from_gives = { λ given r. MatchResult r
        (λ tree. given ≡ object.Tree tree)
        (λ back. (back ≡ given) × (kind_of (own_value back) ≢ kinds.Tree)) };

    fn try_from(object: Object) -> Result<Tree, Object> {
        match object {
            Object::Tree(tree) => Ok(tree),
            other => Err(other),
        }
    }
}

// An object of another kind is returned as the error.
impl TryFrom<Object> for Commit {
    type Error = Object;

    ghost try_from_gives = { λ given r. MatchResult r
        (λ commit. given ≡ object.Commit commit)
        (λ back. (back ≡ given) × (kind_of (own_value back) ≢ kinds.Commit)) };

    fn try_from(object: Object) -> Result<Commit, Object> {
        match object {
            Object::Commit(commit) => Ok(commit),
            other => Err(other),
        }
    }
}

// An object of another kind is returned as the error.
impl TryFrom<Object> for Tag {
    type Error = Object;

    ghost try_from_gives = { λ given r. MatchResult r
        (λ tag. given ≡ object.Tag tag)
        (λ back. (back ≡ given) × (kind_of (own_value back) ≢ kinds.Tag)) };

    fn try_from(object: Object) -> Result<Tag, Object> {
        match object {
            Object::Tag(tag) => Ok(tag),
            other => Err(other),
        }
    }
}
