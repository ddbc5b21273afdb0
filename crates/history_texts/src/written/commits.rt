//! Commits in written form: the tree and parents that one names, its limits, and whether an id occurs twice.
ghost use Rattle.std.specs.Prelude.{◌≡◌, ◌&&◌, ◌∷◌, IfOk, List, MatchOption, length, map, nat_le, not};
ghost use Rattle.gix_hash.specs.Id.{id_of};
ghost use Rattle.gix_hash.specs.Order.{id_eq};
ghost use Rattle.gix_object_commit.specs.Views as views;
ghost use Rattle.gix_object_lines.specs.declared.kind.Kind.TheVariants as kinds;
ghost use Rattle.history_model.specs.Bytes.{has_twice};
ghost use Rattle.history_model.specs.Forms.{max_parents, max_title, title};
ghost use Rattle.history_texts.specs.IdLists.{is_one_of};
ghost use Rattle.history_texts.specs.Written.{NamesByCommit, NamesByParts, Naming, naming_of};

use crate::commit::commit_of;
use crate::written::{Named, title};
use gix_hash::{Kind, ObjectId};
use gix_object_commit::{Commit, CommitRef};
use gix_object_lines::Kind as ObjectKind;
use gix_object_lines::decode::Error;
use history_model::limits::{MAX_PARENTS, MAX_TITLE};
use std::alloc::{AllocError, Global};

/// Returns the objects that a commit's content names; `None` if it isn't in written form.
pub(crate) fn named_by_commit(
    alloc: Global,
    digests: Kind,
    content: &[u8],
) -> Result<Option<Vec<Named>>, AllocError>
    ensures { IfOk result (λ found. MatchOption found
        ((named : List Naming) → NamesByCommit digests content.now named → ⊥)
        (λ named. NamesByCommit digests content.now (map naming_of named.items))) }
{
    match CommitRef::from_bytes(alloc, content, digests) {
        Ok(parts) => named_by_parts(alloc, digests, &parts),
        Err(fault) => match fault {
            Error::Memory => Err(AllocError),
            _ => Ok(None),
        },
    }
}

// Returns the objects that a commit's parts name; `None` if they aren't those of one in written
// form.
fn named_by_parts(
    alloc: Global,
    digests: Kind,
    parts: &CommitRef<'_>,
) -> Result<Option<Vec<Named>>, AllocError>
    ensures { IfOk result (λ found. MatchOption found
        ((named : List Naming) → NamesByParts digests (views.parts_of parts.now) named → ⊥)
        (λ named. NamesByParts digests (views.parts_of parts.now) (map naming_of named.items))) }
{
    let Some(commit) = commit_of(alloc, digests, parts)? else {
        return Ok(None);
    };
    if is_within_limits(&commit) {
        Ok(Some(names_of(alloc, &commit)?))
    } else {
        Ok(None)
    }
}

fn is_within_limits(commit: &Commit) -> bool
    ensures { result ≡ (nat_le (length (map id_of commit.now.parents.items)) max_parents
        && not (has_twice id_eq (map id_of commit.now.parents.items))
        && nat_le (length (title commit.now.message)) max_title) }
{
    commit.parents.len() <= MAX_PARENTS
        && !has_twice(commit.parents.as_slice())
        && title(commit.message.as_bytes()).len() <= MAX_TITLE
}

/// Returns whether one of the ids occurs twice.
pub fn has_twice(ids: &[ObjectId]) -> bool
    ensures { result ≡ has_twice id_eq (map id_of ids.now) }
{
    let mut rest = ids;
    'ids: while let Some((id, others)) = rest.split_first() {
        if is_among(others, id) {
            return true;
        }
        rest = others;
    }
    false
}

fn is_among(ids: &[ObjectId], id: &ObjectId) -> bool
    ensures { result ≡ is_one_of ids.now (id_of id.now) }
{
    ids.iter().any(|other| id == other)
}

// Returns its tree, and its parents in order.
fn names_of(alloc: Global, commit: &Commit) -> Result<Vec<Named>, AllocError>
    ensures { IfOk result (λ named. map naming_of named.items
        ≡ (id_of commit.now.tree, kinds.Tree)
        ∷ map (λ parent. (parent, kinds.Commit)) (map id_of commit.now.parents.items)) }
{
    let mut names = Vec::new(alloc);
    names.push(Named {
        id: commit.tree,
        kind: ObjectKind::Tree,
    })?;
    for parent in commit.parents.as_slice() {
        names.push(Named {
            id: *parent,
            kind: ObjectKind::Commit,
        })?;
    }
    Ok(names)
}
