//! Commits of the store, which are `gix_object`'s: made of values, written, parsed, and the tree that one names.
ghost use Rattle.std.specs.Prelude.{◌≡◌, ◌≢◌, ◌↔◌, ℕ, List, codes, None, map, IfOk, IfSome, IfNone, MatchOption, IsTrue, IsFalse};
ghost use Rattle.std.specs.List.{list_all};
ghost use Rattle.bstr.specs.BStr.{bstr_bytes};
ghost use Rattle.gix_hash.specs.Id.{Id, id_of};
ghost use Rattle.gix_hash.specs.Kind.{hex_len};
ghost use Rattle.gix_hash.specs.declared.kind.Kind as hash;
ghost use Rattle.gix_object_commit.specs.Commit.{Parts, SpellsCommit, commit_text};
ghost use Rattle.gix_object_commit.specs.Tokens.{IsIdLine};
ghost use Rattle.gix_object_commit.specs.OwnedText.{own_parts, own_refusal};
ghost use Rattle.gix_object_commit.specs.Views as views;
ghost use Rattle.history_model.specs.Forms.{is_id, is_commit_form};
ghost use Rattle.history_model.specs.Objects.{CommitValue, hex, commit_content, folder_id};
ghost use Rattle.history_texts.specs.Commits.{SaysCommit, IsPlain, IsPlainCommit, TellsNoMore, has_ids_of};
ghost use Rattle.history_texts.specs.Formats.{actor_of, own_actor, parts_of};

use crate::actor::Actor;
use crate::id_text::parse_lower_hex;
use bstr::BStr;
use gix_hash::{Kind, ObjectId};
use gix_object_commit::{Commit, CommitRef, CommitRefIter};
use gix_object_lines::decode::Error;
use gix_object_lines::write::Error as WriteToError;
use gix_object_lines::{ByteString, WriteTo};
use smallvec::SmallVec;
use std::alloc::{AllocError, Global};

/// Returns the commit with these values, with no encoding and no further headers. It takes no
/// memory.
pub fn plain_commit(
    alloc: Global,
    tree: ObjectId,
    parents: Vec<ObjectId>,
    author: Actor,
    committer: Actor,
    message: Vec<u8>,
) -> Commit
    ensures tree { result.tree ≡ tree }
    ensures parents { result.parents.items ≡ parents.items }
    ensures author { own_actor result.author ≡ actor_of author }
    ensures committer { own_actor result.committer ≡ actor_of committer }
    ensures message { result.message ≡ message.items }
    ensures plain { (kind : hash.Kind) → IsTrue (has_ids_of kind result)
        → IsPlainCommit kind result }
{
    Commit {
        tree,
        parents: SmallVec::from_vec(parents),
        author: author.into_own(),
        committer: committer.into_own(),
        encoding: None,
        message: ByteString::new(message),
        extra_headers: Vec::new(alloc),
    }
}

// Most commits' texts have no more bytes, and grow no further.
const USUAL_LENGTH: usize = 512;

/// Returns the commit's content; `None` if a part of it can't be written, as with ids of two kinds.
pub fn commit_bytes(alloc: Global, commit: &Commit) -> Result<Option<Vec<u8>>, AllocError>
    ensures { IfOk result (λ found. MatchOption found (own_refusal commit.now ≢ None)
        (λ text. (own_refusal commit.now ≡ None)
        × (text.items ≡ commit_text (own_parts commit.now)))) }
{
    let mut text = Vec::with_capacity(alloc, USUAL_LENGTH)?;
    match commit.write_to(&mut text) {
        Ok(()) => Ok(Some(text)),
        Err(WriteToError::Writer(_)) => Err(AllocError),
        Err(_) => Ok(None),
    }
}

/// Returns the commit that a content spells, with ids of this kind; `None` if it spells none: ids
/// are in lower-case hex, both actors are as `Actor` has them, and there is no encoding and no
/// further header.
pub fn parse_commit(alloc: Global, kind: Kind, content: &[u8]) -> Result<Option<Commit>, AllocError>
    ensures spelled { IfOk result (λ found. IfSome found
        (λ commit. SpellsCommit (hex_len kind) content.now (parts_of commit))) }
    ensures plain { IfOk result (λ found. IfSome found (IsPlainCommit kind)) }
    ensures none { IfOk result (λ found. IfNone found
        ((parts : Parts) → SpellsCommit (hex_len kind) content.now parts
        → ¬ IsPlain kind parts)) }
    ensures read { IfOk result (λ found. (value : CommitValue)
        → IsTrue (is_commit_form kind value) → content.now ≡ commit_content kind value
        → MatchOption found ⊥ (λ commit. SaysCommit kind commit value)) }
{
    match CommitRef::from_bytes(alloc, content, kind) {
        Ok(parts) => commit_of(alloc, kind, &parts),
        Err(fault) => match fault {
            Error::Memory => Err(AllocError),
            _ => Ok(None),
        },
    }
}

/// Returns the tree that the first line of a commit's content names, in digits of either letter
/// case; `None` if there is no such line. It takes no memory, and reads nothing after that line.
pub fn commit_tree(kind: Kind, content: &[u8]) -> Option<ObjectId>
    ensures told { MatchOption result
        ((id : Id) (rest : List ℕ) → ¬ IsIdLine kind (codes "tree") content.now id rest)
        (λ tree. (rest : List ℕ) × IsIdLine kind (codes "tree") content.now (id_of tree) rest) }
    ensures read { (value : CommitValue) → IsTrue (is_commit_form kind value)
        → content.now ≡ commit_content kind value
        → MatchOption result ⊥ (λ tree. id_of tree ≡ folder_id kind value.files) }
{
    CommitRefIter::from_bytes(content, kind).tree_id().ok()
}

// Returns the commit of these parts; `None` if they aren't all as this crate writes them.
pub(crate) fn commit_of(
    alloc: Global,
    kind: Kind,
    parts: &CommitRef<'_>,
) -> Result<Option<Commit>, AllocError>
    ensures { IfOk result (λ found. MatchOption found (¬ IsPlain kind (views.parts_of parts.now))
        (λ commit. (views.parts_of parts.now ≡ parts_of commit)
        × IsPlainCommit kind commit)) }
{
    if tells_more(parts) {
        return Ok(None);
    }
    let Some(tree) = parse_lower_hex(kind, parts.tree.as_bytes()) else {
        return Ok(None);
    };
    let Some(parents) = ids_of(alloc, kind, parts.parents.as_slice())? else {
        return Ok(None);
    };
    let Some(author) = Actor::from_ref(alloc, parts.author)? else {
        return Ok(None);
    };
    let Some(committer) = Actor::from_ref(alloc, parts.committer)? else {
        return Ok(None);
    };
    let message = Vec::from_slice(alloc, parts.message.as_bytes())?;
    Ok(Some(plain_commit(alloc, tree, parents, author, committer, message)))
}

// Returns whether the parts have what no commit of the store has: an encoding, or further headers.
fn tells_more(parts: &CommitRef<'_>) -> bool
    ensures { IsFalse result ↔ TellsNoMore (views.parts_of parts.now) }
{
    parts.encoding.is_some() || !parts.extra_headers.is_empty()
}

// Returns the ids that these texts spell; `None` if one of them spells none.
fn ids_of(
    alloc: Global,
    kind: Kind,
    texts: &[BStr<'_>],
) -> Result<Option<Vec<ObjectId>>, AllocError>
    ensures { IfOk result (λ found. MatchOption found
        ((ids : List Id) → IsTrue (list_all (is_id kind) ids)
        → map bstr_bytes texts.now ≢ map hex ids)
        (λ ids. IsTrue (list_all (is_id kind) (map id_of ids.items))
        × (map bstr_bytes texts.now ≡ map hex (map id_of ids.items)))) }
{
    let mut ids = Vec::new(alloc);
    for text in texts {
        let Some(id) = parse_lower_hex(kind, text.as_bytes()) else {
            return Ok(None);
        };
        ids.push(id)?;
    }
    Ok(Some(ids))
}
