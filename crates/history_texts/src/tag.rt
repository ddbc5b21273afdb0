//! Tags of the store, which are `gix_object`'s: made, written, and the id of the object that one names.
ghost use Rattle.std.specs.Prelude.{◌≡◌, ◌≢◌, List, [], ℕ, None, IfOk, IsTrue, MatchOption};
ghost use Rattle.gix_hash.specs.Id.{Id, id_of};
ghost use Rattle.gix_hash.specs.declared.kind.Kind as hash;
ghost use Rattle.gix_object_lines.specs.declared.kind.Kind.TheVariants as objects;
ghost use Rattle.gix_object_tag.specs.OwnedText.{is_bad_actor, own_parts};
ghost use Rattle.gix_object_tag.specs.TagText.{tag_refusal, tag_text};
ghost use Rattle.gix_object_tag.specs.Tokens.{IsIdLine};
ghost use Rattle.history_model.specs.Forms.{is_tag_form};
ghost use Rattle.history_model.specs.Objects.{TagValue, tag_content};
ghost use Rattle.history_texts.specs.Actors.{HasActorForm};
ghost use Rattle.history_texts.specs.Formats.{actor_of, own_actor};
ghost use Rattle.history_texts.specs.Tags.{SaysTag};

use crate::actor::Actor;
use gix_hash::{Kind, ObjectId};
use gix_object_lines::write::Error as WriteToError;
use gix_object_lines::{ByteString, Kind as ObjectKind, WriteTo};
use gix_object_tag::{Tag, TagRefIter};
use std::alloc::{AllocError, Global};

/// Returns the id of the object that a tag's content names on its first line, in digits of either
/// letter case; `None` if there is no such line. It takes no memory, and reads nothing after that
/// line.
pub fn tag_target(kind: Kind, content: &[u8]) -> Option<ObjectId>
    ensures told { MatchOption result
        ((id : Id) (rest : List ℕ) → ¬ IsIdLine kind content.now id rest)
        (λ target. (rest : List ℕ) × IsIdLine kind content.now (id_of target) rest) }
    ensures read { (value : TagValue) → IsTrue (is_tag_form kind value)
        → content.now ≡ tag_content value
        → MatchOption result ⊥ (λ target. id_of target ≡ value.target) }
{
    TagRefIter::from_bytes(content, kind).target_id().ok()
}

// Most tags' texts have no more bytes, and grow no further.
const USUAL_LENGTH: usize = 512;

/// Returns the content of the tag of a commit with this name and tagger, and after its lines the
/// message as it is; `None` if the lines can't be written, as with a name that no tag has.
///
/// An armor in the message is no signature here; `gix_object` would want it apart.
pub fn tag_bytes(
    alloc: Global,
    target: ObjectId,
    name: Vec<u8>,
    tagger: Actor,
    message: &[u8],
) -> Result<Option<Vec<u8>>, AllocError>
    ensures { (kind : hash.Kind) (value : TagValue)
        → SaysTag kind target name.items tagger message.now value
        → IfOk result (λ found. MatchOption found ⊥ (λ text. text.items ≡ tag_content value)) }
{
    let lines = bare_tag(alloc, target, name, tagger);
    let Some(mut text) = content_of_tag(alloc, &lines)? else {
        return Ok(None);
    };
    text.extend_from_slice(message)?;
    Ok(Some(text))
}

// Returns the tag of a commit with these values, without a message.
fn bare_tag(alloc: Global, target: ObjectId, name: Vec<u8>, tagger: Actor) -> Tag
    ensures target { result.target ≡ target }
    ensures kind { result.target_kind ≡ objects.Commit }
    ensures name { result.name ≡ name.items }
    ensures tagger { MatchOption result.tagger ⊥
        (λ own. (own_actor own ≡ actor_of tagger) × HasActorForm own) }
    ensures message { result.message ≡ [] }
    ensures signature { result.pgp_signature ≡ None }
{
    Tag {
        target,
        target_kind: ObjectKind::Commit,
        name: ByteString::new(name),
        tagger: Some(tagger.into_own()),
        message: ByteString::new(Vec::new(alloc)),
        pgp_signature: None,
    }
}

// Returns the tag's content; `None` if a part of it can't be written.
fn content_of_tag(alloc: Global, tag: &Tag) -> Result<Option<Vec<u8>>, AllocError>
    ensures { IfOk result (λ found. MatchOption found
        (tag_refusal (own_parts tag.now) (is_bad_actor (tag.now).tagger) ≢ None)
        (λ text. (tag_refusal (own_parts tag.now) (is_bad_actor (tag.now).tagger) ≡ None)
        × (text.items ≡ tag_text (own_parts tag.now)))) }
{
    let mut text = Vec::with_capacity(alloc, USUAL_LENGTH)?;
    match tag.write_to(&mut text) {
        Ok(()) => Ok(Some(text)),
        Err(WriteToError::Writer(_)) => Err(AllocError),
        Err(_) => Ok(None),
    }
}
