//! The text of an object, a header `<kind> <length>` and the content: its id, and its header parsed.
ghost use Rattle.std.specs.Prelude.{◌≡◌, ◌≤◌, length, drop, IfSome, IfNone};
ghost use Rattle.history_model.specs.Objects.{digest, object_text};
ghost use Rattle.history_texts.specs.ObjectTexts.{IsNoObject, IsIdOf};
ghost use Rattle.gix_hash.specs.Id.{id_of};

use gix_hash::hasher::hasher;
use gix_hash::{Kind, ObjectId};
use gix_object_lines::{Kind as ObjectKind, decode, encode};

/// An object with its id, which is its text's: it is hashed when it is made, and never again.
#[derive(Drop)]
pub struct NewObject {
    pub id: ObjectId,
    pub kind: ObjectKind,
    pub content: Vec<u8>,
    pub ghost named: { IsIdOf id kind content.items },
}

impl NewObject {
    ghost use Rattle.history_texts.specs.ObjectTexts.{object_id};

    /// Returns the object of this content, with its id of this kind of digest.
    pub fn new(digests: Kind, kind: ObjectKind, content: Vec<u8>) -> Self
        ensures id { id_of result.id ≡ object_id digests kind content.items }
        ensures kind { result.kind ≡ kind }
        ensures content { result.content ≡ content }
    {
        let id = object_id(digests, kind, &content);
        NewObject { id, kind, content }
    }
}

/// Returns the id of an object: the digest of its text, which is `<kind> <length>`, a zero byte and
/// the content (Git's object format).
fn object_id(kind: Kind, object: ObjectKind, content: &[u8]) -> ObjectId
    ensures { id_of result ≡ digest kind (object_text object content.now) }
{
    // The header is fed first and then the content, so that the whole text is never in memory.
    let header = encode::loose_header(object, content.len() as u64);
    let mut hasher = hasher(kind);
    hasher.update(&header);
    hasher.update(content);
    hasher.try_finalize()
}

/// Returns the kind of an object's text, and where its content begins; `None` if the text is no
/// object's.
pub fn parse_header(text: &[u8]) -> Option<(ObjectKind, usize)>
    ensures within { IfSome result (λ r. r.1 ≤ length text.now) }
    ensures text { IfSome result (λ r. text.now ≡ object_text r.0 (drop r.1 text.now)) }
    ensures none { IfNone result (IsNoObject text.now) }
{
    let (object, size, start) = decode::loose_header(text).ok()?;
    if (text.len() - start) as u64 == size {
        Some((object, start))
    } else {
        None
    }
}
