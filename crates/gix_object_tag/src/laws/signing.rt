//! What follows for tags that are signed.

ghost use Rattle.std.specs.Prelude.{ℕ, List, ◌≡◌, ◌++◌, None, IsOkAnd};
ghost use Rattle.gix_object_tag.specs.Format.{IsInFormat};
ghost use Rattle.gix_object_tag.specs.OwnedText.{own_parts};
ghost use Rattle.gix_object_tag.specs.Signing.{IsTextToSign, TellsSigned, with_signature, write_fault};
ghost use Rattle.gix_object_tag.specs.declared.tag.owned.Tag.{Tag};

use crate::TagRefIter;
use gix_object_lines::decode::Error;
use gix_object_signature::{SignatureRef, SignedData};

/// What is read of a signed tag as it is written: its signature, and as its signed data exactly the
/// text that was signed. The tag is one that can be written; its tagger has a time, and its
/// signature has its only armor at its start.
pub fn what_is_read_is_what_was_signed<'a>(
    written: &'a [u8],
    hash_kind: gix_hash::Kind,
) -> Result<Option<(SignatureRef<'a>, SignedData<'a>)>, Error>
    ensures { (tag : Tag) (text signature : List ℕ) → write_fault tag ≡ None
        → IsInFormat hash_kind (own_parts (with_signature signature tag)) → IsTextToSign tag text
        → written.now ≡ text ++ signature → IsOkAnd result (TellsSigned text signature) }
{
    TagRefIter::signature(written, hash_kind)
}
