//! A tag's signature, and what it signs.

ghost use Rattle.std.specs.Prelude.{IsOkAnd, IfOk, IfErr};
ghost use Rattle.gix_object_tag.specs.Faults.{TagFault};
ghost use Rattle.gix_object_tag.specs.Signature.{IsSignedBy};
ghost use Rattle.gix_object_tag.specs.Tag.{Parts, SpellsTag};

use crate::tag::TagRef;
use crate::tag::ref_iter::TagRefIter;
use bstr::BStr;
use gix_object_lines::decode::Error;
use gix_object_signature::{SignatureRef, SignedData};

impl<'a> TagRefIter<'a> {
    /// The signature of the tag that the bytes spell, and the bytes that it signs: all before it.
    /// `None` if the tag has none. The errors are those of `TagRef::from_bytes`.
    pub fn signature(
        input: &'a [u8],
        hash_kind: gix_hash::Kind,
    ) -> Result<Option<(SignatureRef<'a>, SignedData<'a>)>, Error>
        ensures read { IfOk result
            (λ found. (parts : Parts) × SpellsTag hash_kind input.now parts
            × IsSignedBy input.now parts.signature found) }
        ensures every { (parts : Parts) → SpellsTag hash_kind input.now parts
            → IsOkAnd result (IsSignedBy input.now parts.signature) }
        ensures refused { IfErr result (λ error. TagFault hash_kind input.now error) }
    {
        let tag = TagRef::from_bytes(input, hash_kind)?;
        let Some(found) = tag.signature() else {
            return Ok(None);
        };
        let before = &input[..input.len() - found.signature.as_bytes().len()];
        let signed = SignedData {
            before: BStr::new(before),
            behind: BStr::new(b""),
        };
        Ok(Some((found, signed)))
    }
}
