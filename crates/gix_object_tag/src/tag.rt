//! Tags.

ghost use Rattle.std.specs.Prelude.{◌≡◌, IsTrue, IfOk, IfErr, IsOkAnd, MatchOption};
ghost use Rattle.bstr.specs.BStr.{bstr_bytes};
ghost use Rattle.gix_hash.specs.Id.{id_of};
ghost use Rattle.gix_hash.specs.Views.{IsHexOfId};
ghost use Rattle.gix_object_lines.specs.HexLine.{is_id};
ghost use Rattle.gix_object_tag.specs.Tag.{Parts, SpellsTag};
ghost use Rattle.gix_object_tag.specs.Signature.{IsBare, IsSignatureOf};
ghost use Rattle.gix_object_tag.specs.Views.{parts_of, text_of};
ghost use Rattle.gix_object_tag.specs.Faults.{TagFault};

mod decode;
mod owned;
pub mod ref_iter;
mod sign;
mod spelling;
mod write;
mod write_owned;

pub use crate::tag::owned::Tag;
pub use crate::tag::ref_iter::TagRefIter;
use bstr::BStr;
use gix_hash::ObjectId;
use gix_object_lines::Kind;
use gix_object_lines::decode::Error;
use gix_object_lines::hex_line::{id_of_digits, read_hex_line};
use gix_object_lines::lines::ActorRef;
use gix_object_signature::{Format, SignatureRef};

/// A tag, as its bytes have it.
#[derive(Debug, Clone, Copy, PartialEq, Eq)]
pub struct TagRef<'a> {
    /// The hexadecimal digits of the tagged object's id, in any letter case.
    pub target: BStr<'a>,
    /// The kind of the tagged object.
    pub target_kind: Kind,
    /// The tag's name, as `v1.0`.
    pub name: BStr<'a>,
    /// Who made the tag, and when; old tags don't say.
    pub tagger: Option<ActorRef<'a>>,
    /// The message, without the line feed before a signature.
    pub message: BStr<'a>,
    /// The signature of all that precedes it, from its armor on.
    pub pgp_signature: Option<BStr<'a>>,
}

impl<'a> TagRef<'a> {
    /// The tag that the bytes spell, in a repository of this kind of ids. It borrows, and takes no
    /// memory.
    ///
    /// The error is that of the first part that fails: `HexDigits` if fewer digits follow `object `
    /// than an id has; `InvalidActor` if a tagger's line isn't a name, an email and a time, and
    /// `InvalidTime` if the time is none; `LineEnd` if a line lacks its line feed; and `FieldName`
    /// if another line is in the place of one, the kind is unknown, the name is empty, or neither a
    /// tagger's line nor an empty line follows the name.
    pub fn from_bytes(input: &'a [u8], hash_kind: gix_hash::Kind) -> Result<TagRef<'a>, Error>
        ensures read { IfOk result (λ tag. SpellsTag hash_kind input.now (parts_of tag)) }
        ensures every { (parts : Parts) → SpellsTag hash_kind input.now parts
            → IsOkAnd result (λ tag. parts_of tag ≡ parts) }
        ensures refused { IfErr result (λ error. TagFault hash_kind input.now error) }
    {
        let (target, rest) = read_hex_line(input, b"object", hash_kind.len_in_hex())?;
        let (target_kind, rest) = decode::target_kind(rest)?;
        let (name, rest) = decode::name(rest)?;
        let (tagger, rest) = decode::tagger(rest)?;
        let (message, pgp_signature) = decode::rest(rest)?;
        Ok(TagRef {
            target: BStr::new(target),
            target_kind,
            name: BStr::new(name),
            tagger,
            message,
            pgp_signature,
        })
    }

    /// The tagged object's id. The target must be an id's digits, as it is in each tag that was
    /// read.
    pub fn target(&self) -> ObjectId
        requires { IsTrue (is_id (bstr_bytes self.now.target)) }
        ensures { IsHexOfId (bstr_bytes self.now.target) (id_of result) }
    {
        id_of_digits(self.target.as_bytes())
    }

    /// Who made the tag, and when.
    pub fn tagger(&self) -> Option<ActorRef<'a>>
        ensures { result ≡ self.now.tagger }
    {
        self.tagger
    }

    /// The tag's signature with the format of its armor; `None` if no armor begins it.
    pub fn signature(&self) -> Option<SignatureRef<'a>>
        ensures { MatchOption result (IsBare (text_of self.now.pgp_signature))
            (IsSignatureOf (text_of self.now.pgp_signature)) }
    {
        let signature = self.pgp_signature?;
        let format = Format::from_signature(signature.as_bytes())?;
        Some(SignatureRef { signature, format })
    }
}
