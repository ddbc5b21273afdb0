//! Tags that own their parts.

ghost use Rattle.std.specs.Prelude.{◌≡◌, ◌⊎◌, OnOk, IfOk, IfErr, MatchOption};
ghost use Rattle.bstr.specs.BStr.{bstr_bytes};
ghost use Rattle.gix_object_lines.specs.declared.decode.Error.TheVariants.{InvalidTime, Memory};
ghost use Rattle.gix_object_tag.specs.Format.{TellsWhen};
ghost use Rattle.gix_object_tag.specs.Owned.{IsOwnTagger, IsTagOf, OwningFault};
ghost use Rattle.gix_object_tag.specs.Signature.{IsBare, IsSignatureOf};
ghost use Rattle.gix_object_tag.specs.Views.{parts_of, tagger_of};

use crate::tag::TagRef;
use gix_hash::ObjectId;
use gix_object_lines::decode::Error;
use gix_object_lines::hex_line::own_id;
use gix_object_lines::lines::{Actor, ActorRef};
use gix_object_lines::text::{own_text, own_text_if_any};
use gix_object_lines::{ByteString, Kind};
use gix_object_signature::{Format, SignatureRef};
use std::alloc::Global;

/// A tag.
#[derive(Debug, Drop, PartialEq, Eq)]
pub struct Tag {
    /// The tagged object's id.
    pub target: ObjectId,
    /// The kind of the tagged object.
    pub target_kind: Kind,
    /// The tag's name, as `v1.0`.
    pub name: ByteString,
    /// Who made the tag, and when; old tags don't say.
    pub tagger: Option<Actor>,
    /// The message, without the line feed before a signature.
    pub message: ByteString,
    /// The signature of all that precedes it, from its armor on.
    pub pgp_signature: Option<ByteString>,
}

impl Tag {
    /// The tag's signature with the format of its armor; `None` if no armor begins it.
    pub fn signature(&self) -> Option<SignatureRef<'_>>
        ensures { MatchOption result (IsBare self.now.pgp_signature)
            (IsSignatureOf self.now.pgp_signature) }
    {
        let signature = self.pgp_signature.as_ref()?.as_bstr();
        let format = Format::from_signature(signature.as_bytes())?;
        Some(SignatureRef { signature, format })
    }
}

impl<'a> TagRef<'a> {
    /// The tag with copies of its parts. Returns `HexDigits` if the target is no id's digits, and
    /// otherwise `InvalidTime` if the tagger has no time; neither happens for a tag that was read.
    /// Returns `Memory` if no memory is left.
    pub fn into_owned(self, alloc: Global) -> Result<Tag, Error>
        ensures own { IfOk result (IsTagOf (parts_of self.entry)) }
        ensures refused { IfErr result
            (λ error. OwningFault (bstr_bytes self.entry.target)
            (tagger_of self.entry.tagger) error) }
    {
        let target = own_id(self.target)?;
        let tagger = own_tagger(alloc, self.tagger)?;
        let name = own_text(alloc, self.name)?;
        let message = own_text(alloc, self.message)?;
        let pgp_signature = own_text_if_any(alloc, self.pgp_signature)?;
        Ok(Tag {
            target,
            target_kind: self.target_kind,
            name,
            tagger,
            message,
            pgp_signature,
        })
    }
}

fn own_tagger(alloc: Global, tagger: Option<ActorRef<'_>>) -> Result<Option<Actor>, Error>
    ensures own { IfOk result (λ actor. IsOwnTagger (tagger_of tagger.entry) actor) }
    ensures told { OnOk result (TellsWhen (tagger_of tagger.entry)) }
    ensures refused { IfErr result
        (λ error. ((error ≡ Memory) × TellsWhen (tagger_of tagger.entry))
        ⊎ ((error ≡ InvalidTime) × ¬ TellsWhen (tagger_of tagger.entry))) }
{
    match tagger {
        Some(actor) => Ok(Some(actor.to_owned(alloc)?)),
        None => Ok(None),
    }
}
