//! Writing tags that own their parts.

ghost use Rattle.std.specs.Prelude.{◌≡◌, ◌≤◌, ◌^◌, ◌+◌, length, MatchOption};
ghost use Rattle.bstr.specs.BStr.{bstr_bytes};
ghost use Rattle.gix_object_lines.specs.Writes.{Writes};
ghost use Rattle.gix_object_lines.specs.declared.kind.Kind.TheVariants.{Tag as TagKind};
ghost use Rattle.gix_object_tag.specs.OwnedText.{own_tagger, own_parts, is_bad_actor};
ghost use Rattle.gix_object_tag.specs.Views.{text_of};
ghost use Rattle.gix_object_lines.specs.HexLine.{is_id};
ghost use Rattle.gix_object_tag.specs.Pieces.{first_refusal};
ghost use Rattle.gix_object_tag.specs.TagText.{head_text, name_line, name_refusal, pieces_of, tagger_line, tagger_refusal, unspellable_unless, tag_text, tag_refusal};
ghost use Rattle.gix_object_tag.specs.NameTest.{name_fault};
ghost use Rattle.gix_hash.specs.Id.{id_of};
ghost use Rattle.gix_hash.specs.Spelling.{hex_text};
ghost use Rattle.gix_object_lines.specs.Kind.{kind_word};

use crate::tag::Tag;
use crate::tag::spelling::{is_spellable, is_whole_body};
use crate::tag::write::{
    body_parts, head_parts, name_parts, tagger_parts, write_body, write_head, write_name,
};
use crate::write::write_all;
use bstr::BStr;
use gix_hash::ObjectId;
use gix_object_lines::lines::{Actor, write_actor};
use gix_object_lines::text::bstr_of;
use gix_object_lines::write::{Error, add_lengths};
use gix_object_lines::{ByteString, Kind, WriteTo, encode};
use std::io;

impl Tag {
    // Writes the tag with this message and signature in the place of its own, which are refused if
    // they aren't whole.
    pub(crate) fn write_with<W: io::Write>(
        &self,
        message: BStr<'_>,
        signature: Option<BStr<'_>>,
        is_whole: bool,
        out: &mut W,
    ) -> Result<(), Error>
        ensures { Writes (W.contents out.old) (W.contents out.new)
            (tag_text
            (own_parts
            (record self.now {
              message =
                  bstr_bytes message.entry;
              pgp_signature = text_of signature.entry;
            })))
            (first_refusal
            (pieces_of
            (own_parts
            (record self.now {
              message =
                  bstr_bytes message.entry;
              pgp_signature = text_of signature.entry;
            }))
            (is_bad_actor self.now.tagger) is_whole)) result }
    {
        write_own_head(self.target, self.target_kind, out)?;
        write_own_name(&self.name, out)?;
        write_own_tagger(&self.tagger, out)?;
        write_body(message, signature, is_whole, out)
    }
}

impl WriteTo for Tag {
    ghost text = { λ tag. tag_text (own_parts tag) };

    ghost refusal = { λ tag. tag_refusal (own_parts tag) (is_bad_actor tag.tagger) };

    ghost object_kind = { λ _. TagKind };

    fn write_to<W: io::Write>(&self, out: &mut W) -> Result<(), Error> {
        let message = self.message.as_bstr();
        let signature = bstr_of(&self.pgp_signature);
        self.write_with(message, signature, is_whole_body(message, signature), out)
    }

    fn kind(&self) -> Kind {
        Kind::Tag
    }

    fn size(&self) -> Option<u64> {
        let mut digits = gix_hash::Kind::hex_buf();
        let target = self.target.hex_to_buf(&mut digits).as_bytes();
        let head = add_lengths(0, &head_parts(target, self.target_kind.as_bytes()))?;
        let name = add_lengths(head, &name_parts(self.name.as_bytes()))?;
        let tagger = add_own_tagger(name, &self.tagger)?;
        let signature = bstr_of(&self.pgp_signature);
        add_lengths(tagger, &body_parts(self.message.as_bstr(), signature))
    }
}

fn write_own_head<W: io::Write>(target: ObjectId, kind: Kind, out: &mut W) -> Result<(), Error>
    ensures { Writes (W.contents out.old) (W.contents out.new)
        (head_text (hex_text (id_of target).digits) (kind_word kind))
        (unspellable_unless (is_id (hex_text (id_of target).digits))) result }
{
    let mut digits = gix_hash::Kind::hex_buf();
    let target = target.hex_to_buf(&mut digits).as_bytes();
    write_head(BStr::new(target), kind, out)
}

fn write_own_name<W: io::Write>(name: &ByteString, out: &mut W) -> Result<(), Error>
    ensures { Writes (W.contents out.old) (W.contents out.new) (name_line name.now)
        (name_refusal (name_fault name.now)) result }
{
    write_name(name.as_bstr(), out)
}

fn write_own_tagger<W: io::Write>(tagger: &Option<Actor>, out: &mut W) -> Result<(), Error>
    ensures { Writes (W.contents out.old) (W.contents out.new)
        (tagger_line (own_tagger tagger.now)) (tagger_refusal (is_bad_actor tagger.now)) result }
{
    let Some(actor) = tagger else {
        return Ok(());
    };
    if !is_spellable(actor) {
        return Err(Error::Header(encode::Error::Unspellable));
    }
    write_all(&[b"tagger "], out)?;
    write_actor(actor, out)?;
    write_all(&[b"\n"], out)
}

// An offset has five bytes, whatever it is.
fn add_own_tagger(before: u64, tagger: &Option<Actor>) -> Option<u64>
    ensures { let text = tagger_line (own_tagger tagger.now) in
        MatchOption result (2 ^ 64 ≤ before + length text) (λ total. total ≡ before + length text) }
{
    match tagger {
        Some(actor) => {
            let mut digits = itoa::Buffer::new();
            let seconds = digits.format(actor.time.seconds).as_bytes();
            let parts = tagger_parts(actor.name.as_bytes(), actor.email.as_bytes(), seconds);
            add_lengths(before, &parts)?.checked_add(6)
        }
        None => Some(before),
    }
}
