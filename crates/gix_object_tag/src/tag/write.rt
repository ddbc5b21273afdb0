//! Writing tags.

ghost use Rattle.std.specs.Prelude.{◌≡◌, ◌≤◌, ◌^◌, ◌+◌, Some, flat_map, length, MatchOption};
ghost use Rattle.bstr.specs.BStr.{bstr_bytes};
ghost use Rattle.gix_object_lines.specs.HexLine as hex;
ghost use Rattle.gix_object_lines.specs.Kind.{kind_word};
ghost use Rattle.gix_object_lines.specs.Writes.{Writes};
ghost use Rattle.gix_object_lines.specs.declared.kind.Kind.TheVariants.{Tag as TagKind};
ghost use Rattle.gix_object_tag.specs.NameTest as name_test;
ghost use Rattle.gix_object_tag.specs.TagText.{head_text, name_line, tagger_line, body_text, name_refusal, tagger_refusal, unspellable_unless, is_bad_tagger, tag_text, tag_refusal};
ghost use Rattle.gix_object_tag.specs.Views.{parts_of, tagger_of, text_of};

use crate::tag::TagRef;
use crate::tag::spelling::{is_marked, is_whole_body, name_fault};
use crate::write::{write_all, write_spellable};
use bstr::BStr;
use gix_object_lines::hex_line::is_id;
use gix_object_lines::lines::{ActorRef, tells_time};
use gix_object_lines::write::{Error, add_lengths};
use gix_object_lines::{Kind, WriteTo, encode};
use std::io;

impl<'a> WriteTo for TagRef<'a> {
    ghost text = { λ tag. tag_text (parts_of tag) };

    ghost refusal = { λ tag. tag_refusal (parts_of tag) (is_bad_tagger (tagger_of tag.tagger)) };

    ghost object_kind = { λ _. TagKind };

    fn write_to<W: io::Write>(&self, out: &mut W) -> Result<(), Error> {
        write_head(self.target, self.target_kind, out)?;
        write_name(self.name, out)?;
        write_tagger(self.tagger, out)?;
        let is_whole = is_whole_body(self.message, self.pgp_signature);
        write_body(self.message, self.pgp_signature, is_whole, out)
    }

    fn kind(&self) -> Kind {
        Kind::Tag
    }

    fn size(&self) -> Option<u64> {
        let head = head_parts(self.target.as_bytes(), self.target_kind.as_bytes());
        let head = add_lengths(0, &head)?;
        let name = add_lengths(head, &name_parts(self.name.as_bytes()))?;
        let tagger = add_tagger(name, self.tagger)?;
        add_lengths(tagger, &body_parts(self.message, self.pgp_signature))
    }
}

// ---- the parts of the lines

pub(crate) fn head_parts<'a>(target: &'a [u8], kind: &'a [u8]) -> [&'a [u8]; 5]
    ensures { flat_map (λ part. part.now) result ≡ head_text target.now kind.now }
{
    [b"object ", target, b"\ntype ", kind, b"\n"]
}

pub(crate) fn name_parts<'a>(name: &'a [u8]) -> [&'a [u8]; 3]
    ensures { flat_map (λ part. part.now) result ≡ name_line name.now }
{
    [b"tag ", name, b"\n"]
}

pub(crate) fn tagger_parts<'a>(name: &'a [u8], email: &'a [u8], time: &'a [u8]) -> [&'a [u8]; 7]
    ensures { flat_map (λ part. part.now) result
        ≡ tagger_line (Some (record { name = name.now; email = email.now; time = time.now })) }
{
    [b"tagger ", name, b" <", email, b"> ", time, b"\n"]
}

pub(crate) fn body_parts<'a>(message: BStr<'a>, signature: Option<BStr<'a>>) -> [&'a [u8]; 4]
    ensures { flat_map (λ part. part.now) result
        ≡ body_text (bstr_bytes message.entry) (text_of signature.entry) }
{
    let message = message.as_bytes();
    match signature {
        Some(signature) if message.is_empty() => [b"\n", signature.as_bytes(), b"", b""],
        Some(signature) => [b"\n", message, b"\n", signature.as_bytes()],
        None => [b"\n", message, b"", b""],
    }
}

// ---- writing them

pub(crate) fn write_head<W: io::Write>(
    target: BStr<'_>,
    kind: Kind,
    out: &mut W,
) -> Result<(), Error>
    ensures { Writes (W.contents out.old) (W.contents out.new)
        (head_text (bstr_bytes target.entry) (kind_word kind))
        (unspellable_unless (hex.is_id (bstr_bytes target.entry))) result }
{
    let target = target.as_bytes();
    write_spellable(is_id(target), &head_parts(target, kind.as_bytes()), out)
}

pub(crate) fn write_name<W: io::Write>(name: BStr<'_>, out: &mut W) -> Result<(), Error>
    ensures { Writes (W.contents out.old) (W.contents out.new) (name_line (bstr_bytes name.entry))
        (name_refusal (name_test.name_fault (bstr_bytes name.entry))) result }
{
    let name = name.as_bytes();
    if let Some(fault) = name_fault(name) {
        return Err(Error::TagName(fault));
    }
    write_all(&name_parts(name), out)
}

fn write_tagger<W: io::Write>(tagger: Option<ActorRef<'_>>, out: &mut W) -> Result<(), Error>
    ensures { Writes (W.contents out.old) (W.contents out.new)
        (tagger_line (tagger_of tagger.entry))
        (tagger_refusal (is_bad_tagger (tagger_of tagger.entry))) result }
{
    let Some(actor) = tagger else {
        return Ok(());
    };
    let name = actor.name.as_bytes();
    let email = actor.email.as_bytes();
    let time = actor.time.as_bytes();
    if is_marked(name) || is_marked(email) || !tells_time(time) {
        return Err(Error::Header(encode::Error::Unspellable));
    }
    write_all(&tagger_parts(name, email, time), out)
}

pub(crate) fn write_body<W: io::Write>(
    message: BStr<'_>,
    signature: Option<BStr<'_>>,
    is_whole: bool,
    out: &mut W,
) -> Result<(), Error>
    ensures { Writes (W.contents out.old) (W.contents out.new)
        (body_text (bstr_bytes message.entry) (text_of signature.entry))
        (unspellable_unless is_whole) result }
{
    write_spellable(is_whole, &body_parts(message, signature), out)
}

// ---- their lengths

fn add_tagger(before: u64, tagger: Option<ActorRef<'_>>) -> Option<u64>
    ensures { let text = tagger_line (tagger_of tagger.entry) in
        MatchOption result (2 ^ 64 ≤ before + length text) (λ total. total ≡ before + length text) }
{
    match tagger {
        Some(actor) => {
            let name = actor.name.as_bytes();
            let email = actor.email.as_bytes();
            add_lengths(before, &tagger_parts(name, email, actor.time.as_bytes()))
        }
        None => Some(before),
    }
}
