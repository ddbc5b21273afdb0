//! The parts of a tag, each read from the input that it begins.

ghost use Rattle.std.specs.Prelude.{ℕ, List, Option, ◌≡◌, ◌↔◌, IsTrue, IfOk, IfErr, IsOkAnd, MatchResult};
ghost use Rattle.bstr.specs.BStr.{bstr_bytes};
ghost use Rattle.gix_object_lines.specs.declared.kind.Kind.{Kind};
ghost use Rattle.gix_object_lines.specs.Person.{Person};
ghost use Rattle.gix_object_tag.specs.Tag.{IsLine, SpellsKind, SpellsName, SpellsTagger, SpellsBody, SpellsRest};
ghost use Rattle.gix_object_tag.specs.Views.{tagger_of, text_of};
ghost use Rattle.gix_object_tag.specs.Faults.{LineFault, KindFault, NameFault, TaggerFault, RestFault};

use crate::signature::split_signature;
use bstr::BStr;
use gix_object_lines::Kind;
use gix_object_lines::cut::{split_once, strip_prefix, strip_suffix};
use gix_object_lines::decode::Error;
use gix_object_lines::lines::{ActorRef, read_actor};

/// The value of a line that begins with the word and its space, and what follows the line.
fn line<'a>(input: &'a [u8], word: &[u8]) -> Result<(&'a [u8], &'a [u8]), Error>
    ensures read { IfOk result (λ cut. IsLine word.now input.now cut.0.now cut.1.now) }
    ensures every { (value after : List ℕ) → IsLine word.now input.now value after
        → IsOkAnd result (λ cut. (cut.0.now ≡ value) × (cut.1.now ≡ after)) }
    ensures refused { IfErr result (λ error. LineFault word.now input.now error) }
{
    let rest = strip_prefix(input, word).ok_or(Error::FieldName)?;
    split_once(rest, b'\n').ok_or(Error::LineEnd)
}

/// The kind of the tagged object.
pub(crate) fn target_kind(input: &[u8]) -> Result<(Kind, &[u8]), Error>
    ensures read { IfOk result (λ cut. SpellsKind input.now cut.0 cut.1.now) }
    ensures every { (kind : Kind) (after : List ℕ) → SpellsKind input.now kind after
        → IsOkAnd result (λ cut. (cut.0 ≡ kind) × (cut.1.now ≡ after)) }
    ensures refused { IfErr result (λ error. KindFault input.now error) }
{
    let (word, rest) = line(input, b"type ")?;
    match Kind::from_bytes(word) {
        Ok(kind) => Ok((kind, rest)),
        Err(_) => Err(Error::FieldName),
    }
}

/// The tag's name.
pub(crate) fn name(input: &[u8]) -> Result<(&[u8], &[u8]), Error>
    ensures read { IfOk result (λ cut. SpellsName input.now cut.0.now cut.1.now) }
    ensures every { (name after : List ℕ) → SpellsName input.now name after
        → IsOkAnd result (λ cut. (cut.0.now ≡ name) × (cut.1.now ≡ after)) }
    ensures refused { IfErr result (λ error. NameFault input.now error) }
{
    let (name, rest) = line(input, b"tag ")?;
    if name.is_empty() {
        return Err(Error::FieldName);
    }
    Ok((name, rest))
}

/// The tagger, if its line begins the input, and what follows.
pub(crate) fn tagger(input: &[u8]) -> Result<(Option<ActorRef<'_>>, &[u8]), Error>
    ensures read { IfOk result (λ cut. SpellsTagger input.now (tagger_of cut.0) cut.1.now) }
    ensures every { (tagger : Option Person) (after : List ℕ)
        → SpellsTagger input.now tagger after
        → IsOkAnd result (λ cut. (tagger_of cut.0 ≡ tagger) × (cut.1.now ≡ after)) }
    ensures refused { IfErr result (λ error. TaggerFault input.now error) }
{
    if strip_prefix(input, b"tagger ").is_none() {
        return Ok((None, input));
    }
    let (text, rest) = line(input, b"tagger ")?;
    let actor = read_actor(text)?;
    Ok((Some(actor), rest))
}

/// The message and the signature that ends it.
pub(crate) fn rest(input: &[u8]) -> Result<(BStr<'_>, Option<BStr<'_>>), Error>
    ensures read { IfOk result (λ body. SpellsRest input.now (bstr_bytes body.0) (text_of body.1)) }
    ensures every { (message : List ℕ) (signature : Option (List ℕ))
        → SpellsRest input.now message signature
        → IsOkAnd result (λ body. (bstr_bytes body.0 ≡ message) × (text_of body.1 ≡ signature)) }
    ensures refused { IfErr result (λ error. RestFault input.now error) }
{
    if input.is_empty() {
        return Ok((BStr::new(b""), None));
    }
    match strip_prefix(input, b"\n") {
        Some(text) => Ok(body(text)),
        None => Err(Error::FieldName),
    }
}

fn body(text: &[u8]) -> (BStr<'_>, Option<BStr<'_>>)
    ensures read { SpellsBody text.now (bstr_bytes result.0) (text_of result.1) }
    ensures every { (message : List ℕ) (signature : Option (List ℕ))
        → SpellsBody text.now message signature
        → (bstr_bytes result.0 ≡ message) × (text_of result.1 ≡ signature) }
{
    match split_signature(text) {
        Some((front, signature)) => {
            let message = strip_suffix(front, b"\n").unwrap_or(front);
            (BStr::new(message), Some(BStr::new(signature)))
        }
        None => (BStr::new(text), None),
    }
}
