//! Which parts of a tag have a written form.

ghost use Rattle.std.specs.Prelude.{◌≡◌, ◌↔◌, [], Some, true, false, codes, IsTrue, IsFalse};
ghost use Rattle.bstr.specs.BStr.{bstr_bytes};
ghost use Rattle.gix_object_lines.specs.Actor.{IsSpellable};
ghost use Rattle.gix_object_lines.specs.NameTest.{begins};
ghost use Rattle.gix_object_tag.specs.BodyTest as test;
ghost use Rattle.gix_object_tag.specs.NameTest as name_test;
ghost use Rattle.gix_object_tag.specs.OwnedText as owned_text;
ghost use Rattle.gix_object_tag.specs.OwnedText.{is_bad_actor};
ghost use Rattle.gix_object_tag.specs.Signature.{IsSigned, IsUnsigned};
ghost use Rattle.gix_object_tag.specs.TagText.{is_marked};
ghost use Rattle.gix_object_tag.specs.Views.{text_of};

use crate::signature::split_signature;
use bstr::BStr;
use gix_object_lines::lines::{Actor, is_partial_name};
use gix_object_lines::write::TagNameError;

/// Why the name is no tag's, if it isn't.
pub(crate) fn name_fault(name: &[u8]) -> Option<TagNameError>
    ensures { result ≡ name_test.name_fault name.now }
{
    if !is_partial_name(name) {
        return Some(TagNameError::InvalidRefName);
    }
    if begins_with_dash(name) {
        return Some(TagNameError::StartsWithDash);
    }
    None
}

fn begins_with_dash(name: &[u8]) -> bool
    ensures { result ≡ begins (codes "-") name.now }
{
    name.starts_with(b"-")
}

/// Returns whether a name or an email has a `<`, a `>` or a line feed.
pub(crate) fn is_marked(part: &[u8]) -> bool
    ensures { result ≡ is_marked part.now }
{
    part.iter()
        .any(|byte| *byte == b'<' || *byte == b'>' || *byte == b'\n')
}

/// Returns whether an actor has a line: no `<`, `>` or line feed in its name and email, and whole
/// minutes below 100 hours.
pub(crate) fn is_spellable(actor: &Actor) -> bool
    ensures no { IsFalse result → is_bad_actor (Some actor.now) ≡ true }
    ensures yes { IsTrue result
        → (is_bad_actor (Some actor.now) ≡ false)
        × IsSpellable actor.now.name actor.now.email actor.now.time }
{
    if is_marked(actor.name.as_bytes()) {
        return false;
    }
    if is_marked(actor.email.as_bytes()) {
        return false;
    }
    !is_bad_offset(actor.time.offset)
}

fn is_bad_offset(offset: i32) -> bool
    ensures { result ≡ owned_text.is_bad_offset offset }
{
    let amount = offset.unsigned_abs();
    amount % 60 != 0 || amount >= 360_000
}

/// Returns whether a message and its signature are read back as they are written: no line of a
/// message without a signature begins with an armor; a signature begins with one, and no later line
/// of it does.
pub(crate) fn is_whole_body(message: BStr<'_>, signature: Option<BStr<'_>>) -> bool
    ensures { result ≡ test.is_whole_body (bstr_bytes message.entry) (text_of signature.entry) }
{
    match signature {
        Some(signature) => has_one_armor(signature.as_bytes()),
        None => has_no_armor(message.as_bytes()),
    }
}

// Returns whether an armor begins the text, and no later line of it.
fn has_one_armor(text: &[u8]) -> bool
    ensures { IsTrue result ↔ IsSigned text.now [] text.now }
{
    match split_signature(text) {
        Some((front, _)) => front.is_empty(),
        None => false,
    }
}

// Returns whether no line of the text begins with an armor.
fn has_no_armor(text: &[u8]) -> bool
    ensures { IsTrue result ↔ IsUnsigned text.now }
{
    match split_signature(text) {
        Some(_) => false,
        None => true,
    }
}
