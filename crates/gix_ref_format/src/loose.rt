//! Loose references: the text of one's file read (`ref: ` and a name, or an id and white space), and written.

ghost use Rattle.std.specs.Prelude.{◌≡◌, ◌++◌, [], ℕ, List, Some, IsTrue, IsFalse, OnOk, MatchResult, drop, codes};
ghost use Rattle.std.specs.Option.{option_map};
ghost use Rattle.gix_hash.specs.Id.{id_of};
ghost use Rattle.gix_ref_name.specs.Targets.{ToName, target_view, target_ref_view, kind_of};
ghost use Rattle.gix_ref_name.specs.Names.{name_of};
ghost use Rattle.gix_ref_format.specs.declared.loose.Error.TheVariants.{Memory};
ghost use Rattle.gix_ref_format.specs.Loose as spec;
ghost use Rattle.gix_ref_format.specs.Loose.{loose_target, loose_text, LooseFault, is_symbolic, referent, leading_id};

use crate::ids::parse_hex;
use crate::lines::strip_last;
use gix_hash::{Kind, ObjectId};
use gix_object_lines::cut::strip_prefix;
use gix_ref_name::{FullName, FullNameRef, Target, TargetRef};
use std::alloc::{AllocError, Global};
use thiserror::Error;

/// Why a text names no target.
#[derive(Debug, Clone, Copy, PartialEq, Eq, Error)]
pub enum Error {
    /// It begins with neither `ref: ` nor an id of the repository's kind.
    #[error("the text of a reference has neither an id nor a name")]
    Parse,
    /// It begins with `ref: `, and no full name follows.
    #[error("a reference points to what is no name")]
    RefnameValidation,
    /// No memory is left.
    #[error("no memory is left")]
    Memory,
}

/// A reference in a file of its own.
#[derive(Debug, Drop, PartialEq, Eq)]
pub struct Reference {
    /// The name, which determines the file's place.
    pub name: FullName,
    /// What it points to.
    pub target: Target,
}

impl Reference {
    /// The reference of this name whose file has these bytes. Digits of an id may be of either
    /// letter case. A name may have further spaces before it, and end with CR LF or nothing in
    /// place of the line feed. An id may be followed by white space and anything after it. Returns
    /// `Parse` if the text begins with neither `ref: ` nor an id, `RefnameValidation` if what
    /// follows `ref: ` is no full name.
    pub fn try_from_path(
        alloc: Global,
        name: FullName,
        contents: &[u8],
        kind: Kind,
    ) -> Result<Reference, Error>
        ensures { MatchResult result
            (λ r. (r.name ≡ name) × (loose_target kind contents.now ≡ Some (target_view r.target)))
            (LooseFault kind contents.now) }
    {
        let target = decode(alloc, contents, kind)?;
        Ok(Reference { name, target })
    }

    /// Returns whether it points to an object or to another reference.
    pub fn kind(&self) -> gix_ref_name::Kind
        ensures { result ≡ kind_of (target_view self.now.target) }
    {
        self.target.kind()
    }
}

/// The target that the text of a loose file names, of ids of this kind. The errors are those of
/// `Reference::try_from_path`.
pub fn decode(alloc: Global, text: &[u8], kind: Kind) -> Result<Target, Error>
    ensures { MatchResult result (λ t. loose_target kind text.now ≡ Some (target_view t))
        (LooseFault kind text.now) }
{
    if text.starts_with(b"ref: ") {
        let Ok(name) = FullNameRef::new(name_in(text)) else {
            return Err(Error::RefnameValidation);
        };
        return target_of_name(alloc, name);
    }
    match id_in(text, kind) {
        Some(id) => Ok(Target::Object(id)),
        None => Err(Error::Parse),
    }
}

// A target that is a copy of the name.
fn target_of_name(alloc: Global, name: FullNameRef<'_>) -> Result<Target, Error>
    ensures { MatchResult result (λ t. target_view t ≡ ToName (name_of name.entry))
        (λ e. e ≡ Memory) }
{
    match name.to_owned(alloc) {
        Ok(name) => Ok(Target::Symbolic(name)),
        Err(_) => Err(Error::Memory),
    }
}

// What is to be a name after `ref: `.
fn name_in(text: &[u8]) -> &[u8]
    requires { IsTrue (is_symbolic text.now) }
    ensures { result.now ≡ referent text.now }
{
    strip_last(strip_last(behind_spaces(&text[5..]), b'\n'), b'\r')
}

fn behind_spaces(text: &[u8]) -> &[u8]
    ensures { result.now ≡ spec.without_spaces text.now }
{
    let mut left = text;
    while let Some(rest) = strip_prefix(left, b" ") {
        left = rest;
    }
    left
}

// The id that begins the text, if white space or nothing follows it.
fn id_in(text: &[u8], kind: Kind) -> Option<ObjectId>
    ensures { option_map id_of result ≡ leading_id kind text.now }
{
    let (digits, rest) = text.split_at_checked(kind.len_in_hex())?;
    if ends_word(rest) {
        parse_hex(kind, digits)
    } else {
        None
    }
}

fn ends_word(rest: &[u8]) -> bool
    ensures { result ≡ spec.ends_word rest.now }
{
    match rest.first() {
        Some(byte) => is_space(*byte),
        None => true,
    }
}

fn is_space(byte: u8) -> bool
    ensures { result ≡ spec.is_space byte }
{
    byte == b' ' || byte == b'\t' || byte == b'\n' || byte == b'\r'
}

/// Appends the text of a loose file of this target: an id in lower-case digits or `ref: ` and the
/// name, and a line feed.
pub fn write(target: TargetRef<'_>, out: &mut Vec<u8>) -> Result<(), AllocError>
    ensures { OnOk result
        (out.new.items ≡ out.old.items ++ loose_text (target_ref_view target.entry)) }
{
    match target {
        TargetRef::Object(id) => {
            let mut digits = Kind::hex_buf();
            out.extend_from_slice(id.hex_to_buf(&mut digits).as_bytes())?;
        }
        TargetRef::Symbolic(name) => {
            out.extend_from_slice(b"ref: ")?;
            out.extend_from_slice(name.as_bstr().as_bytes())?;
        }
    }
    out.push(b'\n')?;
    Ok(())
}
