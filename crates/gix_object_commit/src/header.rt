//! Further headers.

ghost use Rattle.std.specs.Prelude.{ℕ, List, [], ◌∷◌, ◌++◌, ◌≡◌, ◌≢◌, IfOk, IfErr, IsOkAnd, MatchOption};
ghost use Rattle.bstr.specs.BStr.{bstr_bytes};
ghost use Rattle.gix_object_lines.specs.Bytes.{Lacks};
ghost use Rattle.gix_object_commit.specs.Commit as spec;
ghost use Rattle.gix_object_commit.specs.Commit.{Field, field_text, folded, IsFolded, IsField};
ghost use Rattle.gix_object_commit.specs.Faults.{HeaderFault};
ghost use Rattle.gix_object_commit.specs.Reading.{IsUnspaced};
ghost use Rattle.gix_object_commit.specs.LineViews.{field_of};

use bstr::BStr;
use gix_object_lines::ByteString;
use gix_object_lines::cut::{lacks, split_once, strip_prefix};
use gix_object_lines::decode::Error;
use std::alloc::{AllocError, Global};

/// A further header of a commit.
#[derive(Debug, Clone, Copy, PartialEq, Eq)]
pub struct HeaderRef<'a> {
    /// Its name.
    pub name: BStr<'a>,
    /// Its value as in the commit: each line but the first after a space.
    pub value: BStr<'a>,
}

/// A further header of a commit.
#[derive(Debug, Drop, PartialEq, Eq)]
pub struct ExtraHeader {
    /// Its name.
    pub name: ByteString,
    /// Its value, without the space that the commit has after each of its line feeds.
    pub value: ByteString,
}

impl<'a> HeaderRef<'a> {
    /// The commit's value without the space after each of its line feeds; if no line feed has one,
    /// nothing is left out. Returns `AllocError` if no memory is left.
    pub fn unfolded(&self, alloc: Global) -> Result<ByteString, AllocError>
        ensures whole { IfOk result (λ value. value ≡ spec.unfolded (bstr_bytes self.now.value)) }
        ensures told { IfOk result
            (λ value. (told : List ℕ) → bstr_bytes self.now.value ≡ folded told → value ≡ told) }
    {
        unfold(alloc, self.value.as_bytes())
    }
}

fn unfold(alloc: Global, text: &[u8]) -> Result<ByteString, AllocError>
    ensures { IfOk result (λ value. value ≡ spec.unfolded text.now) }
{
    let mut value = Vec::new(alloc);
    let mut rest = text;
    'lines: while let Some((line, after)) = split_once(rest, b'\n') {
        value.extend_from_slice(line)?;
        value.extend_from_slice(b"\n")?;
        match strip_prefix(after, b" ") {
            Some(further) => rest = further,
            None => rest = after,
        }
    }
    value.extend_from_slice(rest)?;
    Ok(ByteString::new(value))
}

/// A header that begins the input, and what follows it. Returns `FieldName` if no name begins the
/// input, and `LineEnd` if the value has no end.
pub fn read_header(input: &[u8]) -> Result<(HeaderRef<'_>, &[u8]), Error>
    ensures read { IfOk result
        (λ read. (input.now ≡ field_text (field_of read.0) ++ read.1.now)
        × IsField (field_of read.0) × IsUnspaced read.1.now) }
    ensures every { (field : Field) (rest : List ℕ) → IsField field → IsUnspaced rest
        → input.now ≡ field_text field ++ rest
        → IsOkAnd result (λ read. (field_of read.0 ≡ field) × (read.1.now ≡ rest)) }
    ensures refused { IfErr result (λ error. HeaderFault input.now error) }
{
    let (name, text) = read_name(input).ok_or(Error::FieldName)?;
    let (value, rest) = split_value(text).ok_or(Error::LineEnd)?;
    let header = HeaderRef {
        name: BStr::new(name),
        value: BStr::new(value),
    };
    Ok((header, rest))
}

// A name that begins the input, and what follows it and a space.
fn read_name(input: &[u8]) -> Option<(&[u8], &[u8])>
    ensures { MatchOption result
        ((name rest : List ℕ) → name ≢ [] → Lacks 32 name → Lacks 10 name
        → input.now ≢ name ++ 32 ∷ rest)
        (λ cut. (input.now ≡ cut.0.now ++ 32 ∷ cut.1.now) × (cut.0.now ≢ []) × Lacks 32 cut.0.now
        × Lacks 10 cut.0.now) }
{
    let (name, rest) = split_once(input, b' ')?;
    if name.is_empty() {
        return None;
    }
    if !lacks(name, b'\n') {
        return None;
    }
    Some((name, rest))
}

// A value that begins the input, and what follows its line feed, the first with no space after it.
fn split_value(input: &[u8]) -> Option<(&[u8], &[u8])>
    ensures { MatchOption result
        ((value rest : List ℕ) → IsFolded value → IsUnspaced rest → input.now ≢ value ++ 10 ∷ rest)
        (λ cut. (input.now ≡ cut.0.now ++ 10 ∷ cut.1.now) × IsFolded cut.0.now
        × IsUnspaced cut.1.now) }
{
    let mut rest = input;
    'lines: while let Some((_line, after)) = split_once(rest, b'\n') {
        match strip_prefix(after, b" ") {
            Some(further) => rest = further,
            None => return Some((&input[..input.len() - after.len() - 1], after)),
        }
    }
    None
}
