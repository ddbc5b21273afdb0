//! Whether each name of a list has one edit: the names are sorted, and the least that is there twice is found.

ghost use Rattle.std.specs.Prelude.{◌≡◌, map, IfOk, OnOk, IfErr};
ghost use Rattle.std.specs.Option.{option_copied};
ghost use Rattle.gix_ref_edit.specs.Names as spec;
ghost use Rattle.gix_ref_edit.specs.declared.names.TwiceError.TheVariants.{Memory};

use crate::change::RefEdit;
use gix_object_lines::ByteString;
use std::alloc::{AllocError, Global};
use thiserror::Error;

/// Why it isn't so that each name has one edit.
#[derive(Debug, Drop, PartialEq, Eq, Error)]
pub enum TwiceError {
    /// This name has several.
    #[error("a reference has several edits")]
    Name(ByteString),
    /// No memory is left.
    #[error("no memory is left")]
    Memory,
}

impl From<AllocError> for TwiceError {
    ghost from_gives = { λ _ e. e ≡ Memory };

    fn from(_: AllocError) -> Self {
        TwiceError::Memory
    }
}

// Tests that no name is there twice; the error has the least that is.
pub(crate) fn assure_once(alloc: Global, edits: &[RefEdit]) -> Result<(), TwiceError>
    ensures once { OnOk result (spec.AllOnce (spec.names_of edits.now)) }
    ensures twice { IfErr result (spec.TwiceFault (spec.names_of edits.now)) }
{
    let names = sorted_names(alloc, edits)?;
    match first_twice(names.as_slice()) {
        Some(name) => Err(TwiceError::Name(ByteString::from_slice(alloc, name)?)),
        None => Ok(()),
    }
}

// The names, ascending by their bytes.
fn sorted_names(alloc: Global, edits: &[RefEdit]) -> Result<Vec<&[u8]>, AllocError>
    ensures { IfOk result (λ names.
        spec.IsArranged (spec.names_of edits.now) (map (λ name. name.now) names.items)) }
{
    let mut names = names_of(alloc, edits)?;
    names.sort()?;
    Ok(names)
}

// The names, in order.
fn names_of(alloc: Global, edits: &[RefEdit]) -> Result<Vec<&[u8]>, AllocError>
    ensures { IfOk result (λ names.
        map (λ name. name.now) names.items ≡ spec.names_of edits.now) }
{
    let mut names = Vec::new(alloc);
    let mut rest = edits;
    while let Some((edit, others)) = rest.split_first() {
        names.push(edit.name.to_path())?;
        rest = others;
    }
    Ok(names)
}

// The first name that is followed by itself.
fn first_twice<'a>(names: &[&'a [u8]]) -> Option<&'a [u8]>
    ensures { option_copied result ≡ spec.first_twice (map (λ name. name.now) names.now) }
{
    let mut rest = names;
    while let [name, others @ ..] = rest {
        if let Some(next) = others.first() {
            if name == next {
                return Some(*name);
            }
        }
        rest = others;
    }
    None
}
