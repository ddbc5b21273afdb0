//! Names of a `move`: whether one occurs twice, or a new one collides with another (is in it, or its folder).

ghost use Rattle.std.specs.Prelude.{◌≡◌, IfOk, bytes_eq, map};
ghost use Rattle.std.specs.List.{list_any};
ghost use Rattle.history_model.specs.Bytes.{has_twice};
ghost use Rattle.history_model.specs.FileMap.{is_below};
ghost use Rattle.history_plans.specs.Apart.{HaveAll, do_lines_collide, made_names, names_in, reaches};
ghost use Rattle.history_plans.specs.Moving.{line_name, to_name};

use crate::moving::Line;
use history_word::To;
use std::alloc::{AllocError, Global};
use std::collections::BTreeSet;

/// Returns whether two lines are of one name. Fails only if memory runs out.
pub(crate) fn have_twice(alloc: Global, to: &[To]) -> Result<bool, AllocError>
    ensures { IfOk result (λ twice. twice ≡ has_twice bytes_eq (map to_name to.now)) }
{
    let mut names = BTreeSet::new(alloc);
    let mut rest = to;
    'lines: while let Some((to, others)) = rest.split_first() {
        if !names.insert(to.name.as_slice())? {
            return Ok(true);
        }
        rest = others;
    }
    Ok(false)
}

/// Returns the names of the lines.
fn all_names<'a>(alloc: Global, lines: &'a [Line]) -> Result<BTreeSet<&'a [u8]>, AllocError>
    ensures { IfOk result (λ names. HaveAll (names_in names.keys) (map line_name lines.now)) }
{
    let mut names = BTreeSet::new(alloc);
    let mut rest = lines;
    'lines: while let Some((line, others)) = rest.split_first() {
        names.insert(line.name.as_slice())?;
        rest = others;
    }
    Ok(names)
}

/// Returns those of the lines' names that are to be made.
fn names_to_make<'a>(alloc: Global, lines: &'a [Line]) -> Result<BTreeSet<&'a [u8]>, AllocError>
    ensures { IfOk result (λ names. HaveAll (names_in names.keys) (made_names lines.now)) }
{
    let mut names = BTreeSet::new(alloc);
    let mut rest = lines;
    'lines: while let Some((line, others)) = rest.split_first() {
        if line.held.is_none() {
            names.insert(line.name.as_slice())?;
        }
        rest = others;
    }
    Ok(names)
}

/// Returns whether one of the names is a folder of this one.
fn has_folder_of<'a>(names: &BTreeSet<&'a [u8]>, name: &'a [u8]) -> bool
    ensures { result ≡ list_any (λ folder. is_below folder name.now) (names_in names.now.keys) }
{
    for (end, byte) in name.iter().enumerate() {
        if *byte == b'/' {
            if names.contains(&name[..end]) {
                return true;
            }
        }
    }
    false
}

/// Returns whether a line's name is below another's, and one of the two is to be made.
fn is_reached<'a>(all: &BTreeSet<&'a [u8]>, made: &BTreeSet<&'a [u8]>, line: &'a Line) -> bool
    ensures { result ≡ reaches (names_in all.now.keys) (names_in made.now.keys) line.now }
{
    has_folder_of(made, &line.name) || (line.held.is_none() && has_folder_of(all, &line.name))
}

/// Returns whether the name of a line is to be made and collides with that of another. Of two names
/// that collide one is below the other, so only each name's folders are looked up. Fails only if
/// memory runs out.
pub(crate) fn do_lines_collide(alloc: Global, lines: &[Line]) -> Result<bool, AllocError>
    ensures { IfOk result (λ found. found ≡ do_lines_collide lines.now) }
{
    let all = all_names(alloc, lines)?;
    let made = names_to_make(alloc, lines)?;
    for line in lines {
        if is_reached(&all, &made, line) {
            return Ok(true);
        }
    }
    Ok(false)
}
