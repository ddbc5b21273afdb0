//! Merging edits with the records of `packed-refs`, sorted by name, into a list of records (`edited`, `written`).

ghost use Rattle.std.specs.Prelude.{◌≡◌, ◌++◌, [], map, None, option_map, if◌then◌else◌, IfOk, OnOk};
ghost use Rattle.std.specs.Option.{option_to_list};
ghost use Rattle.gix_ref_name.specs.Names.{name_of};
ghost use Rattle.gix_ref_format.specs.Packed.{record_of};
ghost use Rattle.gix_ref_format.specs.PackedKept.{records_left};
ghost use Rattle.gix_ref_format.specs.Edited as spec;

use crate::packed::edit::Edit;
use crate::packed::{Records, Reference};
use gix_ref_name::FullNameRef;
use std::alloc::{AllocError, Global};

/// The records after the edits, ascending by name: those that are written, and of the others the
/// first of each name that no edit has. Of several edits of a name the first counts. It takes as
/// many comparisons as a sort of all these.
pub fn edited<'a>(
    alloc: Global,
    records: Records<'a>,
    edits: &[Edit<'a>],
) -> Result<Vec<Reference<'a>>, AllocError>
    ensures { IfOk result (λ after. spec.IsEdited (records_left records.entry)
        (spec.lines_of edits.now) (map record_of after.items)) }
{
    let mut lines = Vec::new(alloc);
    lines.extend_from_slice(edits)?;
    add_records(records, &mut lines)?;
    let lines = sorted_by_name(lines)?;
    one_of_each_name(alloc, lines.as_slice())
}

/// The records after the edits if there were none before, ascending by name. Of several edits of a
/// name the first counts.
pub fn written<'a>(alloc: Global, edits: &[Edit<'a>]) -> Result<Vec<Reference<'a>>, AllocError>
    ensures { IfOk result (λ after.
        spec.IsEdited [] (spec.lines_of edits.now) (map record_of after.items)) }
{
    let mut lines = Vec::new(alloc);
    lines.extend_from_slice(edits)?;
    let lines = sorted_by_name(lines)?;
    one_of_each_name(alloc, lines.as_slice())
}

// Adds each of the records.
fn add_records<'a>(records: Records<'a>, lines: &mut Vec<Edit<'a>>) -> Result<(), AllocError>
    ensures { OnOk result (spec.lines_of lines.new.items
        ≡ spec.lines_of lines.old.items ++ map spec.own_line (records_left records.entry)) }
{
    let mut left = records;
    while let Some(record) = left.next() {
        lines.push(Edit::Write(record))?;
    }
    Ok(())
}

// The lines in the order of their names.
pub(crate) fn sorted_by_name(mut lines: Vec<Edit<'_>>) -> Result<Vec<Edit<'_>>, AllocError>
    ensures { IfOk result (λ found.
        spec.Arranges (spec.lines_of lines.entry.items) (spec.lines_of found.items)) }
{
    lines.sort_by(|one, other| text_of(one).cmp(text_of(other)))?;
    Ok(lines)
}

// The bytes of the name.
fn text_of<'a>(line: &Edit<'a>) -> &'a [u8]
    ensures { result.now ≡ (spec.line_of line.now).name }
{
    line.name().to_path()
}

// The records of the lines, of which each is left out whose name is that of the line before it.
fn one_of_each_name<'a>(alloc: Global, lines: &[Edit<'a>]) -> Result<Vec<Reference<'a>>, AllocError>
    ensures { IfOk result (λ records. map record_of records.items
        ≡ spec.standing None (spec.lines_of lines.now)) }
{
    let mut records = Vec::new(alloc);
    let mut last = None;
    for line in lines {
        let name = line.name();
        if !is_same(last, name) {
            add_record(line, &mut records)?;
        }
        last = Some(name);
    }
    Ok(records)
}

// Returns whether the last name is this one.
pub(crate) fn is_same(last: Option<FullNameRef<'_>>, name: FullNameRef<'_>) -> bool
    ensures { result ≡ spec.is_same (option_map name_of last.entry) (name_of name.entry) }
{
    match last {
        Some(last) => last.to_path() == name.to_path(),
        None => false,
    }
}

// Adds the line's record, if it has one.
fn add_record<'a>(line: &Edit<'a>, records: &mut Vec<Reference<'a>>) -> Result<(), AllocError>
    ensures { OnOk result (map record_of records.new.items
        ≡ map record_of records.old.items ++ option_to_list (spec.line_of line.now).says) }
{
    if let Edit::Write(record) = line {
        records.push(*record)?;
    }
    Ok(())
}
