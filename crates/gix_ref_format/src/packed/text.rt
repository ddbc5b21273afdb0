//! The text of `packed-refs` after edits (`edited_text`): the lines of records that stay are copied.

ghost use Rattle.std.specs.Prelude.{◌≡◌, ◌++◌, true, false, IfOk, IfSome, IsTrue, OnOk, option_map};
ghost use Rattle.std.specs.Option.{option_to_list};
ghost use Rattle.gix_ref_name.specs.Names.{name_of};
ghost use Rattle.gix_ref_format.specs.Edited.{Rises, is_same, line_of, lines_of};
ghost use Rattle.gix_ref_format.specs.PackedBuffer.{entry_records};
ghost use Rattle.gix_ref_format.specs.PackedKept.{kept};
ghost use Rattle.gix_ref_format.specs.PackedText.{AllStand, CanStand, Copies, IsMerged, IsTextOf};
ghost use Rattle.gix_ref_format.specs.Written.{records_text};

use crate::laws::{entries_can_stand, record_can_stand, written_records_are_read};
use crate::packed::buffer::Buffer;
use crate::packed::edit::Edit;
use crate::packed::merge::{edited, is_same, sorted_by_name};
use crate::packed::run::Run;
use crate::packed::write::{packed_text, write_header, write_record};
use gix_hash::Kind;
use gix_ref_name::FullNameRef;
use std::alloc::{AllocError, Global};

impl Buffer {
    /// The text of the records after the edits, as `packed_text` writes what `edited` returns; of
    /// several edits of a name the first counts. If the file is written so, the lines of all other
    /// records are copied from it.
    pub fn edited_text<'a>(
        &'a self,
        alloc: Global,
        kind: Kind,
        edits: &[Edit<'a>],
    ) -> Result<Vec<u8>, AllocError>
        ensures { IfOk result
            (λ text. IsTextOf kind (kept self.now) (lines_of edits.now) text.items) }
    {
        if self.is_written {
            return self.copied_text(alloc, kind, edits);
        }
        let records = edited(alloc, self.iter(), edits)?;
        written_records_are_read(records.as_slice(), kind);
        packed_text(alloc, records.as_slice())
    }

    // The text of the records after the edits, if the file is what is written of the records.
    fn copied_text(
        &self,
        alloc: Global,
        kind: Kind,
        edits: &[Edit<'_>],
    ) -> Result<Vec<u8>, AllocError>
        requires { IsTrue self.now.is_written }
        ensures { IfOk result
            (λ text. IsTextOf kind (kept self.now) (lines_of edits.now) text.items) }
    {
        entries_can_stand(&self.entries);
        let mut lines = Vec::new(alloc);
        lines.extend_from_slice(edits)?;
        let lines = sorted_by_name(lines)?;
        let mut text = Vec::new(alloc);
        write_header(&mut text)?;
        let rest = copy_lines(self.run(), &lines, &mut text)?;
        text.extend_from_slice(rest.text)?;
        Ok(text)
    }
}

// Appends the lines of the records under the edits, whose names ascend, but for the records after
// the last one's, which are returned.
fn copy_lines<'a>(
    all: Run<'a>,
    lines: &[Edit<'_>],
    text: &mut Vec<u8>,
) -> Result<Run<'a>, AllocError>
    ensures { Rises (lines_of lines.now) → AllStand (entry_records all.entry.entries.now)
        → IfOk result (λ rest. IsMerged (entry_records all.entry.entries.now) (lines_of lines.now)
        (entry_records rest.entries.now) text.old.items text.new.items) }
{
    let mut rest = all;
    let mut last = None;
    for line in lines {
        rest = copy_line(rest, last, line, text)?;
        last = Some(line.name());
    }
    Ok(rest)
}

// Does as `copy_edited`, unless the edit has the last one's name.
fn copy_line<'a>(
    rest: Run<'a>,
    last: Option<FullNameRef<'_>>,
    line: &Edit<'_>,
    text: &mut Vec<u8>,
) -> Result<Run<'a>, AllocError>
    ensures same { is_same (option_map name_of last.entry) (line_of line.now).name ≡ true
        → IfOk result (λ left. (left.entries.now ≡ rest.entry.entries.now)
        × (text.new.items ≡ text.old.items)) }
    ensures other { is_same (option_map name_of last.entry) (line_of line.now).name ≡ false
        → IfOk result (λ left. Copies (line_of line.now) (entry_records rest.entry.entries.now)
        (entry_records left.entries.now) text.old.items text.new.items) }
{
    if is_same(last, line.name()) {
        return Ok(rest);
    }
    copy_edited(rest, line, text)
}

// Appends the lines of the records before the name, and what the edit says of it. Returns the
// records after it.
fn copy_edited<'a>(
    before: Run<'a>,
    line: &Edit<'_>,
    text: &mut Vec<u8>,
) -> Result<Run<'a>, AllocError>
    ensures { IfOk result (λ rest. Copies (line_of line.now) (entry_records before.entry.entries.now)
        (entry_records rest.entries.now) text.old.items text.new.items) }
{
    let (front, back) = before.around(line.name().to_path());
    text.extend_from_slice(front.text)?;
    write_line(line, text)?;
    Ok(back)
}

// Appends the edit's record, if it has one.
fn write_line(line: &Edit<'_>, text: &mut Vec<u8>) -> Result<(), AllocError>
    ensures text { OnOk result (text.new.items
        ≡ text.old.items ++ records_text (option_to_list (line_of line.now).says)) }
    ensures stands { IfSome (line_of line.now).says CanStand }
{
    if let Edit::Write(record) = line {
        record_can_stand(record);
        write_record(*record, text)?;
    }
    Ok(())
}
