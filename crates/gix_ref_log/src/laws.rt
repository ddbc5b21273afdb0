//! Laws of logs: a written line is read back, no text spells two lines, and a time's seconds have 64 bits.

ghost use Rattle.std.specs.Prelude.{ℕ, List, ◌≡◌, FitsSigned};
ghost use Rattle.std.specs.Int.{w64};
ghost use Rattle.gix_object_lines.specs.Bytes.{Lacks};
ghost use Rattle.gix_ref_log.specs.LogLine.{LineParts, SpellsLine};
ghost use Rattle.gix_ref_log.specs.LogOwned.{IsWritable, written_parts, written_text};

use crate::Line;
use gix_hash::laws::printed_id_reads_back;
use gix_object_lines::lines::Time;

/// What is written of a line spells it, if neither the name nor the email holds a tab; so
/// `LineRef::from_bytes` reads the same parts from it, with or without its line feed.
pub fn written_line_is_read_back(line: &Line)
    ensures { IsWritable line.now → Lacks 9 line.now.signature.name
        → Lacks 9 line.now.signature.email
        → SpellsLine (written_text line.now) (written_parts line.now) }
{
    let _previous = line.previous_oid.as_slice();
    printed_id_reads_back(&line.previous_oid);
    let _new = line.new_oid.as_slice();
    printed_id_reads_back(&line.new_oid);
    seconds_fit(&line.signature.time);
}

/// A text is a line of one list of parts at most.
pub fn one_line()
    ensures { (text : List ℕ) (one other : LineParts) → SpellsLine text one
        → SpellsLine text other → one ≡ other }
{}

// The seconds of a time are a number of 64 bits.
fn seconds_fit(time: &Time)
    ensures { FitsSigned w64 time.now.seconds }
{
    let _seconds = time.seconds;
}
