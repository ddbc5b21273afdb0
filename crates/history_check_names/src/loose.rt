//! Reads the text of a name's file: an id, another name if it is symbolic, or neither.

ghost use Rattle.std.specs.Prelude.{◌≡◌};
ghost use Rattle.history_check_names.specs.Sound.{ReadsAs, is_symbolic_line};

use gix_hash::{Kind, ObjectId};
use gix_object_lines::cut::{strip_prefix, strip_suffix};
use gix_ref_format::ids::parse_hex;
use history_texts::is_name;

/// The most bytes of a name's file, and of HEAD: `ref: `, a name and a line feed.
pub const MAX_LOOSE: u64 = 1_030;

/// What the text of a name's file says.
#[derive(Clone, Copy)]
pub(crate) enum Loose {
    /// An id.
    Holds(ObjectId),
    /// Another name.
    Symbolic,
    /// Neither.
    Faulty,
}

/// Reads the text of a name's file: an id's hex digits of either letter case, or `ref: ` and a
/// name, and a line feed.
pub(crate) fn read_loose(kind: Kind, text: &[u8]) -> Loose
    ensures { ReadsAs kind text.now result }
{
    let Some(line) = strip_suffix(text, b"\n") else {
        return Loose::Faulty;
    };
    if is_symbolic(line) {
        return Loose::Symbolic;
    }
    match parse_hex(kind, line) {
        Some(id) => Loose::Holds(id),
        None => Loose::Faulty,
    }
}

// Returns whether the line is `ref: ` and a name.
fn is_symbolic(line: &[u8]) -> bool
    ensures { result ≡ is_symbolic_line line.now }
{
    match strip_prefix(line, b"ref: ") {
        Some(name) => is_name(name),
        None => false,
    }
}
