//! Spelling, and why a value is refused.

ghost use Rattle.std.specs.Prelude.{◌≡◌, ◌≤◌, ◌+◌, ◌++◌, length};
ghost use Rattle.gix_object_lines.specs.Header.{header_text};

use crate::Kind;
use arrayvec::ArrayVec;
use thiserror::Error;

/// Why a value can't be spelled in an object.
#[derive(Debug, Clone, Copy, PartialEq, Eq, Error)]
pub enum Error {
    /// The value holds a line feed, which would end its line.
    #[error("a header's value must not hold a line feed")]
    NewlineInHeaderValue,
    /// The value is empty.
    #[error("a header's value must not be empty")]
    EmptyValue,
    /// The value is one that the format never writes.
    #[error("the value has no written form")]
    Unspellable,
}

/// The header of an object of this kind whose content has this length in bytes: at most 28 bytes,
/// which the result holds without memory of its own.
pub fn loose_header(kind: Kind, size: u64) -> ArrayVec<u8, 28>
    ensures { result.items ≡ header_text kind size }
{
    let mut digits = itoa::Buffer::new();
    let mut header = ArrayVec::new();
    append(&mut header, kind.as_bytes());
    append(&mut header, b" ");
    append(&mut header, digits.format(size).as_bytes());
    append(&mut header, b"\0");
    header
}

// Appends bytes for which there is room.
fn append(header: &mut ArrayVec<u8, 28>, bytes: &[u8])
    requires { length header.old.items + length bytes.now ≤ 28 }
    ensures { header.new.items ≡ header.old.items ++ bytes.now }
{
    header.try_extend_from_slice(bytes).unwrap();
}
