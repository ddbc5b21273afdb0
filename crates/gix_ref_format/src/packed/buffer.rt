//! The types `Buffer` and `Entry`: the bytes and records of a whole `packed-refs`; why a file isn't opened.

ghost use Rattle.std.specs.Prelude.{◌≡◌, IsTrue};
ghost use Rattle.gix_ref_format.specs.declared.packed.buffer.Error.TheVariants.{Memory};
ghost use Rattle.gix_ref_format.specs.Packed.{record_of};
ghost use Rattle.gix_ref_format.specs.PackedBuffer.{IsInOrder, entry_record, entry_records};
ghost use Rattle.gix_ref_format.specs.PackedText.{IsWritten};

use crate::packed::Reference;
use gix_hash::ObjectId;
use gix_ref_name::FullName;
use std::alloc::{AllocError, AllocFailed};
use thiserror::Error;

/// Why a file isn't opened.
#[derive(Debug, Clone, Copy, PartialEq, Eq, Error)]
pub enum Error {
    /// A line is neither a record nor the peeled id of the one before it, or no line feed ends it.
    #[error("line {line_number} of the packed references can't be read")]
    Iter {
        /// The number of the first such line, from 1 on.
        line_number: u64,
    },
    /// The first line begins with `#` and is no header.
    #[error("the header of the packed references can't be read")]
    HeaderParsing,
    /// The file couldn't be read.
    #[error("the packed references can't be read")]
    Io,
    /// No memory is left.
    #[error("no memory is left")]
    Memory,
}

impl From<AllocError> for Error {
    ghost from_gives = { λ _ e. e ≡ Memory };

    fn from(_: AllocError) -> Self {
        Error::Memory
    }
}

impl<T: Drop> From<AllocFailed<T>> for Error {
    ghost from_gives = { λ _ e. e ≡ Memory };

    fn from(_: AllocFailed<T>) -> Self {
        Error::Memory
    }
}

// A record that owns its name.
#[derive(Debug, Drop)]
pub(crate) struct Entry {
    pub(crate) name: FullName,
    pub(crate) target: ObjectId,
    pub(crate) object: Option<ObjectId>,
}

impl Entry {
    // The record that it is.
    pub(crate) fn as_reference(&self) -> Reference<'_>
        ensures { record_of result ≡ entry_record self.now }
    {
        Reference {
            name: self.name.as_ref(),
            target: self.target,
            object: self.object,
        }
    }
}

/// The bytes of `packed-refs`, and its records in the order of their names, whatever order the file
/// has.
#[derive(Debug, Drop)]
pub struct Buffer {
    pub(crate) bytes: Vec<u8>,
    pub(crate) entries: Vec<Entry>,
    // The bytes are what is written of these records.
    pub(crate) is_written: bool,
    ghost in_order: { IsInOrder entries.items },
    ghost written: { IsTrue is_written → IsWritten (entry_records entries.items) bytes.items },
}

impl Buffer {
    /// The bytes of the file, as they were given.
    pub fn as_ref(&self) -> &[u8]
        ensures { result.now ≡ self.now.bytes.items }
    {
        self.bytes.as_slice()
    }
}

// The bytes of its name.
pub(crate) fn name_of(entry: &Entry) -> &[u8]
    ensures { result.now ≡ entry.now.name }
{
    entry.name.to_path()
}
