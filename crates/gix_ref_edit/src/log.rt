//! What an edit does with the log of a reference: `RefLog`, and `LogChange` with its usual value.

ghost use Rattle.std.specs.Prelude.{[]};
ghost use Rattle.gix_ref_edit.specs.Edits.{IsUsualLog};

use gix_object_lines::ByteString;
use std::alloc::Global;

/// Whether an edit concerns a reference and its log, or the log alone.
#[derive(Debug, Clone, Copy, PartialEq, Eq, PartialOrd, Ord, Hash)]
pub enum RefLog {
    /// The reference and its log. A deletion removes both.
    AndReference,
    /// The log alone.
    Only,
}

/// What is written to the log of a reference that is updated.
#[derive(Debug, Drop, PartialEq, Eq)]
pub struct LogChange {
    /// Whether the reference is written too.
    pub mode: RefLog,
    /// Whether a log is made if the store would make none.
    pub force_create_reflog: bool,
    /// Why the update is made.
    pub message: ByteString,
}

impl LogChange {
    /// The log with the reference, not forced, and with an empty message. It takes no memory.
    pub fn new(alloc: Global) -> LogChange
        ensures { IsUsualLog result }
    {
        LogChange {
            mode: RefLog::AndReference,
            force_create_reflog: false,
            message: ByteString::new(Vec::new(alloc)),
        }
    }
}
