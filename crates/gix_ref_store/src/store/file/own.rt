//! What a listing knows of a name's own file (`OwnFile`): its target, a fault, missing or unread.

ghost use Rattle.std.specs.Prelude.{◌≡◌};
ghost use Rattle.gix_ref_store.specs.OwnFiles as spec;

use gix_ref_format::loose;
use gix_ref_name::{FullName, Target};
use std::collections::BTreeMap;

// What is known of a name's own file.
#[derive(Drop)]
pub(crate) enum OwnFile {
    // It holds this target.
    Holds(Target),
    // Its text names no target, for this reason.
    Faulty(loose::Error),
    // There is none.
    Missing,
    // It wasn't read.
    Unread,
}

// The names of a listing.
pub(crate) type Names = BTreeMap<FullName, OwnFile>;

impl OwnFile {
    // Returns whether there is a file, and it was read.
    pub(crate) fn is_read(&self) -> bool
        ensures { result ≡ spec.is_read self.now }
    {
        match self {
            OwnFile::Holds(_) | OwnFile::Faulty(_) => true,
            OwnFile::Missing | OwnFile::Unread => false,
        }
    }
}
