//! The type `Edit`: a name of `packed-refs` gets a record or loses it.

ghost use Rattle.std.specs.Prelude.{◌≡◌};
ghost use Rattle.gix_ref_name.specs.Names.{name_of};

use crate::packed::Reference;
use gix_ref_name::FullNameRef;

/// What becomes of a name's record.
#[derive(Debug, Clone, Copy, PartialEq, Eq)]
pub enum Edit<'a> {
    /// The name gets this record, in place of any that it has.
    Write(Reference<'a>),
    /// The name gets no record.
    Remove(FullNameRef<'a>),
}

impl<'a> Edit<'a> {
    ghost use Rattle.gix_ref_format.specs.Edited.{line_of};

    /// The name.
    pub fn name(&self) -> FullNameRef<'a>
        ensures { name_of result ≡ (line_of self.now).name }
    {
        match self {
            Edit::Write(record) => record.name,
            Edit::Remove(name) => *name,
        }
    }
}
