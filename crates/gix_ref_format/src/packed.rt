//! The file `packed-refs`: the types `Header`, `Peeled` and `Reference`, with a record's target and object.

ghost use Rattle.std.specs.Prelude.{◌≡◌, false, unwrap_or};
ghost use Rattle.gix_ref_format.specs.declared.packed.Peeled.TheVariants.{Unspecified};

mod again;
pub mod buffer;
mod decode;
mod edit;
mod find;
pub mod iter;
mod merge;
mod open;
mod records;
mod run;
mod text;
mod write;

pub use crate::packed::buffer::Buffer;
pub use crate::packed::edit::Edit;
pub use crate::packed::find::FindError;
pub use crate::packed::iter::Iter;
pub use crate::packed::merge::{edited, written};
pub use crate::packed::records::Records;
pub use crate::packed::write::{packed_text, write_header, write_record};
use gix_hash::ObjectId;
use gix_ref_name::FullNameRef;

/// How far the records have peeled ids.
#[derive(Debug, Clone, Copy, PartialEq, Eq)]
pub enum Peeled {
    /// The header says nothing of it.
    Unspecified,
    /// Tags below `refs/tags/` have peeled ids.
    Partial,
    /// Each record of a tag has its peeled id.
    Fully,
}

/// What the first line says of the records.
#[derive(Debug, Clone, Copy, PartialEq, Eq)]
pub struct Header {
    /// How far they have peeled ids.
    pub peeled: Peeled,
    /// Whether they ascend by their names.
    pub sorted: bool,
}

impl Default for Header {
    ghost is_default = { λ header. header ≡ record { peeled = Unspecified; sorted = false } };

    fn default() -> Header {
        Header {
            peeled: Peeled::Unspecified,
            sorted: false,
        }
    }
}

/// A record.
#[derive(Debug, Clone, Copy, PartialEq, Eq)]
pub struct Reference<'a> {
    /// Its name.
    pub name: FullNameRef<'a>,
    /// The id that it points to.
    pub target: ObjectId,
    /// The id of the object that a tag points to in the end, if the record has it.
    pub object: Option<ObjectId>,
}

impl Reference<'_> {
    /// The id that it points to.
    pub fn target(&self) -> ObjectId
        ensures { result ≡ self.now.target }
    {
        self.target
    }

    /// The object that it points to in the end: the peeled id if the record has one, and otherwise
    /// the target.
    pub fn object(&self) -> ObjectId
        ensures { result ≡ unwrap_or self.now.object self.now.target }
    {
        self.object.unwrap_or(self.target)
    }
}
