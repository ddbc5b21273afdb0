//! Laws of loose texts: what is written of an id or of a name is read back.

ghost use Rattle.std.specs.Prelude.{◌≡◌, Some};
ghost use Rattle.gix_hash.specs.Id.{id_of};
ghost use Rattle.gix_ref_name.specs.Names.{name_of};
ghost use Rattle.gix_ref_name.specs.Targets.{ToObject, ToName};
ghost use Rattle.gix_ref_format.specs.Loose.{loose_target, loose_text};

mod written;

use gix_hash::laws::printed_id_reads_back;
use gix_hash::{Kind, ObjectId};
use gix_ref_name::FullNameRef;
pub(crate) use written::{entries_can_stand, record_can_stand};
pub use written::{records_can_stand, written_records_are_read};

/// The text that is written of an id is read as that id.
pub fn written_id_is_read(id: &ObjectId)
    ensures { loose_target (id_of id.now).kind (loose_text (ToObject (id_of id.now)))
        ≡ Some (ToObject (id_of id.now)) }
{
    printed_id_reads_back(id);
    let _bytes = id.as_slice();
}

/// The text that is written of a name is read as that name.
pub fn written_name_is_read(name: FullNameRef<'_>, kind: Kind)
    ensures { loose_target kind (loose_text (ToName (name_of name.entry)))
        ≡ Some (ToName (name_of name.entry)) }
{
    let _bytes = name.as_bstr();
}
