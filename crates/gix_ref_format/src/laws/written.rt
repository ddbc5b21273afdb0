//! Laws of `packed-refs`: what is written of records is read back, and each record may be in a file.

ghost use Rattle.std.specs.Prelude.{◌≡◌, map, Some};
ghost use Rattle.gix_hash.specs.Id.{id_of};
ghost use Rattle.gix_hash.specs.declared.kind.Kind.{Kind};
ghost use Rattle.gix_ref_format.specs.Packed.{packed_records, record_of};
ghost use Rattle.gix_ref_format.specs.PackedBuffer.{entry_records};
ghost use Rattle.gix_ref_format.specs.PackedText.{AllStand, CanStand};
ghost use Rattle.gix_ref_format.specs.Written.{IsIdOf, AreRecordsOf, AllHaveKind, packed_text};

use crate::packed::Reference;
use crate::packed::buffer::Entry;
use gix_hash::laws::printed_id_reads_back;
use gix_hash::{Kind, ObjectId};

/// The text of records whose ids are all of this kind is read as them.
pub fn written_records_are_read(records: &[Reference<'_>], kind: Kind)
    ensures { let all = map record_of records.now in
        AllHaveKind kind all → packed_records kind (packed_text all) ≡ Some all }
{
    records_can_stand(records, kind);
}

/// Records whose ids are all of this kind may be in a file of it.
pub fn records_can_stand(records: &[Reference<'_>], kind: Kind)
    ensures { AllHaveKind kind (map record_of records.now)
        → AreRecordsOf kind (map record_of records.now) }
{
    for record in records {
        record_can_stand(record);
    }
}

/// Those of entries may be in a file of the hash function of their ids.
pub(crate) fn entries_can_stand(entries: &[Entry])
    ensures { AllStand (entry_records entries.now) }
{
    for entry in entries {
        record_can_stand(&entry.as_reference());
    }
}

/// So may each record.
pub(crate) fn record_can_stand(record: &Reference<'_>)
    ensures { CanStand (record_of record.now) }
{
    id_can_stand(&record.target);
    let _name = record.name.as_bstr();
    if let Some(peeled) = record.object {
        id_can_stand(&peeled);
    }
}

fn id_can_stand(id: &ObjectId)
    ensures { (kind : Kind) → (id_of id.now).kind ≡ kind → IsIdOf kind (id_of id.now) }
{
    printed_id_reads_back(id);
    let _bytes = id.as_slice();
}
