//! Writing the text of `packed-refs`: the header, the line of a record, and that of its peeled id, in digits.

ghost use Rattle.std.specs.Prelude.{◌≡◌, ◌++◌, map, option_map, IfOk, OnOk};
ghost use Rattle.gix_hash.specs.Id.{id_of};
ghost use Rattle.gix_hash.specs.Spelling.{hex_text};
ghost use Rattle.gix_ref_format.specs.Packed.{record_of};
ghost use Rattle.gix_ref_format.specs.Written as spec;

use crate::packed::Reference;
use gix_hash::{Kind, ObjectId};
use std::alloc::{AllocError, Global};

// The first line, which says that the records ascend and have all peeled ids.
pub(crate) const HEADER: &[u8] = b"# pack-refs with: peeled fully-peeled sorted \n";

/// The text of a file of these records in their order, which is to ascend by name: the header and
/// each record's lines.
pub fn packed_text(alloc: Global, records: &[Reference<'_>]) -> Result<Vec<u8>, AllocError>
    ensures { IfOk result (λ text. text.items ≡ spec.packed_text (map record_of records.now)) }
{
    let mut text = Vec::new(alloc);
    write_header(&mut text)?;
    for record in records {
        write_record(*record, &mut text)?;
    }
    Ok(text)
}

/// Appends the first line.
pub fn write_header(out: &mut Vec<u8>) -> Result<(), AllocError>
    ensures { OnOk result (out.new.items ≡ out.old.items ++ spec.header_text) }
{
    out.extend_from_slice(HEADER)
}

/// Appends the line of a record, and after it that of its peeled id, if it has one. Digits are of
/// lower case.
pub fn write_record(record: Reference<'_>, out: &mut Vec<u8>) -> Result<(), AllocError>
    ensures { OnOk result
        (out.new.items ≡ out.old.items ++ spec.record_text (record_of record.entry)) }
{
    write_digits(&record.target, out)?;
    out.push(b' ')?;
    out.extend_from_slice(record.name.to_path())?;
    out.push(b'\n')?;
    write_peeled(record.object, out)
}

// Appends the line of a peeled id, if there is one.
fn write_peeled(peeled: Option<ObjectId>, out: &mut Vec<u8>) -> Result<(), AllocError>
    ensures { OnOk result
        (out.new.items ≡ out.old.items ++ spec.peel_text (option_map id_of peeled)) }
{
    if let Some(id) = peeled {
        out.push(b'^')?;
        write_digits(&id, out)?;
        out.push(b'\n')?;
    }
    Ok(())
}

fn write_digits(id: &ObjectId, out: &mut Vec<u8>) -> Result<(), AllocError>
    ensures { OnOk result
        (out.new.items ≡ out.old.items ++ hex_text (id_of id.now).digits) }
{
    let mut digits = Kind::hex_buf();
    out.extend_from_slice(id.as_oid().hex_to_buf(&mut digits).as_bytes())
}
