//! Ids in lower-case hexadecimal digits, written and parsed.
ghost use Rattle.std.specs.Prelude.{◌≡◌, ◌≢◌, MatchOption, IsTrue};
ghost use Rattle.gix_hash.specs.Id.{Id, id_of};
ghost use Rattle.history_model.specs.Forms.{is_id};
ghost use Rattle.history_model.specs.Objects.{hex};

use gix_hash::{Kind, ObjectId};
use gix_ref_format::ids::parse_hex;

/// Writes an id's lower-case hex digits to the start of a buffer, which `Kind::hex_buf` makes, and
/// returns them.
pub fn hex_digits<'b>(id: &ObjectId, buffer: &'b mut [u8; 64]) -> &'b [u8]
    ensures { result.now ≡ hex (id_of id.now) }
{
    id.hex_to_buf(buffer).as_bytes()
}

/// Returns the id of this kind that hex digits spell, all in lower case; `None` if they spell none.
pub fn parse_lower_hex(kind: Kind, digits: &[u8]) -> Option<ObjectId>
    ensures { MatchOption result ((id : Id) → IsTrue (is_id kind id) → digits.now ≢ hex id)
        (λ id. IsTrue (is_id kind (id_of id)) × (digits.now ≡ hex (id_of id))) }
{
    let id = parse_hex(kind, digits)?;
    let mut lower = Kind::hex_buf();
    if hex_digits(&id, &mut lower) == digits {
        Some(id)
    } else {
        None
    }
}
