//! The id of a given kind that hexadecimal digits spell (`parse_hex`).

ghost use Rattle.std.specs.Prelude.{◌≡◌};
ghost use Rattle.std.specs.Option.{option_map};
ghost use Rattle.gix_hash.specs.Id.{id_of};
ghost use Rattle.gix_ref_format.specs.Ids.{id_from_hex};

use gix_hash::{Kind, ObjectId};

/// The id of this kind that hex digits of either letter case spell; `None` if they spell none.
pub fn parse_hex(kind: Kind, digits: &[u8]) -> Option<ObjectId>
    ensures { option_map id_of result ≡ id_from_hex kind digits.now }
{
    let id = ObjectId::from_hex(digits).ok()?;
    if id.kind() == kind { Some(id) } else { None }
}
