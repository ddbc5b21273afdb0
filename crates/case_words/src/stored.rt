//! Objects by their ids.

ghost use Rattle.std.specs.Prelude.{◌≡◌, find};
ghost use Rattle.std.specs.Option.{option_copied};
ghost use Rattle.gix_hash.specs.Id.{id_of};
ghost use Rattle.gix_hash.specs.Order.{id_eq};
ghost use Rattle.gix_hash.specs.Views.{viewed_id};

use gix_hash::{ObjectId, oid};
use gix_object_hash::compute_hash;
use gix_object_lines::Kind;
use gix_object_lines::decode::loose_header;
use std::alloc::Global;

/// An object and its id.
#[derive(Drop)]
pub struct Stored {
    /// Its id.
    pub id: ObjectId,
    /// Its kind.
    pub kind: Kind,
    /// Its content.
    pub content: Vec<u8>,
}

/// The first of these objects that has the id.
pub fn stored_at<'a>(objects: &'a Vec<Stored>, id: oid<'_>) -> Option<&'a Stored>
    ensures { option_copied result
        ≡ find (λ stored. id_eq (id_of stored.id) (viewed_id id.entry)) objects.now.items }
{
    objects.iter().find(|stored| has_id(stored, id))
}

fn has_id(stored: &Stored, id: oid<'_>) -> bool
    ensures { result ≡ id_eq (id_of stored.now.id) (viewed_id id.entry) }
{
    stored.id.as_oid().eq_oid(id)
}

/// A loose object under its id by this hash function. `None` if it isn't loose, or if no memory is
/// left.
pub fn read_loose(alloc: Global, ids: gix_hash::Kind, loose: &[u8]) -> Option<Stored> {
    let (kind, _, header) = loose_header(loose).ok()?;
    let content = loose.get(header..)?;
    Some(Stored {
        id: compute_hash(ids, kind, content),
        kind,
        content: Vec::from_slice(alloc, content).ok()?,
    })
}
