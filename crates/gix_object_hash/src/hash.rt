//! The ids of objects.

ghost use Rattle.std.specs.Prelude.{◌≡◌, ◌++◌, length};
ghost use Rattle.gix_hash.specs.Id.{id_of};
ghost use Rattle.gix_hash.specs.Hasher.{id_of_message};
ghost use Rattle.gix_object_lines.specs.Header.{header_text};

use gix_hash::ObjectId;
use gix_hash::hasher::hasher;
use gix_object_lines::{Kind, encode};

/// The id of an object of this kind and content: the digest of its header and its content.
pub fn compute_hash(hash_kind: gix_hash::Kind, object_kind: Kind, content: &[u8]) -> ObjectId
    ensures { id_of result
        ≡ id_of_message hash_kind (header_text object_kind (length content.now) ++ content.now) }
{
    let header = encode::loose_header(object_kind, content.len() as u64);
    let mut digest = hasher(hash_kind);
    digest.update(header.as_slice());
    digest.update(content);
    digest.try_finalize()
}
