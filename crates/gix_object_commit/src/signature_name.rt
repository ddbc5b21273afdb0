//! The names of the headers that hold commits' signatures.

ghost use Rattle.std.specs.Prelude.{◌≡◌};
ghost use Rattle.gix_object_commit.specs.Signature.{signature_name};

use gix_hash::Kind;

/// The name of the header that holds a commit's signature, over its content with SHA-1 ids.
pub const SIGNATURE_FIELD_NAME: &str = "gpgsig";

/// The name of the header that holds a commit's signature, over its content with SHA-256 ids.
pub const SIGNATURE_FIELD_NAME_SHA256: &str = "gpgsig-sha256";

/// The name of the header that holds a commit's signature, if its ids are of this hash function.
pub fn signature_field_name(hash_kind: Kind) -> &'static str
    ensures { result.now ≡ signature_name hash_kind }
{
    match hash_kind {
        Kind::Sha1 => SIGNATURE_FIELD_NAME,
        Kind::Sha256 => SIGNATURE_FIELD_NAME_SHA256,
    }
}
