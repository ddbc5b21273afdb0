//! Digests of bytes that come in pieces.

ghost use Rattle.std.specs.Prelude.{◌≡◌, ℕ, List, [], ◌++◌};
ghost use Rattle.gix_hash.specs.declared.kind.Kind.{Kind};
ghost use Rattle.gix_hash.specs.Id.{id_of};
ghost use Rattle.gix_hash.specs.Hasher.{id_of_message};
ghost use Rattle.gix_hash.specs.Fed.{HasFed};

mod state;

use crate::{Kind, ObjectId};
use sha1::Sha1;
use sha2::{Digest, Sha256};
pub use state::Hasher;
use state::State;

/// A hasher of a kind that has been fed nothing.
pub fn hasher(kind: Kind) -> Hasher
    ensures { HasFed result kind [] }
{
    let state = match kind {
        Kind::Sha1 => State::Sha1(Sha1::new()),
        Kind::Sha256 => State::Sha256(Sha256::new()),
    };
    Hasher { state }
}

impl Hasher {
    /// Feeds these bytes. All bytes that a hasher is fed are at most 2^61 - 1, as FIPS 180-4
    /// allows.
    pub fn update(&mut self, bytes: &[u8])
        ensures { (kind : Kind) (fed : List ℕ) → HasFed self.old kind fed
            → HasFed self.new kind (fed ++ bytes.now) }
    {
        match &mut self.state {
            State::Sha1(hasher) => hasher.update(bytes),
            State::Sha256(hasher) => hasher.update(bytes),
        }
    }

    /// The id that is the digest of all bytes fed.
    pub fn try_finalize(self) -> ObjectId
        ensures { (kind : Kind) (fed : List ℕ) → HasFed self kind fed
            → id_of result ≡ id_of_message kind fed }
    {
        match self.state {
            State::Sha1(hasher) => ObjectId::Sha1(hasher.finalize()),
            State::Sha256(hasher) => ObjectId::Sha256(hasher.finalize()),
        }
    }
}
