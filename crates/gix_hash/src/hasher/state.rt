//! What a hasher keeps.

use sha1::Sha1;
use sha2::Sha256;

/// A digest that is being computed: `hasher` makes one, `update` feeds it, and `try_finalize` ends
/// it.
#[derive(Drop)]
pub struct Hasher {
    pub(crate) state: State,
}

#[derive(Drop)]
pub(crate) enum State {
    Sha1(Sha1),
    Sha256(Sha256),
}
