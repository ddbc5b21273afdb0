//! The view itself, apart from what the contracts say of it.

ghost use Rattle.std.specs.Prelude.{length, ◌||◌, ◌==◌, IsTrue};

/// A view of an object id's bytes. Views are ordered by their digits, a shorter beginning first.
#[derive(Clone, Copy, PartialEq, Eq, PartialOrd, Ord)]
pub struct oid<'a> {
    pub(crate) bytes: &'a [u8],
    ghost whole: { IsTrue (length bytes.now == 20 || length bytes.now == 32) },
}
