//! A prefix put before bytes, unless they begin with it, or taken off them.

ghost use Rattle.std.specs.Prelude.{◌≡◌, ◌++◌, IfOk};
ghost use Rattle.gix_ref_name.specs.Fronts as spec;

use gix_object_lines::ByteString;
use gix_object_lines::cut::{starts_with, strip_prefix};
use std::alloc::{AllocError, Global};

/// What follows the front, and the whole if the bytes don't begin with it.
pub(crate) fn without_front<'a>(bytes: &'a [u8], front: &[u8]) -> &'a [u8]
    ensures { result.now ≡ spec.without_front front.now bytes.now }
{
    match strip_prefix(bytes, front) {
        Some(rest) => rest,
        None => bytes,
    }
}

/// The bytes with the front before them, unless they begin with it.
pub(crate) fn with_front(
    alloc: Global,
    front: &[u8],
    bytes: &[u8],
) -> Result<ByteString, AllocError>
    ensures { IfOk result (λ text. text ≡ spec.with_front front.now bytes.now) }
{
    if starts_with(bytes, front) {
        return ByteString::from_slice(alloc, bytes);
    }
    let mut out = Vec::from_slice(alloc, front)?;
    out.extend_from_slice(bytes)?;
    Ok(ByteString::new(out))
}
