//! Carriage returns, which programs on some systems write before each line feed.

ghost use Rattle.std.specs.Prelude.{◌≡◌, IfOk};
ghost use Rattle.gix_object_signature.specs.Signing.{without_cr};

use gix_object_lines::ByteString;
use std::alloc::{AllocError, Global};

/// A copy without each carriage return that a line feed follows.
pub(crate) fn drop_returns(alloc: Global, text: &[u8]) -> Result<ByteString, AllocError>
    ensures { IfOk result (λ copy. copy ≡ without_cr text.now) }
{
    let mut copy = Vec::with_capacity(alloc, text.len())?;
    let mut rest = text;
    'bytes: while let Some((byte, behind)) = rest.split_first() {
        if *byte != b'\r' || !behind.starts_with(b"\n") {
            copy.push(*byte)?;
        }
        rest = behind;
    }
    Ok(ByteString::new(copy))
}
