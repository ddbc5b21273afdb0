//! Names with their characters composed in Unicode's form C, for file systems that take them apart.

ghost use Rattle.std.specs.Prelude.{◌≡◌, IfOk};
ghost use Rattle.gix_ref_name.specs.Composed.{composed};

use gix_object_lines::ByteString;
use std::alloc::{AllocError, Global};
use std::str;
use unicode_normalization::to_nfc;

/// The bytes with their characters composed, in Unicode's form C; composed again they are the same.
/// Bytes that are no UTF-8 stay as they are.
pub fn precompose_unicode(alloc: Global, bytes: &[u8]) -> Result<ByteString, AllocError>
    ensures value { IfOk result (λ text. text ≡ composed bytes.now) }
    ensures stays { IfOk result (λ text. composed text ≡ text) }
{
    match str::from_utf8(bytes) {
        Ok(text) => {
            let text = to_nfc(alloc, text)?;
            ByteString::from_slice(alloc, text.as_str().as_bytes())
        }
        Err(_) => ByteString::from_slice(alloc, bytes),
    }
}
