//! What a signature signs.

ghost use Rattle.std.specs.Prelude.{◌≡◌, IfOk};
ghost use Rattle.gix_object_signature.specs.Signed.{signed_bytes};

use bstr::BStr;
use gix_object_lines::ByteString;
use std::alloc::{AllocError, Global};

/// The bytes that a signature signs: those of an object except the signature's own.
#[derive(Debug, Clone, Copy, PartialEq, Eq)]
pub struct SignedData<'a> {
    /// The object's bytes before the signature.
    pub before: BStr<'a>,
    /// The object's bytes after the signature; none if it ends the object.
    pub behind: BStr<'a>,
}

impl<'a> SignedData<'a> {
    /// A copy of the bytes, in one.
    pub fn to_bstring(&self, alloc: Global) -> Result<ByteString, AllocError>
        ensures { IfOk result (λ copy. copy ≡ signed_bytes self.now) }
    {
        let mut bytes = Vec::from_slice(alloc, self.before.as_bytes())?;
        bytes.extend_from_slice(self.behind.as_bytes())?;
        Ok(ByteString::new(bytes))
    }
}
