//! Texts that may be no UTF-8, lent and owned.

ghost use Rattle.std.specs.Prelude.{◌≡◌, IfOk, IfErr, option_map};
ghost use Rattle.bstr.specs.BStr.{bstr_bytes};
ghost use Rattle.gix_object_lines.specs.declared.decode.Error.TheVariants.{Memory};

use crate::byte_string::ByteString;
use crate::decode::Error;
use bstr::BStr;
use std::alloc::Global;

/// The text, lent, if there is one.
pub fn bstr_of(text: &Option<ByteString>) -> Option<BStr<'_>>
    ensures { option_map bstr_bytes result ≡ text.now }
{
    match text {
        Some(text) => Some(text.as_bstr()),
        None => None,
    }
}

/// A copy of the text; `Memory` if no memory is left.
pub fn own_text(alloc: Global, text: BStr<'_>) -> Result<ByteString, Error>
    ensures own { IfOk result (λ copy. copy ≡ bstr_bytes text.entry) }
    ensures refused { IfErr result (λ error. error ≡ Memory) }
{
    match ByteString::from_slice(alloc, text.as_bytes()) {
        Ok(copy) => Ok(copy),
        Err(_) => Err(Error::Memory),
    }
}

/// A copy of the text, if there is one; `Memory` if no memory is left.
pub fn own_text_if_any(alloc: Global, text: Option<BStr<'_>>) -> Result<Option<ByteString>, Error>
    ensures own { IfOk result (λ copy. copy ≡ option_map bstr_bytes text.entry) }
    ensures refused { IfErr result (λ error. error ≡ Memory) }
{
    match text {
        Some(text) => Ok(Some(own_text(alloc, text)?)),
        None => Ok(None),
    }
}
