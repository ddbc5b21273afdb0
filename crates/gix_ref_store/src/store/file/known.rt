//! The bytes of a name as the store knows them: composed (precomposed Unicode), if its options say so.

ghost use Rattle.std.specs.Prelude.{◌≡◌, IfOk};
ghost use Rattle.gix_ref_store.specs.Known.{known_as};

use crate::store::file::Store;
use gix_object_lines::ByteString;
use gix_ref_file::Files;
use gix_ref_name::compose::precompose_unicode;
use std::alloc::{AllocError, Global};

impl<F: Files> Store<F> {
    // A copy of a name's bytes, as the store knows them.
    pub(crate) fn known(&self, alloc: Global, bytes: &[u8]) -> Result<ByteString, AllocError>
        ensures { IfOk result (λ text.
            text ≡ known_as self.now.options.precompose_unicode bytes.now) }
    {
        as_known(
            alloc,
            self.options.precompose_unicode,
            ByteString::from_slice(alloc, bytes)?,
        )
    }
}

// A name's bytes, as a store knows them: composed if `composes` is set.
pub(crate) fn as_known(
    alloc: Global,
    composes: bool,
    bytes: ByteString,
) -> Result<ByteString, AllocError>
    ensures value { IfOk result (λ text. text ≡ known_as composes bytes) }
    ensures stays { IfOk result (λ text. known_as composes text ≡ text) }
{
    if composes {
        precompose_unicode(alloc, bytes.as_bytes())
    } else {
        Ok(bytes)
    }
}
