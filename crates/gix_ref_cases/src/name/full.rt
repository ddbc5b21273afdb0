//! Full names: their paths and last components, and names outside of a namespace.

use bstr::BStr;
use case_words::Page;
use gix_ref_name::namespace::expand;
use gix_ref_name::{FullName, FullNameRef, PartialNameRef};
use std::alloc::Global;

/// The path by a view and by a name of its own, and the bytes of a copy of it, taken out.
pub fn path(alloc: Global, bytes: &[u8], page: &mut Page) -> Option<()> {
    let view = FullNameRef::new(bytes).ok()?;
    let name = view.to_owned(alloc).ok()?;
    page.put(BStr::new(view.to_path()));
    page.value(BStr::new(name.to_path()));
    page.value(name.try_clone().ok()?.into_inner().as_bstr());
    Some(())
}

/// The last component by a view and by a name of its own.
pub fn last(alloc: Global, bytes: &[u8], page: &mut Page) -> Option<()> {
    let view = FullNameRef::new(bytes).ok()?;
    let name = view.to_owned(alloc).ok()?;
    page.put(view.file_name());
    page.value(name.file_name());
    Some(())
}

/// The first name without the front of the second one's namespace.
pub fn strip(alloc: Global, name: &[u8], space: &[u8], page: &mut Page) -> Option<()> {
    let namespace = expand(alloc, PartialNameRef::new(space).ok()?).ok()?;
    let name = FullName::from_bytes(alloc, name).ok()?;
    page.put(name.strip_namespace(alloc, &namespace).ok()?);
    Some(())
}
