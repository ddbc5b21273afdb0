//! Partial names that own their bytes, and what namespaces make of bytes.

use bstr::BStr;
use case_words::Page;
use gix_ref_name::namespace::expand;
use gix_ref_name::{Namespace, PartialName, PartialNameRef};
use std::alloc::Global;

/// The name of a copy of the bytes, shown by its path, its text and the bytes of a copy of it.
pub fn partial(alloc: Global, bytes: &[u8], page: &mut Page) -> Option<()> {
    match PartialName::from_bytes(alloc, bytes) {
        Ok(name) => show(&name, page),
        Err(error) => {
            page.put(error);
            Some(())
        }
    }
}

fn show(name: &PartialName, page: &mut Page) -> Option<()> {
    page.put(BStr::new(name.as_ref().to_partial_path()));
    page.value(name.as_bstr());
    page.value(name.try_clone().ok()?.into_inner().as_bstr());
    Some(())
}

/// The name, a slash and the component.
pub fn join(alloc: Global, name: &[u8], component: &[u8], page: &mut Page) -> Option<()> {
    let name = PartialName::from_bytes(alloc, name).ok()?;
    match name.join(BStr::new(component)) {
        Ok(name) => page.put(name),
        Err(error) => page.put(error),
    }
    Some(())
}

/// The prefix after the front of the name's namespace, and the front that a copy keeps, as a path
/// and taken out.
pub fn prefixed(alloc: Global, name: &[u8], prefix: &[u8], page: &mut Page) -> Option<()> {
    let namespace = expand(alloc, PartialNameRef::new(name).ok()?).ok()?;
    let copy = namespace.try_clone().ok()?;
    page.put(namespace.into_namespaced_prefix(prefix).ok()?.as_bstr());
    show_front(copy, page);
    Some(())
}

fn show_front(namespace: Namespace, page: &mut Page) {
    page.value(BStr::new(namespace.to_path()));
    page.value(namespace.into_bstring().as_bstr());
}
