//! What full and partial names are, by their bytes.

use case_words::Page;
use gix_ref_name::compose::precompose_unicode;
use gix_ref_name::namespace::expand;
use gix_ref_name::{FullName, FullNameRef, Namespace, PartialNameRef};
use std::alloc::Global;

/// Whether it is a partial name, and whether a full one.
pub fn name(bytes: &[u8], page: &mut Page) -> Option<()> {
    page.put(PartialNameRef::new(bytes).is_ok());
    page.value(FullNameRef::new(bytes).is_ok());
    Some(())
}

/// The name again, from its category and its short name.
pub fn again(alloc: Global, bytes: &[u8], page: &mut Page) -> Option<()> {
    let Some((category, short)) = FullNameRef::new(bytes).ok()?.category_and_short_name() else {
        page.text("none");
        return Some(());
    };
    match category.to_full_name(alloc, short) {
        Ok(name) => page.put(name),
        Err(error) => page.put(error),
    }
    Some(())
}

/// The name as it is printed: a view and a name of its own, and both again if it is a full one.
pub fn shown(alloc: Global, bytes: &[u8], page: &mut Page) -> Option<()> {
    let partial = PartialNameRef::new(bytes).ok()?;
    page.put(partial);
    page.value(partial.to_owned(alloc).ok()?);
    if let Ok(full) = FullNameRef::new(bytes) {
        page.value(full);
        page.value(full.to_owned(alloc).ok()?);
    }
    Some(())
}

/// The namespace of the name, and `refs/heads/main` in it.
pub fn namespace(alloc: Global, bytes: &[u8], page: &mut Page) -> Option<()> {
    let namespace = expand(alloc, PartialNameRef::new(bytes).ok()?).ok()?;
    let main = FullName::from_bytes(alloc, b"refs/heads/main").ok()?;
    show_main(alloc, main, &namespace, page);
    Some(())
}

fn show_main(alloc: Global, main: FullName, namespace: &Namespace, page: &mut Page) {
    match main.prefix_namespace(alloc, namespace) {
        Ok(name) => {
            page.put(namespace.as_bstr());
            page.value(name);
        }
        Err(error) => page.put(error),
    }
}

/// The bytes with their characters composed.
pub fn composed(alloc: Global, bytes: &[u8], page: &mut Page) -> Option<()> {
    page.hex(precompose_unicode(alloc, bytes).ok()?.as_bytes());
    Some(())
}
