//! What references point to.

use case_words::Page;
use gix_hash::ObjectId;
use gix_object_lines::cut::strip_prefix;
use gix_ref_name::{FullName, Target};
use std::alloc::Global;
use std::convert::TryFrom;

/// The target of the text of a loose file without its line feed. `None` if it is no such text or no
/// memory is left.
pub fn read(alloc: Global, text: &[u8]) -> Option<Target> {
    match strip_prefix(text, b"ref: ") {
        Some(name) => Some(Target::from(FullName::from_bytes(alloc, name).ok()?)),
        None => Some(Target::from(ObjectId::from_hex(text).ok()?)),
    }
}

/// The id taken out, by the call and by the conversion, or the target that comes back; and the
/// view's own copy.
pub fn taken(alloc: Global, text: &[u8], page: &mut Page) -> Option<()> {
    let target = read(alloc, text)?;
    show_taken(target.try_clone().ok()?.try_into_id(), page);
    show_taken(ObjectId::try_from(target.try_clone().ok()?), page);
    page.put(target.to_ref().into_owned(alloc).ok()?);
    Some(())
}

/// Whether the target is a null id, by a target of its own and by its view.
pub fn null(alloc: Global, text: &[u8], page: &mut Page) -> Option<()> {
    let target = read(alloc, text)?;
    page.put(target.is_null());
    page.value(target.to_ref().is_null());
    Some(())
}

fn show_taken(taken: Result<ObjectId, Target>, page: &mut Page) {
    match taken {
        Ok(id) => page.put_between("id ", id, "; "),
        Err(target) => page.put_between("back ", target, "; "),
    }
}
