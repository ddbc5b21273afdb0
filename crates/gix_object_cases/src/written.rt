//! Objects as they are written, and an actor's parts.

use case_words::Page;
use gix_hash::ObjectId;
use gix_object_lines::WriteTo;
use gix_object_lines::lines::ActorRef;
use std::alloc::Global;

// The id of an object: of its header and of what is written of it. `None` if that is refused.
fn written_id<T: WriteTo>(alloc: Global, kind: gix_hash::Kind, object: &T) -> Option<ObjectId> {
    let mut digest = gix_hash::hasher::hasher(kind);
    digest.update(object.loose_header()?.as_slice());
    let mut content = Vec::new(alloc);
    object.write_to(&mut content).ok()?;
    digest.update(content.as_slice());
    Some(digest.try_finalize())
}

/// Adds an object's kind, and the length and the id of what is written of it.
pub fn show_object<T: WriteTo>(alloc: Global, kind: gix_hash::Kind, object: &T, page: &mut Page) {
    let Some(id) = written_id(alloc, kind, object) else {
        return page.text("unwritten");
    };
    page.put_between("", object.kind(), " ");
    match object.size() {
        Some(size) => page.put_between("", size, " "),
        None => page.text("no size "),
    }
    page.put(id);
}

/// Adds what is written of an object, or why it is refused and how much is written before that.
pub fn show_written<T: WriteTo>(alloc: Global, object: &T, page: &mut Page) {
    let mut content = Vec::new(alloc);
    match object.write_to(&mut content) {
        Ok(()) => page.between("written ", content.as_slice(), ""),
        Err(error) => {
            page.refused(error);
            page.put_between(" behind ", content.len(), "");
        }
    }
}

/// Adds an actor's name, email and time between two texts.
pub fn show_actor(before: &str, actor: ActorRef<'_>, behind: &str, page: &mut Page) {
    page.between(before, actor.name.as_bytes(), "|");
    page.between("", actor.email.as_bytes(), "|");
    page.between("", actor.time.as_bytes(), behind);
}
