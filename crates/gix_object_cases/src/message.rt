//! Cases of `gix_object_message`.

use bstr::BStr;
use case_words::{Page, read_digits};
use gix_object_message::{MessageRef, TrailerRef};
use std::alloc::Global;

/// Adds what the operation of the line gives. `None` if the line is no case or no memory is left.
pub fn put_answer(alloc: Global, line: &str, page: &mut Page) -> Option<()> {
    let bytes = read_digits(alloc, line.strip_prefix("message ")?)?;
    put_message(alloc, &bytes, page)
}

// The summary of a message, its body, empty if there is none, and the lines of its trailers.
fn put_message(alloc: Global, bytes: &[u8], page: &mut Page) -> Option<()> {
    let message = MessageRef::from_bytes(bytes);
    page.name(BStr::new(message.summary(alloc).ok()?.as_slice()));
    page.text(" ");
    page.name(message.body.unwrap_or(BStr::new(b"")));
    page.text(" ");
    put_trailers(alloc, message, page)
}

// The lines of the trailers of a message's body.
fn put_trailers(alloc: Global, message: MessageRef<'_>, page: &mut Page) -> Option<()> {
    let mut lines = Vec::new(alloc);
    if let Some(body) = message.body() {
        for trailer in body.trailers() {
            add_line(trailer, &mut lines)?;
        }
    }
    page.name(BStr::new(&lines));
    Some(())
}

fn add_line(trailer: TrailerRef<'_>, lines: &mut Vec<u8>) -> Option<()> {
    lines.extend_from_slice(trailer.token.as_bytes()).ok()?;
    lines.extend_from_slice(b": ").ok()?;
    lines.extend_from_slice(trailer.value.as_bytes()).ok()?;
    lines.push(b'\n').ok()
}
