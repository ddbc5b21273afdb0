//! Why a folder isn't opened, as words.

use case_words::Page;
use history::{NamedBy, ObjectId, OpenError};

/// Adds the error's name, with its values.
pub fn show_open_error(error: &OpenError, page: &mut Page) {
    match error {
        OpenError::NoHead => page.word("NoHead"),
        OpenError::BadHead => page.word("BadHead"),
        OpenError::Stray(path) => page.named("Stray", path),
        OpenError::Unfinished(path) => page.named("Unfinished", path),
        OpenError::BadObject(path) => page.named("BadObject", path),
        OpenError::WrongId(path) => page.named("WrongId", path),
        OpenError::TooLarge(path) => page.named("TooLarge", path),
        OpenError::BadTree(id) => show_id("BadTree", id, page),
        OpenError::BadTime(id) => show_id("BadTime", id, page),
        OpenError::BadTag(id) => show_id("BadTag", id, page),
        OpenError::Missing(id, by) => show_named("Missing", id, by, page),
        OpenError::WrongKind(id, by) => show_named("WrongKind", id, by, page),
        OpenError::Cycle(id) => show_id("Cycle", id, page),
        OpenError::IdReserved => page.word("IdReserved"),
        OpenError::BadName(path) => page.named("BadName", path),
        OpenError::PrivateName(name) => page.named("PrivateName", name),
        OpenError::Symbolic(name) => page.named("Symbolic", name),
        OpenError::BadPacked(line) => show_number("BadPacked", *line, page),
        OpenError::BadPeeled(name) => page.named("BadPeeled", name),
        OpenError::Collides(name, other) => show_pair("Collides", name, other, page),
        OpenError::BadLog(path, line) => show_line("BadLog", path, *line, page),
        OpenError::LongLogLine(path, line) => show_line("LongLogLine", path, *line, page),
        OpenError::LogWithoutName(path) => page.named("LogWithoutName", path),
        OpenError::File => page.word("File"),
        OpenError::Memory => page.word("Memory"),
    }
}

fn show_id(cause: &str, id: &ObjectId, page: &mut Page) {
    page.word(cause);
    page.text(":");
    page.put(*id);
}

// Shows an object, and what names it.
fn show_named(cause: &str, id: &ObjectId, by: &NamedBy, page: &mut Page) {
    show_id(cause, id, page);
    page.text(":");
    match by {
        NamedBy::Object(id) => page.put(*id),
        NamedBy::Name(name) => page.bytes(name),
    }
}

// Shows a line of a log.
fn show_line(cause: &str, path: &[u8], line: usize, page: &mut Page) {
    page.named(cause, path);
    page.text(":");
    page.put(line);
}

// Shows a line of the packed names.
fn show_number(cause: &str, line: usize, page: &mut Page) {
    page.word(cause);
    page.text(":");
    page.put(line);
}

// Shows two names.
fn show_pair(cause: &str, name: &[u8], other: &[u8], page: &mut Page) {
    page.named(cause, name);
    page.text(":");
    page.bytes(other);
}
