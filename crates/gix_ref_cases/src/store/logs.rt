//! Logs: by a name, and by a reference.

use case_words::Page;
use gix_hash::Kind;
use gix_ref_file::MemoryFiles;
use gix_ref_format::loose;
use gix_ref_log::Line;
use gix_ref_log::iter::{self, Forward};
use gix_ref_name::{FullNameRef, Target};
use gix_ref_store::Reference;
use gix_ref_store::store::file::log::Error;
use gix_ref_store::store::file::loose::LogExt;
use gix_ref_store::store::file::{ReferenceExt, Store};
use std::alloc::Global;

/// Adds what the operation returns of the log of a name, or of a loose reference of the name.
pub fn log(
    alloc: Global,
    store: &Store<MemoryFiles>,
    operation: &str,
    name: &str,
    page: &mut Page,
) {
    let Ok(name) = FullNameRef::new(name.as_bytes()) else {
        return page.text("no name");
    };
    let Ok(owned) = name.to_owned(alloc) else {
        return page.text("memory");
    };
    let reference = loose::Reference {
        name: owned,
        target: Target::Object(Kind::Sha1.null()),
    };
    match operation {
        "reflog_exists" => show_tests(alloc, store, name, reference, page),
        _ => show_log(alloc, store, operation == "log", &reference, page),
    }
}

// The new ids of the log of the reference, or of its name, from its beginning and from its end.
fn show_log(
    alloc: Global,
    store: &Store<MemoryFiles>,
    is_by_name: bool,
    reference: &loose::Reference,
    page: &mut Page,
) {
    let mut bytes = Vec::new(alloc);
    let lines = if is_by_name {
        store.reflog_iter(alloc, reference.name.as_ref(), &mut bytes)
    } else {
        reference.log_iter(alloc, store, &mut bytes)
    };
    if show_lines(lines, page) {
        page.text("/");
        show_back(alloc, store, is_by_name, reference, page);
    }
}

// The new id of each line, with a space after it. Returns whether there is such a log.
fn show_lines(lines: Result<Option<Forward<'_>>, Error>, page: &mut Page) -> bool {
    match lines {
        Ok(Some(lines)) => {
            for line in lines {
                match line {
                    Ok(line) => page.put_between("", line.new_oid, " "),
                    Err(error) => page.put_between("!", error.line, " "),
                }
            }
            return true;
        }
        Ok(None) => page.text("none"),
        Err(error) => page.put(error),
    }
    false
}

fn show_back(
    alloc: Global,
    store: &Store<MemoryFiles>,
    is_by_name: bool,
    reference: &loose::Reference,
    page: &mut Page,
) {
    let mut buffer = [0u8; 512];
    let lines = if is_by_name {
        store.reflog_iter_rev(alloc, reference.name.as_ref(), &mut buffer)
    } else {
        reference.log_iter_rev(alloc, store, &mut buffer)
    };
    match lines {
        Ok(Some(lines)) => {
            for line in lines {
                show_line(line, page);
            }
        }
        Ok(None) => page.text("none"),
        Err(error) => page.put(error),
    }
}

// The new id of a line from the end, with a space before it.
fn show_line(line: Result<Line, iter::Error>, page: &mut Page) {
    match line {
        Ok(line) => page.put_between(" ", line.new_oid.to_hex(), ""),
        Err(error) => page.put_between(" ", error, ""),
    }
}

// Whether a name has a log, and whether a reference of the name has one, loose and whole.
fn show_tests(
    alloc: Global,
    store: &Store<MemoryFiles>,
    name: FullNameRef<'_>,
    reference: loose::Reference,
    page: &mut Page,
) {
    show_test(store.reflog_exists(alloc, name), page);
    show_test(reference.log_exists(alloc, store), page);
    show_test(Reference::from(reference).log_exists(alloc, store), page);
}

fn show_test(has_log: Result<bool, Error>, page: &mut Page) {
    match has_log {
        Ok(has_log) => page.value(has_log),
        Err(error) => page.value(error),
    }
}
