//! Cases of the logs of `gix_ref_format`.

use case_words::Page;
use gix_object_lines::hex_line::is_id;
use gix_ref_file::{Files, MemoryFiles};
use gix_ref_log::iter::{Error, FileAt, ReadAt, forward, reverse};
use gix_ref_log::{Line, LineRef};
use std::alloc::Global;

const REFUSED: &str = "refused";

// Bytes in hexadecimal digits, after a slash.
fn put_part(bytes: &[u8], page: &mut Page) {
    page.text("/");
    page.hex(bytes);
}

// The new id, the name, the email and the message, the last three in hexadecimal digits.
fn put_line(line: &LineRef<'_>, page: &mut Page) {
    page.put(line.new_oid);
    put_part(line.signature.name.as_bytes(), page);
    put_part(line.signature.email.as_bytes(), page);
    put_part(line.message.as_bytes(), page);
}

fn put_owned(line: &Line, page: &mut Page) {
    page.put(line.new_oid.to_hex());
    put_part(line.signature.name.as_bytes(), page);
    put_part(line.signature.email.as_bytes(), page);
    put_part(line.message.as_bytes(), page);
}

// Each item after a space: a line, or `!` and the number of one that is none.
fn put_forward(log: &[u8], page: &mut Page) {
    for item in forward(log) {
        page.text(" ");
        match item {
            Ok(line) => put_line(&line, page),
            Err(error) => page.put_between("!", error.line, ""),
        }
    }
}

// The same from the end, through a buffer of so many bytes; an error that ends the walk by its
// text.
fn put_reverse<R: ReadAt + Drop>(alloc: Global, log: R, size: usize, page: &mut Page) {
    match Vec::from_elem(alloc, 0, size) {
        Ok(mut buffer) => put_by(alloc, log, buffer.as_mut_slice(), page),
        Err(_) => page.text("memory"),
    }
}

fn put_by<R: ReadAt + Drop>(alloc: Global, log: R, buffer: &mut [u8], page: &mut Page) {
    match reverse(alloc, log, buffer) {
        Ok(lines) => {
            for item in lines {
                page.text(" ");
                put_item(item, page);
            }
        }
        Err(error) => page.put_between(" ", error, ""),
    }
}

fn put_item(item: Result<Line, Error>, page: &mut Page) {
    match item {
        Ok(line) => put_owned(&line, page),
        Err(Error::Decode(error)) => page.put_between("!", error.line, ""),
        Err(error) => page.put(error),
    }
}

// The same of a file of these bytes.
fn put_file(alloc: Global, log: &[u8], size: usize, page: &mut Page) {
    let mut files = MemoryFiles::new(alloc);
    if files.write(alloc, b"log", log).is_err() {
        return page.text(REFUSED);
    }
    let log = FileAt {
        files: &files,
        path: b"log",
    };
    put_reverse(alloc, log, size, page);
}

fn read(alloc: Global, text: &[u8]) -> Option<Line> {
    LineRef::from_bytes(text).ok()?.to_owned(alloc).ok()
}

// The line as it is written again, in hexadecimal digits.
fn again(alloc: Global, text: &[u8], page: &mut Page) {
    match read(alloc, text) {
        Some(line) => put_written(alloc, &line, page),
        None => page.text(REFUSED),
    }
}

// The copy of what was read, written in the same way.
fn copied(alloc: Global, text: &[u8], page: &mut Page) {
    match read(alloc, text) {
        Some(line) => put_copy(alloc, &line, page),
        None => page.text(REFUSED),
    }
}

fn put_copy(alloc: Global, line: &Line, page: &mut Page) {
    match line.try_clone() {
        Ok(copy) => put_written(alloc, &copy, page),
        Err(_) => page.text(REFUSED),
    }
}

// The ids in a line, by the calls that return them.
fn ids(text: &[u8], page: &mut Page) {
    let Ok(line) = LineRef::from_bytes(text) else {
        return page.text(REFUSED);
    };
    if !is_id(line.previous_oid.as_bytes()) || !is_id(line.new_oid.as_bytes()) {
        return page.text("no ids");
    }
    page.put(line.previous_oid());
    page.value(line.new_oid());
}

fn put_written(alloc: Global, line: &Line, page: &mut Page) {
    let mut written = Vec::new(alloc);
    match line.write_to(&mut written) {
        Ok(()) => page.hex(written.as_slice()),
        Err(error) => page.put(error),
    }
}

/// Adds what the operation of the line gives.
pub fn put_answer(alloc: Global, line: &str, page: &mut Page) {
    let (operation, rest) = line.split_once(' ').unwrap_or((line, ""));
    let (number, digits) = rest.split_once(' ').unwrap_or(("0", rest));
    let size = number.parse::<usize>().unwrap_or(0);
    match hex::decode(alloc, digits) {
        Ok(bytes) => put_of_bytes(alloc, operation, size, bytes.as_slice(), page),
        Err(_) => page.text("no bytes"),
    }
}

fn put_of_bytes(alloc: Global, operation: &str, size: usize, bytes: &[u8], page: &mut Page) {
    match operation {
        "forward" => put_forward(bytes, page),
        "reverse" => put_reverse(alloc, bytes, size, page),
        "file" => put_file(alloc, bytes, size, page),
        "again" => again(alloc, bytes, page),
        "copy" => copied(alloc, bytes, page),
        "ids" => ids(bytes, page),
        _ => page.text("no operation"),
    }
}
