//! Files in memory, from lines and to text.

use crate::store::files::put_file;
use crate::transaction::cases::show_text;
use case_words::{Page, read_digits, text_of};
use gix_ref_file::paths::joined;
use gix_ref_file::{FileError, Files, MemoryFiles, Place};
use std::alloc::Global;

/// Files of lines that have a path, a space and bytes in hexadecimal digits.
pub fn read_files(alloc: Global, text: &[u8]) -> Option<MemoryFiles> {
    let mut files = MemoryFiles::new(alloc);
    for line in text_of(text)?.lines() {
        add_line(alloc, &mut files, line)?;
    }
    Some(files)
}

fn add_line(alloc: Global, files: &mut MemoryFiles, line: &str) -> Option<()> {
    let (path, digits) = line.split_once(' ')?;
    let bytes = read_digits(alloc, digits)?;
    put_file(alloc, files, path.as_bytes(), bytes.as_slice())
}

/// Adds each file: its path, `=` and its text, with `|` in place of a line feed, and `;` after it.
pub fn show_files(alloc: Global, files: &MemoryFiles, page: &mut Page) {
    if add_below(alloc, files, b"", 8, page).is_err() {
        page.text("unread");
    }
}

// Adds what is below a folder, so many folders deep.
fn add_below(
    alloc: Global,
    files: &MemoryFiles,
    folder: &[u8],
    depth: usize,
    page: &mut Page,
) -> Result<(), FileError> {
    for name in &files.list(alloc, folder)? {
        let path = joined(alloc, folder, name)?;
        match files.kind_of(&path)? {
            Place::File(_) => add_file(alloc, files, &path, page)?,
            Place::Folder => {
                if depth > 0 {
                    add_below(alloc, files, &path, depth - 1, page)?;
                }
            }
            Place::Absent => {}
        }
    }
    Ok(())
}

fn add_file(
    alloc: Global,
    files: &MemoryFiles,
    path: &[u8],
    page: &mut Page,
) -> Result<(), FileError> {
    let mut bytes = Vec::new(alloc);
    files.read(path, &mut bytes)?;
    page.text(text_of(path).unwrap_or("no text"));
    page.text("=");
    show_text(bytes.as_slice(), page);
    page.text(";");
    Ok(())
}
