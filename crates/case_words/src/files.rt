//! Files in memory that words change and read, with a call that is made to fail.

use crate::bytes::read_bytes;
use crate::page::Page;
use gix_ref_file::{FileError, Files, MemoryFiles, Place};
use gix_ref_fuse::Fuse;
use std::alloc::Global;
use std::mem;

/// Files in memory, of which a call may be made to fail.
pub type Trial = Fuse<MemoryFiles>;

/// Files of which no call is made to fail.
pub fn sound(files: MemoryFiles) -> Trial {
    Fuse::failing_at(files, 0, None)
}

/// Changes or reads files as a word says, and adds the result to the page; `None` if the word says
/// nothing.
///
/// A word is an operation's name and its arguments, with `:` between them: a path, and bytes or a
/// second path. In a number, `#` means this one.
pub fn act_on(
    alloc: Global,
    files: &mut Trial,
    word: &str,
    number: u64,
    page: &mut Page,
) -> Option<()> {
    let mut parts = word.split(':');
    let (operation, first) = (parts.next()?, parts.next().unwrap_or("-"));
    let rest = parts.next().unwrap_or("-");
    match operation {
        "stop" | "fail" => set_fuse(alloc, files, operation, read_number(first, number)?, rest),
        "sound" => {
            let inner = mem::replace(files, sound(MemoryFiles::new(alloc))).into_inner();
            *files = sound(inner);
            Some(())
        }
        "calls" => {
            page.word("calls:");
            page.put(files.calls());
            Some(())
        }
        _ => call(alloc, files, operation, first, rest, page),
    }
}

/// Changes or reads any files as a word says, and adds the result to the page; `None` if the word
/// says nothing.
pub fn call_by<F: Files>(alloc: Global, files: &mut F, word: &str, page: &mut Page) -> Option<()> {
    let mut parts = word.split(':');
    let (operation, first) = (parts.next()?, parts.next().unwrap_or("-"));
    let rest = parts.next().unwrap_or("-");
    call(alloc, files, operation, first, rest, page)
}

fn call<F: Files>(
    alloc: Global,
    files: &mut F,
    operation: &str,
    first: &str,
    rest: &str,
    page: &mut Page,
) -> Option<()> {
    let path = read_bytes(alloc, first)?;
    if read(alloc, files, operation, &path, rest, page).is_none() {
        show_changed(change(alloc, files, operation, &path, rest)?, page);
    }
    Some(())
}

// The number of a word, or this one.
fn read_number(word: &str, number: u64) -> Option<u64> {
    match word {
        "#" => Some(number),
        _ => word.parse().ok(),
    }
}

// From here on the call of this number stops or fails, counted from 1, and keeps so many bytes.
fn set_fuse(alloc: Global, files: &mut Trial, how: &str, call: u64, kept: &str) -> Option<()> {
    let kept = match kept {
        "-" => None,
        _ => Some(kept.parse().ok()?),
    };
    let inner = mem::replace(files, sound(MemoryFiles::new(alloc))).into_inner();
    *files = match how {
        "stop" => Fuse::stopping_at(inner, call, kept),
        _ => Fuse::failing_at(inner, call, kept),
    };
    Some(())
}

// The result of a change: that of `create_new`, and otherwise true.
fn change<F: Files>(
    alloc: Global,
    files: &mut F,
    operation: &str,
    path: &[u8],
    rest: &str,
) -> Option<Result<bool, FileError>> {
    let rest = read_bytes(alloc, rest)?;
    let changed = match operation {
        "create" => return Some(files.create_new(alloc, path, &rest)),
        "write" => files.write(alloc, path, &rest),
        "append" => files.append(alloc, path, &rest),
        "shorten" => files.shorten(alloc, path, str::from_utf8(&rest).ok()?.parse().ok()?),
        "rename" => files.rename(alloc, path, &rest),
        "remove" => files.remove_file(alloc, path),
        "folder" => files.make_folder(alloc, path),
        "remove-folder" => files.remove_empty_folder(alloc, path),
        _ => return None,
    };
    Some(changed.map(|()| true))
}

fn show_changed(changed: Result<bool, FileError>, page: &mut Page) {
    match changed {
        Ok(true) => page.word("done"),
        Ok(false) => page.word("stands"),
        Err(error) => show_error(error, page),
    }
}

fn show_error(error: FileError, page: &mut Page) {
    match error {
        FileError::Failed => page.word("failed"),
        FileError::Memory => page.word("memory"),
    }
}

// The result of a reading; `None` if there is no such operation.
fn read<F: Files>(
    alloc: Global,
    files: &F,
    operation: &str,
    path: &[u8],
    rest: &str,
    page: &mut Page,
) -> Option<()> {
    let shown = match operation {
        "kind" => show_place(files, path, page),
        "read" => show_file(alloc, files, path, page),
        "read-at" => show_part(files, path, rest.parse().ok()?, page),
        "list" => show_names(alloc, files, path, page),
        _ => return None,
    };
    if let Err(error) = shown {
        show_error(error, page);
    }
    Some(())
}

fn show_place<F: Files>(files: &F, path: &[u8], page: &mut Page) -> Result<(), FileError> {
    match files.kind_of(path)? {
        Place::Absent => page.word("absent"),
        Place::Folder => page.word("folder"),
        Place::File(length) => {
            page.word("file:");
            page.put(length);
        }
    }
    Ok(())
}

// What is read, after `so `, and how many bytes that is.
fn show_file<F: Files>(
    alloc: Global,
    files: &F,
    path: &[u8],
    page: &mut Page,
) -> Result<(), FileError> {
    let mut out = b"so ".as_slice().to_vec(alloc)?;
    let count = files.read(path, &mut out)?;
    show_count(count, page);
    page.bytes(&out);
    Ok(())
}

// What is read from a byte on into six dots, and how many bytes that is.
fn show_part<F: Files>(files: &F, path: &[u8], at: u64, page: &mut Page) -> Result<(), FileError> {
    let mut buffer = *b"......";
    let count = files.read_at(path, at, &mut buffer)?;
    show_count(count, page);
    page.bytes(&buffer);
    Ok(())
}

fn show_count(count: Option<usize>, page: &mut Page) {
    match count {
        Some(count) => {
            page.word("");
            page.put(count);
        }
        None => page.word("none"),
    }
    page.text(":");
}

fn show_names<F: Files>(
    alloc: Global,
    files: &F,
    folder: &[u8],
    page: &mut Page,
) -> Result<(), FileError> {
    let names = files.list(alloc, folder)?;
    page.word("names");
    for name in &names {
        page.text(":");
        page.bytes(name);
    }
    Ok(())
}
