//! All files of a part.

use case_words::{Page, Trial};
use gix_ref_file::paths::joined;
use gix_ref_file::{FileError, Files, Place};
use std::alloc::Global;

// A file: its path, and its bytes.
#[derive(Drop)]
struct Found {
    path: Vec<u8>,
    bytes: Vec<u8>,
}

/// Shows all files of a part.
pub fn show(part: &str, alloc: Global, files: &Trial, page: &mut Page) {
    page.word(part);
    match all_files(alloc, files) {
        Ok(found) => {
            for file in &found {
                page.word("");
                page.bytes(&file.path);
                page.text(":");
                page.bytes(&file.bytes);
            }
        }
        Err(_) => page.word("failed"),
    }
}

// Returns all files of a part, of at most a hundred folders.
fn all_files(alloc: Global, files: &Trial) -> Result<Vec<Found>, FileError> {
    let mut found = Vec::new(alloc);
    let mut folders = Vec::new(alloc);
    folders.push(Vec::new(alloc))?;
    for _ in 0..100 {
        let Some(folder) = folders.pop() else {
            break;
        };
        add_files(alloc, files, &folder, &mut found, &mut folders)?;
    }
    Ok(found)
}

// Adds the files and folders right in a folder.
fn add_files(
    alloc: Global,
    files: &Trial,
    folder: &[u8],
    found: &mut Vec<Found>,
    folders: &mut Vec<Vec<u8>>,
) -> Result<(), FileError> {
    for name in &files.list(alloc, folder)? {
        let path = joined(alloc, folder, name)?;
        match files.kind_of(&path)? {
            Place::Folder => folders.push(path)?,
            Place::File(_) => {
                let mut bytes = Vec::new(alloc);
                files.read(&path, &mut bytes)?;
                found.push(Found { path, bytes })?;
            }
            Place::Absent => {}
        }
    }
    Ok(())
}
