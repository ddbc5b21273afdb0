//! Files in memory, from a line's text of them.

use gix_ref_file::{Files, MemoryFiles};
use gix_ref_way::make_way;
use std::alloc::Global;

/// The files of this text: a path, `=` and the bytes in hexadecimal digits, with `;` between files.
/// `None` if it spells none.
pub fn read(alloc: Global, text: &str) -> Option<MemoryFiles> {
    let mut files = MemoryFiles::new(alloc);
    for item in text.split(';') {
        add(alloc, &mut files, item)?;
    }
    Some(files)
}

fn add(alloc: Global, files: &mut MemoryFiles, item: &str) -> Option<()> {
    let (path, digits) = item.split_once('=')?;
    let bytes = hex::decode(alloc, digits).ok()?;
    put_file(alloc, files, path.as_bytes(), bytes.as_slice())
}

/// One file more, below folders that are made if they are missing. `None` if the path may hold no
/// file.
pub fn put_file(alloc: Global, files: &mut MemoryFiles, path: &[u8], bytes: &[u8]) -> Option<()> {
    make_way(alloc, files, path).ok()?;
    files.write(alloc, path, bytes).ok()
}
