//! Cases of `gix_ref_store`.

mod counts;
mod ends;
pub mod files;
mod lists;
mod logs;
mod lookups;
mod names;
pub mod objects;

use case_words::Page;
use gix_ref_file::{Files, MemoryFiles};
use gix_ref_fuse::Fuse;
use gix_ref_store::Options;
use gix_ref_store::store::file::Store;
use std::alloc::Global;

// The words of a line: the operation, the worktree's folder, its argument, the files, and objects
// or a namespace.
#[derive(Clone, Copy)]
struct Line<'a> {
    operation: &'a str,
    folder: &'a str,
    asked: &'a str,
    files: &'a str,
    last: &'a str,
}

fn read_line(line: &str) -> Option<Line<'_>> {
    let (operation, rest) = line.split_once(' ')?;
    let (folder, rest) = rest.split_once(' ')?;
    let (asked, text) = rest.split_once(' ')?;
    let (files, last) = text.split_once(' ').unwrap_or((text, ""));
    Some(Line {
        operation,
        folder,
        asked,
        files,
        last,
    })
}

// The store of these files: of the root, with `+` one that knows names by their composed
// characters, or of the worktree with its folder.
fn store_of<F: Files + Drop>(alloc: Global, files: F, folder: &str) -> Option<Store<F>> {
    let root = Vec::new(alloc);
    match folder {
        "-" => Store::at(files, root).ok(),
        "+" => Store::at_opts(files, root, composing()).ok(),
        folder => {
            let git_dir = folder.as_bytes().to_vec(alloc).ok()?;
            Store::for_linked_worktree(files, git_dir, root).ok()
        }
    }
}

fn composing() -> Options {
    Options {
        precompose_unicode: true,
        ..Options::default()
    }
}

/// Adds what the operation of the line gives.
pub fn put_answer(alloc: Global, line: &str, page: &mut Page) {
    let Some(line) = read_line(line) else {
        return page.text("no case");
    };
    let Some(files) = files::read(alloc, line.files) else {
        return page.text("no store");
    };
    if line.operation == "calls" {
        return put_calls(alloc, files, &line, page);
    }
    match store_of(alloc, files, line.folder) {
        Some(store) => put_of_store(alloc, store, &line, page),
        None => page.text("no store"),
    }
}

// Adds how many calls of these files a listing makes.
fn put_calls(alloc: Global, files: MemoryFiles, line: &Line<'_>, page: &mut Page) {
    let prefix = if line.asked == "-" { "" } else { line.asked };
    match store_of(alloc, Fuse::failing_at(files, 0, None), line.folder) {
        Some(store) => counts::count(alloc, &store, prefix.as_bytes(), page),
        None => page.text("no store"),
    }
}

fn put_of_store(alloc: Global, store: Store<MemoryFiles>, line: &Line<'_>, page: &mut Page) {
    let (operation, asked, last) = (line.operation, line.asked, line.last);
    match operation {
        "folders" => names::folders(alloc, store, asked, page),
        "strip" => names::strip(alloc, &store, asked, last, page),
        "pristine" => names::pristine(alloc, &store, asked, page),
        "log" | "log_iter" | "reflog_exists" => logs::log(alloc, &store, operation, asked, page),
        "find"
        | "loose"
        | "packed"
        | "record"
        | "try_find"
        | "try_find_packed"
        | "try_find_loose"
        | "cached_packed_buffer"
        | "follow"
        | "follow_packed"
        | "follow_in_place"
        | "peel_packed"
        | "next"
        | "peel"
        | "lines" => { lookups::look_up(alloc, &store, operation, asked, last, page) }
        _ => lists::list(alloc, &store, operation, asked, page),
    }
}
