//! Cases of `gix_ref_file`.
use case_words::{Page, act_on, sound};
use gix_ref_file::MemoryFiles;
use std::alloc::Global;

/// Adds the results of a line's words, over files in memory, of which there are none at first.
pub fn put_answer(alloc: Global, line: &str, page: &mut Page) {
    let mut files = sound(MemoryFiles::new(alloc));
    for word in line.split(' ') {
        if act_on(alloc, &mut files, word, 0, page).is_none() {
            page.word("unread");
        }
    }
}
