//! Runs cases of `history` and, after `files`, of `history_files`, a line each.
//!
//! A line is a hash function, and words.
#![tactic(auto)]

mod edits;
mod face;
mod files;
mod indexed;
mod refusals;
mod runs;
mod session;

use crate::session::Store;
use case_words::{answer, answer_sizes};
use std::alloc::{AllocError, Global};
use std::io;

fn answer_line(alloc: Global, line: &str) -> Result<String, AllocError> {
    match line.strip_prefix("files ") {
        Some(case) => edits::answer(alloc, case),
        None => answer::<Store>(alloc, line),
    }
}

fn main(rt: HostRuntime) -> io::Result<()> {
    for line in rt.lines(rt.alloc()) {
        let text = answer_sizes(
            rt.alloc(),
            line?.as_str(),
            &mut |row: &str| { Ok(answer_line(rt.alloc(), row)?) },
        )?;
        println!(rt; "{text}")?;
    }
    Ok(())
}
