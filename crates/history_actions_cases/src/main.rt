//! Runs cases of `history_actions` and its command line, a line each.
//!
//! A line is words of a command line, or a folder in memory or a real one, and what is done with
//! it.
#![tactic(auto)]

mod line;
mod narrow;
mod real;
mod session;

use crate::session::Folder;
use case_words::{answer, answer_sizes};
use std::io;

fn main(rt: HostRuntime) -> io::Result<()> {
    let mut number = 0u64;
    for line in rt.lines(rt.alloc()) {
        let line = line?;
        number = number.saturating_add(1);
        let text = match line.as_str().split_once(' ') {
            Some(("real", words)) => real::answer(&rt, number, words)?,
            _ => answer_sizes(
                rt.alloc(),
                line.as_str(),
                &mut |row: &str| { Ok(answer::<Folder>(rt.alloc(), row)?) },
            )?,
        };
        println!(rt; "{text}")?;
    }
    Ok(())
}
