//! Runs cases of the crates below `gix_traverse`, a line each: a family and a case of it.
#![tactic(auto)]

mod copies;
mod history;
mod lines;
mod numbers;
mod predicate;
mod shown;
mod topo;
mod tree;
mod walks;

use crate::history::History;
use case_words::{Page, answer_sizes};
use std::alloc::{AllocError, Global};
use std::io;

// What a line gives; its family comes first.
fn answer(alloc: Global, history: &mut History, line: &str) -> Result<String, AllocError> {
    let mut page = Page::new(alloc);
    let (family, case) = line.split_once(' ').unwrap_or((line, ""));
    let answered = match family {
        "tree" => tree::put_answer(alloc, case, &mut page),
        _ => lines::put_answer(alloc, history, family, case, &mut page),
    };
    if answered.is_none() {
        page.text("no case");
    }
    page.finish()
}

fn main(rt: HostRuntime) -> io::Result<()> {
    let mut history = History::new(rt.alloc());
    for line in rt.lines(rt.alloc()) {
        let text = answer_sizes(
            rt.alloc(),
            line?.as_str(),
            &mut |row: &str| { Ok(answer(rt.alloc(), &mut history, row)?) },
        )?;
        println!(rt; "{text}")?;
    }
    Ok(())
}
