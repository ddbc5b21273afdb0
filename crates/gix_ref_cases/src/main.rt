//! Runs cases of the crates below `gix_ref`: lines of a family, an operation and arguments.
#![tactic(auto)]

mod file;
mod folder;
mod format;
mod log;
mod name;
mod packed;
mod store;
mod transaction;

use case_words::{Page, answer_sizes};
use std::alloc::{AllocError, Global};
use std::io;

// What the operation of a line gives, except for the family `folder`.
fn told(alloc: Global, family: &str, case: &str) -> Result<String, AllocError> {
    let mut page = Page::new(alloc);
    match family {
        "file" => file::put_answer(alloc, case, &mut page),
        "name" => name::put_answer(alloc, case, &mut page),
        "format" => format::put_answer(alloc, case, &mut page),
        "log" => log::put_answer(alloc, case, &mut page),
        "packed" => packed::put_answer(alloc, case, &mut page),
        "store" => store::put_answer(alloc, case, &mut page),
        "transaction" => transaction::put_answer(alloc, case, &mut page),
        _ => page.text("no case"),
    }
    page.finish()
}

// What the operation of the line of this number gives; its family comes first.
fn answer(rt: &HostRuntime, number: u64, line: &str) -> io::Result<String> {
    let (family, case) = line.split_once(' ').unwrap_or((line, ""));
    match family {
        "folder" => folder::answer(rt, number, case),
        _ => Ok(told(rt.alloc(), family, case)?),
    }
}

fn main(rt: HostRuntime) -> io::Result<()> {
    let mut number = 0u64;
    for line in rt.lines(rt.alloc()) {
        number = number.saturating_add(1);
        let text = answer_sizes(
            rt.alloc(),
            line?.as_str(),
            &mut |row: &str| { answer(&rt, number, row) },
        )?;
        println!(rt; "{text}")?;
    }
    Ok(())
}
