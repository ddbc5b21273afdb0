//! Runs cases of the crates up to `gix_object`: lines of a family, an operation and arguments.
#![tactic(auto)]

mod commit;
mod editor;
mod entries;
mod errors;
mod find;
mod hash;
mod lines;
mod message;
mod object;
mod program;
mod signature;
mod tag;
mod written;

use case_words::{Case, Page, answer_sizes};
use gix_hash::ObjectId;
use std::alloc::{AllocError, Global};
use std::io;

// Adds what a line gives; its family comes first. `None` if it is no case or no memory is left.
fn put_answer(
    rt: &HostRuntime,
    list: &mut Vec<ObjectId>,
    line: &str,
    page: &mut Page,
) -> Option<()> {
    let (family, case) = line.split_once(' ')?;
    match family {
        "hash" => hash::put_answer(rt, list, case, page),
        "lines" => lines::put_answer(rt.alloc(), case, page),
        "message" => message::put_answer(rt.alloc(), case, page),
        "signature" => signature::put_answer(rt.alloc(), case, page),
        "editor" => {
            editor::put_answer(rt.alloc(), case, page);
            Some(())
        }
        _ => put_of_words(rt.alloc(), family, case, page),
    }
}

fn put_of_words(alloc: Global, family: &str, line: &str, page: &mut Page) -> Option<()> {
    let (operation, words) = line.split_once(' ')?;
    put_of_case(alloc, family, operation, &Case::read(alloc, words)?, page)
}

// The families whose operations take a hash function and bytes.
fn put_of_case(
    alloc: Global,
    family: &str,
    operation: &str,
    case: &Case,
    page: &mut Page,
) -> Option<()> {
    match family {
        "tag" => tag::put_answer(alloc, operation, case, page),
        "commit" => commit::put_answer(alloc, operation, case, page),
        "entries" => entries::put_answer(alloc, operation, case, page)?,
        "object" => object::put_answer(alloc, operation, case, page)?,
        "find" => find::put_answer(alloc, operation, case, page),
        "face" => errors::put_answer(alloc, operation, case, page)?,
        _ => return None,
    }
    Some(())
}

fn answer(rt: &HostRuntime, list: &mut Vec<ObjectId>, line: &str) -> Result<String, AllocError> {
    let mut page = Page::new(rt.alloc());
    if put_answer(rt, list, line, &mut page).is_none() {
        page.text("no case");
    }
    page.finish()
}

fn main(rt: HostRuntime) -> io::Result<()> {
    let mut list: Vec<ObjectId> = Vec::new(rt.alloc());
    for line in rt.lines(rt.alloc()) {
        let text = answer_sizes(
            rt.alloc(),
            line?.as_str(),
            &mut |row: &str| { Ok(answer(&rt, &mut list, row)?) },
        )?;
        println!(rt; "{text}")?;
    }
    Ok(())
}
