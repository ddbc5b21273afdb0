//! The program `wunthavel-history`: its words, then a run in memory or an action on a folder.
//!
//! Without arguments it runs commands on a new repository in memory, from standard input to
//! standard output; with arguments it performs their action on a folder. Without arguments at a
//! terminal it reports how it is called.
#![tactic(auto)]

mod causes;
mod folder;
mod lock;
mod notes;
mod replies;

use history::in_memory::serve;
use std::io::IsTerminal;
use std::process::ExitCode;
use std::{env, io};

/// Returns the program's words, of which the first is its name.
fn words(rt: &HostRuntime) -> io::Result<Vec<String>> {
    Ok(env::args(rt)?.collect(rt.alloc())?)
}

fn main(rt: HostRuntime) -> ExitCode {
    let status = match words(&rt) {
        Ok(words) if words.len() > 1 || rt.stdin().is_terminal() => {
            folder::act_on_words(&rt, words.as_slice())
        }
        Ok(_) => serve(&rt),
        Err(error) => folder::refuse(&rt, &error),
    };
    ExitCode::from(status)
}
