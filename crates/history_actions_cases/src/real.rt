//! A real folder, and what words do with it.

use crate::line::action_of;
use crate::session::show;
use case_words::{Page, call_by, read_bytes};
use gix_ref_folder::{Disk, Folder, Part};
use history::{Bytes, Collected, Kind};
use history_actions::act;
use history_actions::command_line::{Action, Asked};
use std::{fs, io};

// Returns a part of the folder at this path.
fn part<'a>(
    rt: &'a HostRuntime,
    root: &str,
    part: Part,
) -> io::Result<Folder<Disk<&'a HostRuntime>>> {
    let root = String::from_str(rt.alloc(), root)?;
    Ok(Folder::new(rt.alloc(), Disk::new(rt), root, part))
}

/// Returns the answer to the words of a line, over a folder that is made for the line of this
/// number in the one that the program runs in.
pub fn answer(rt: &HostRuntime, number: u64, line: &str) -> io::Result<String> {
    let alloc = rt.alloc();
    let root = format!(in alloc; "case-{number}")?;
    fs::create_dir(rt, root.as_str())?;
    let mut page = Page::new(alloc);
    for word in line.split(' ') {
        if act_on_word(rt, root.as_str(), word, &mut page)?.is_none() {
            page.word("unread");
        }
    }
    Ok(page.finish()?)
}

fn act_on_word(
    rt: &HostRuntime,
    root: &str,
    word: &str,
    page: &mut Page,
) -> io::Result<Option<()>> {
    let alloc = rt.alloc();
    let (operation, rest) = word.split_once(':').unwrap_or((word, ""));
    Ok(match operation {
        "objects" => call_by(alloc, &mut part(rt, root, Part::Objects)?, rest, page),
        "names" => call_by(alloc, &mut part(rt, root, Part::Names)?, rest, page),
        _ => match action_of(operation) {
            Some(action) => Some(act_on_folder(rt, root, action, rest, page)?),
            None => None,
        },
    })
}

// Performs `ACTION`, or `run:STREAM`.
fn act_on_folder(
    rt: &HostRuntime,
    root: &str,
    action: Action,
    stream: &str,
    page: &mut Page,
) -> io::Result<()> {
    let alloc = rt.alloc();
    let asked = Asked {
        action,
        folder: String::from_str(alloc, root)?,
        kind: Kind::Sha1,
    };
    let input = read_bytes(alloc, stream).unwrap_or(Vec::new(alloc));
    let mut written = Collected::new(alloc);
    let mut errors = Collected::new(alloc);
    let status = act(
        alloc,
        &asked,
        part(rt, root, Part::Objects)?,
        part(rt, root, Part::Names)?,
        &mut Bytes::new(&input),
        &mut written,
        &mut errors,
    );
    show(status, written.as_slice(), errors.as_slice(), page);
    Ok(())
}
