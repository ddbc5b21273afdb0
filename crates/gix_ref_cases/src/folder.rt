//! Cases of `gix_ref_folder`.
use case_words::{Page, call_by};
use gix_ref_folder::{Disk, Failure, Folder, LastCall, Part};
use std::os::unix::fs::symlink;
use std::rc::Rc;
use std::{fs, io};

type RealFolder<'a> = Folder<Disk<&'a HostRuntime>>;

// A part of the folder at this path, whose calls are kept in `last`.
fn part<'a>(
    rt: &'a HostRuntime,
    root: &str,
    part: Part,
    last: &Rc<LastCall>,
) -> io::Result<RealFolder<'a>> {
    let root = String::from_str(rt.alloc(), root)?;
    let mut folder = Folder::new(rt.alloc(), Disk::new(rt), root, part);
    folder.share(last.clone()?);
    Ok(folder)
}

/// The results of a line's words, over a folder that is made for the line of this number in the one
/// that the program runs in, and that is removed with all that it holds after the line.
pub fn answer(rt: &HostRuntime, number: u64, line: &str) -> io::Result<String> {
    let root = format!(in rt.alloc(); "case-{number}")?;
    fs::create_dir(rt, root.as_str())?;
    let text = play(rt, root.as_str(), line)?;
    fs::remove_dir_all(rt, root.as_str())?;
    Ok(text)
}

// The results of the words over the folder at this path.
fn play(rt: &HostRuntime, root: &str, line: &str) -> io::Result<String> {
    let last = Rc::new(rt.alloc(), LastCall::new(rt.alloc()))?;
    let mut objects = part(rt, root, Part::Objects, &last)?;
    let mut names = part(rt, root, Part::Names, &last)?;
    let mut page = Page::new(rt.alloc());
    for word in line.split(' ') {
        let told = match word.split_once(':') {
            Some(("o", call)) => act(rt, &mut objects, call, &mut page),
            Some(("n", call)) => act(rt, &mut names, call, &mut page),
            Some((deed, paths)) => interfere(rt, root, deed, paths, &mut page)?,
            None if word == "last" => show(rt, Some(&last.cause()), &mut page),
            None if word == "forget" => {
                last.forget_failure();
                Some(())
            }
            _ => None,
        };
        if told.is_none() {
            page.word("unread");
        }
    }
    Ok(page.finish()?)
}

// Calls a part, or shows its last failed change.
fn act(rt: &HostRuntime, part: &mut RealFolder<'_>, call: &str, page: &mut Page) -> Option<()> {
    if call == "last" {
        return show(rt, part.last_failure(), page);
    }
    call_by(rt.alloc(), part, call, page)
}

fn show(rt: &HostRuntime, failure: Option<&Failure>, page: &mut Page) -> Option<()> {
    match failure {
        Some(failure) => {
            page.word("");
            page.bytes(&failure.text(rt.alloc()).ok()?);
        }
        None => page.word("none"),
    }
    Some(())
}

// Does what another process does: makes a link or a hard link, of its path and where it leads, or
// renames a file.
fn interfere(
    rt: &HostRuntime,
    root: &str,
    deed: &str,
    paths: &str,
    page: &mut Page,
) -> io::Result<Option<()>> {
    let Some((path, to)) = paths.split_once(':') else {
        return Ok(None);
    };
    let place = format!(in rt.alloc(); "{root}/{path}")?;
    let other = format!(in rt.alloc(); "{root}/{to}")?;
    match deed {
        "link" => symlink(rt, to, place.as_str())?,
        "hard" => fs::hard_link(rt, other.as_str(), place.as_str())?,
        "give" => fs::rename(rt, place.as_str(), other.as_str())?,
        _ => return Ok(None),
    }
    page.word(if deed == "give" { "given" } else { "linked" });
    Ok(Some(()))
}
