//! Modes.

use case_words::{Case, Page};
use gix_object_tree::tree::EntryMode;
use std::convert::TryFrom;
use std::fmt;

// A mode that is displayed in octal digits.
#[derive(Clone, Copy)]
struct InOctal(EntryMode);

impl fmt::Display for InOctal {
    fn fmt<W: fmt::Write>(&self, f: &mut fmt::Formatter<W>) -> fmt::Result {
        fmt::Octal::fmt(&self.0, f)
    }
}

// A mode's number, its two texts, what it names and what its tests return.
fn show(mode: EntryMode, page: &mut Page) {
    let mut backing = [0; 6];
    page.put_between("", mode.value(), " ");
    page.escaped(mode.as_bytes(&mut backing).as_bytes());
    page.text(" ");
    page.put(InOctal(mode));
    page.put_between(" ", mode.as_str(), " ");
    page.name(mode.kind());
    page.test(" tree", mode.is_tree());
    page.test(" no-tree", mode.is_no_tree());
    page.test(" commit", mode.is_commit());
    page.test(" link", mode.is_link());
    page.test(" file", mode.is_blob());
    page.test(" executable", mode.is_executable());
    page.test(" file-or-link", mode.is_blob_or_symlink());
}

/// The mode that a text spells, by both calls that read one.
pub fn mode(case: &Case, page: &mut Page) {
    match EntryMode::from_bytes(case.text(0)) {
        Some(mode) => show(mode, page),
        None => page.text("none"),
    }
    match EntryMode::try_from(case.text(0)) {
        Ok(mode) => {
            page.text("; ");
            show(mode, page);
        }
        Err(back) => page.between("; back ", back, ""),
    }
}
