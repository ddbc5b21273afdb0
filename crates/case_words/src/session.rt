//! The words of a line, one after another, or again and again with a number that grows.

use crate::page::Page;
use std::alloc::{AllocError, Global};

/// What the words of a line act on.
pub trait Session: Sized + Drop {
    /// The state at first, by the line's first word; `None` if that says nothing.
    fn begin(alloc: Global, first: &str) -> Option<Self>;

    /// Acts as a word says, and adds the result to the page; `None` if the word says nothing. In a
    /// word `#` means the number.
    fn act(&mut self, alloc: Global, word: &str, number: u64, page: &mut Page) -> Option<()>;
}

/// The reply to a line.
///
/// After `each:LIMIT` the words are played for each number from 1 to the limit, from the beginning
/// each time, and each result that differs from the one before is shown, with `|` between them.
pub fn answer<S: Session>(alloc: Global, line: &str) -> Result<String, AllocError> {
    let limit = match line.split_once(' ') {
        Some((first, words)) => match first.strip_prefix("each:") {
            Some(limit) => Some((words, limit.parse().unwrap_or(0))),
            None => None,
        },
        None => None,
    };
    match limit {
        Some((words, limit)) => each::<S>(alloc, words, limit),
        None => once::<S>(alloc, line, 0),
    }
}

fn each<S: Session>(alloc: Global, words: &str, limit: u64) -> Result<String, AllocError> {
    let mut page = Page::new(alloc);
    let mut last = String::new(alloc);
    for number in 1..limit.saturating_add(1) {
        let text = once::<S>(alloc, words, number)?;
        if number == 1 || text != last {
            if number > 1 {
                page.word("|");
            }
            page.word(&text);
        }
        last = text;
    }
    page.finish()
}

fn once<S: Session>(alloc: Global, line: &str, number: u64) -> Result<String, AllocError> {
    let mut page = Page::new(alloc);
    if play::<S>(alloc, line, number, &mut page).is_none() {
        page.word("unread");
    }
    page.finish()
}

fn play<S: Session>(alloc: Global, line: &str, number: u64, page: &mut Page) -> Option<()> {
    let mut words = line.split(' ');
    let mut session = S::begin(alloc, words.next()?)?;
    for word in words {
        session.act(alloc, word, number, page)?;
    }
    Some(())
}
