//! Cases of the program's command line.

use case_words::{Page, read_bytes};
use history::Kind;
use history_actions::command_line::{Action, AskError, Asked, read_words};
use std::alloc::Global;
use std::str;

/// Shows what words mean, which are separated by commas.
pub fn read(alloc: Global, rest: &str, page: &mut Page) -> Option<()> {
    let mut words = Vec::new(alloc);
    for word in rest.split(',') {
        let bytes = read_bytes(alloc, word)?;
        let text = str::from_utf8(&bytes).ok()?;
        words.push(String::from_str(alloc, text).ok()?).ok()?;
    }
    match read_words(alloc, words.as_slice()) {
        Ok(asked) => show_asked(&asked, page),
        Err(AskError::Help(text)) => page.named("help", text.as_bytes()),
        Err(AskError::Line(text)) => page.named("line", text.as_bytes()),
        Err(AskError::Memory) => page.word("Memory"),
    }
    Some(())
}

fn show_asked(asked: &Asked, page: &mut Page) {
    page.word(action_name(asked.action));
    page.named(kind_name(asked.kind), asked.folder.as_bytes());
}

fn kind_name(kind: Kind) -> &'static str {
    match kind {
        Kind::Sha1 => "sha1",
        Kind::Sha256 => "sha256",
    }
}

fn action_name(action: Action) -> &'static str {
    match action {
        Action::Create => "create",
        Action::Run => "run",
        Action::Check => "check",
        Action::Recover => "recover",
    }
}

/// Returns the action of this name.
pub fn action_of(name: &str) -> Option<Action> {
    match name {
        "create" => Some(Action::Create),
        "run" => Some(Action::Run),
        "check" => Some(Action::Check),
        "recover" => Some(Action::Recover),
        _ => None,
    }
}
