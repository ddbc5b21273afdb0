//! Reads a command line: its action, folder and hash function, or the text of help or of a mistake.
ghost use Rattle.std.specs.Prelude.{◌≡◌, ◌↔◌, IfOk, MatchOption, map, option_map};
ghost use Rattle.clap.specs.Words.{kind_of, subcommand_rows_of};
ghost use Rattle.history_actions.specs.Line.{IsAskedBy, Reads, action_name, kind_by};
ghost use Rattle.history_actions.specs.Refusals.{IsEntered, IsNoHelp, Tells};
ghost use Rattle.history_actions.specs.declared.command_line.asked.Action.{Action};
ghost use Rattle.history_actions.specs.declared.command_line.asked.AskError.TheVariants.{Memory};

use crate::command_line::line::line;
use clap::error::ErrorKind;
use clap::{ArgMatches, Error};
use gix_hash::Kind;
use std::alloc::{AllocError, Global};
use std::convert::AsStr;

/// What is to be done with a repository.
#[derive(Clone, Copy, Debug, PartialEq, Eq)]
pub enum Action {
    /// Make it.
    Create,
    /// Run commands on it.
    Run,
    /// Check whether it is whole.
    Check,
    /// Remove what a stopped run left.
    Recover,
}

/// What a command line means: an action on a folder, with ids of a kind.
#[derive(Drop)]
pub struct Asked {
    pub action: Action,
    pub folder: String,
    pub kind: Kind,
}

/// Why a command line has no action.
#[derive(Drop)]
pub enum AskError {
    /// It wants help or the version: this text.
    Help(String),
    /// It isn't one of the program's: this text says why.
    Line(String),
    /// Memory ran out.
    Memory,
}

impl From<AllocError> for AskError {
    ghost from_gives = { λ _ error. error ≡ Memory };

    fn from(_: AllocError) -> AskError {
        AskError::Memory
    }
}

// Returns the action of this name, if there is one.
fn action_of(name: &str) -> Option<Action>
    ensures { MatchOption result ((action : Action) → name.now ≡ action_name action → ⊥)
        (λ action. name.now ≡ action_name action) }
{
    match name {
        "create" => Some(Action::Create),
        "run" => Some(Action::Run),
        "check" => Some(Action::Check),
        "recover" => Some(Action::Recover),
        _ => None,
    }
}

// Returns the error for words that `clap` refuses, with its text.
fn refusal(alloc: Global, error: &Error) -> AskError
    ensures { Tells (kind_of error.now) result }
{
    let Ok(text) = format!(in alloc; "{error}") else {
        return AskError::Memory;
    };
    match error.kind() {
        ErrorKind::OutOfMemory => AskError::Memory,
        ErrorKind::DisplayHelp | ErrorKind::DisplayVersion => AskError::Help(text),
        _ => AskError::Line(text),
    }
}

/// Reads the words of a command line, of which the first is the program's name: `create`, `run`,
/// `check` or `recover`, a folder, and perhaps `--sha256` before or after the folder.
///
/// Returns `Help` if the words want help or the version, with `clap`'s text of it; `Line` if they
/// aren't the program's, with `clap`'s text of why; and `Memory` if memory ran out.
pub fn read_words<S: AsStr>(alloc: Global, words: &[S]) -> Result<Asked, AskError>
    ensures { Reads (map S.text words.now) result }
{
    let matches = match line(alloc)?.try_get_matches_from(words) {
        Ok(matches) => matches,
        Err(error) => return Err(refusal(alloc, &error)),
    };
    read_given(alloc, &matches)
}

// Returns what the matches mean.
fn read_given(alloc: Global, matches: &ArgMatches<'_>) -> Result<Asked, AskError>
    ensures { IsEntered (subcommand_rows_of matches.now) result }
{
    let Some((name, given)) = matches.subcommand() else {
        return Err(unasked(alloc));
    };
    let Some(action) = action_of(name) else {
        return Err(unasked(alloc));
    };
    let Some(folder) = given.get_str("folder") else {
        return Err(unasked(alloc));
    };
    Ok(Asked {
        action,
        folder: String::from_str(alloc, folder)?,
        kind: kind_of_flag(given.get_str("sha256")),
    })
}

// Returns the error for words without an action and a folder. `clap` accepts no such words, so
// nobody sees this text.
fn unasked(alloc: Global) -> AskError
    ensures { IsNoHelp result }
{
    match String::from_str(alloc, "no action with a folder") {
        Ok(text) => AskError::Line(text),
        Err(_) => AskError::Memory,
    }
}

// Returns the kind of digest that a flag chooses, by `clap`'s text of it.
fn kind_of_flag(flag: Option<&str>) -> Kind
    ensures { result ≡ kind_by (option_map (λ text. text.now) flag.entry) }
{
    match flag {
        Some("true") => Kind::Sha256,
        _ => Kind::Sha1,
    }
}
