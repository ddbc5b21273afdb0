//! The program's command line, for `clap`: its actions, their folder and flag, and the texts of help.
ghost use Rattle.std.specs.Prelude.{◌≡◌, false, IfOk};
ghost use Rattle.clap.specs.Words.{app_of, new_app};
ghost use Rattle.clap.specs.declared.Command.TheViews.{out-Command as fields_of};
ghost use Rattle.history_actions.specs.Line.{line, action};

use crate::command_line::version::VERSION;
use clap::{Arg, ArgAction, Command};
use std::alloc::{AllocError, Global};

/// Returns the line: an action, each with a folder and the flag `--sha256`; or `--help` or
/// `--version`.
pub fn line<'a>(alloc: Global) -> Result<Command<'a>, AllocError>
    ensures read { IfOk result (λ made. app_of made ≡ line) }
    ensures local { IfOk result (λ made. (fields_of made).has_globals ≡ false) }
{
    described(alloc, "wunthavel-history", ABOUT, EXAMPLE)
        .version(VERSION)
        .subcommand_required(true)
        .subcommand(action(alloc, "create", "Makes a repository", CREATE)?)?
        .subcommand(action(
            alloc,
            "run",
            "Runs the commands of standard input, and answers them on standard output",
            RUN,
        )?)?
        .subcommand(action(alloc, "check", "Finds whether a repository is whole", CHECK)?)?
        .subcommand(action(alloc, "recover", "Removes what a stopped run left", RECOVER)?)
}

// The beginning of the program's help; then its end, and the end of each action's help.
const ABOUT: &str = "A version store with Git's object ids, reference names and logs";

const EXAMPLE: &str =
    "Without words it runs the commands of standard input on a new repository in memory.

Example:
  wunthavel-history create pages
  wunthavel-history run pages < commands";

const CREATE: &str = "Example, where the folder pages is empty or doesn't exist:
  wunthavel-history create pages";

const RUN: &str = "Example, with the protocol's commands in a file:
  wunthavel-history run pages < commands > replies";

const CHECK: &str = "Example, which changes no file:
  wunthavel-history check pages && echo well";

const RECOVER: &str = "Example, after check said refused Unfinished:
  wunthavel-history recover pages";

// Returns an action, with its folder and the flag, and an example at the end of its help.
fn action<'a>(
    alloc: Global,
    name: &'a str,
    about: &'a str,
    example: &'a str,
) -> Result<Command<'a>, AllocError>
    ensures read { IfOk result (λ made. app_of made ≡ action name.now) }
    ensures local { IfOk result (λ made. (fields_of made).has_globals ≡ false) }
{
    let folder = Arg::new(alloc, "folder")
        .required(true)
        .action(ArgAction::Set)
        .help("The repository's folder");
    let sha256 = Arg::new(alloc, "sha256")
        .long("sha256")
        .action(ArgAction::SetTrue)
        .help("Takes SHA-256 in place of SHA-1");
    described(alloc, name, about, example)
        .arg(folder)?
        .arg(sha256)
}

// Returns a command of this name, with the texts of its help.
fn described<'a>(alloc: Global, name: &'a str, about: &'a str, example: &'a str) -> Command<'a>
    ensures app { app_of result ≡ new_app name.now }
    ensures local { (fields_of result).has_globals ≡ false }
{
    Command::new(alloc, name).about(about).after_help(example)
}
