//! Performs the action of a command line on a folder's two parts, with its report (`act`) or without.
ghost use Rattle.history_actions.specs.Performing.{Acts, Performs};

use crate::answers::Performed;
use crate::command_line::{Action, Asked};
use crate::creating::create_folder;
use crate::opening::{check_folder, run_folder};
use crate::recovering::recover_folder;
use crate::telling::report;
use gix_ref_file::Files;
use history::{Sink, Source};
use std::alloc::Global;

/// Performs an action on a folder's two parts, one of which holds the objects and the other all
/// else, and returns the program's status: 0 if it is done, else 1.
///
/// `create` makes a repository of the two parts and writes `created`, `check` opens them and writes
/// `whole`, `recover` recovers them, if they are a repository's, and writes `recovered`, each with
/// a line feed; `run` opens them and runs commands, from `reader` to `writer`. If it isn't done,
/// the reason is written to `errors`, as [`report`] says.
pub fn act<F: Files + Drop, R: Source, W: Sink, E: Sink>(
    alloc: Global,
    asked: &Asked,
    objects: F,
    names: F,
    reader: &mut R,
    writer: &mut W,
    errors: &mut E,
) -> u8
    ensures { Acts F.is_honest F.history F.failures F.reading_may_fail R.left R.readings W.contents
        R.has_failed W.has_failed asked.now objects names reader.old reader.new writer.old writer.new
        E.contents E.has_failed errors.old errors.new result }
{
    let performed = perform(alloc, asked, objects, names, reader, writer);
    report(asked.kind, &performed.answer, errors)
}

/// Like [`act`], but without the report: returns the two parts as they are left, with the action's
/// result.
pub fn perform<F: Files, R: Source, W: Sink>(
    alloc: Global,
    asked: &Asked,
    objects: F,
    names: F,
    reader: &mut R,
    writer: &mut W,
) -> Performed<F>
    ensures { Performs F.is_honest F.history F.failures F.reading_may_fail R.left R.readings
        W.contents R.has_failed W.has_failed asked.now.action asked.now.kind objects names
        reader.old reader.new writer.old writer.new result }
{
    match asked.action {
        Action::Create => {
            let (mut objects, mut names) = (objects, names);
            Performed {
                answer: create_folder(alloc, &mut objects, &mut names, asked.kind, writer),
                objects,
                names,
            }
        }
        Action::Run => run_folder(alloc, objects, names, asked.kind, reader, writer),
        Action::Check => check_folder(alloc, objects, names, asked.kind, writer),
        Action::Recover => {
            let (mut objects, mut names) = (objects, names);
            Performed {
                answer: recover_folder(alloc, &mut objects, &mut names, asked.kind, writer),
                objects,
                names,
            }
        }
    }
}
