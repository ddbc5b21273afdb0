//! The actions `check` and `run`: a folder is opened, then found whole or run on; its parts are handed back.
ghost use Rattle.std.specs.Prelude.{◌≡◌, Err};
ghost use Rattle.history_repository.specs.Face.{names_part, objects_part};
ghost use Rattle.history_actions.specs.Failures.{IsAnswerOf, IsDone};
ghost use Rattle.history_actions.specs.Opening.{Checks, KeepsParts, RunsOn};
ghost use Rattle.history_actions.specs.Saying.{Says, whole};
ghost use Rattle.history_actions.specs.declared.failure.Failure.TheVariants.{Unopened};

use crate::answers::Performed;
use crate::failure::Failure;
use gix_hash::Kind;
use gix_ref_file::Files;
use history::{End, OpenRefusal, Repository, RunError, Sink, Source, run};
use history_word::write_all;
use std::alloc::Global;

/// Opens a folder's two parts, which changes no file, and writes `whole` if they are opened.
pub(crate) fn check_folder<F: Files, W: Sink>(
    alloc: Global,
    objects: F,
    names: F,
    kind: Kind,
    writer: &mut W,
) -> Performed<F>
    ensures files { Checks F.is_honest F.history F.reading_may_fail kind objects names result }
    ensures says { Says W.contents W.has_failed writer.old writer.new whole result.answer }
{
    match Repository::open(alloc, objects, names, kind) {
        Ok(repository) => handed_back(repository, say_whole(writer)),
        Err(refusal) => unopened(refusal),
    }
}

/// Opens a folder's two parts, and runs commands on them.
pub(crate) fn run_folder<F: Files, R: Source, W: Sink>(
    alloc: Global,
    objects: F,
    names: F,
    kind: Kind,
    reader: &mut R,
    writer: &mut W,
) -> Performed<F>
    ensures { RunsOn F.is_honest F.history F.failures F.reading_may_fail R.left R.readings
        W.contents R.has_failed W.has_failed kind objects names reader.old reader.new
        writer.old writer.new result }
{
    let mut repository = match Repository::open(alloc, objects, names, kind) {
        Ok(repository) => repository,
        Err(refusal) => return unopened(refusal),
    };
    let end = run(alloc, reader, writer, &mut repository);
    handed_back(repository, answer_of(end))
}

// Returns the result for a repository, with its two parts.
fn handed_back<F: Files>(repository: Repository<F>, answer: Result<(), Failure>) -> Performed<F>
    ensures answer { result.answer ≡ answer }
    ensures objects { result.objects ≡ objects_part repository }
    ensures names { result.names ≡ names_part repository }
{
    let (objects, names) = repository.into_parts();
    Performed {
        answer,
        objects,
        names,
    }
}

// Returns the result for a folder that isn't opened, with its two parts.
fn unopened<F: Files>(refusal: OpenRefusal<F>) -> Performed<F>
    ensures kept { KeepsParts refusal.objects refusal.names result }
    ensures told { result.answer ≡ Err (Unopened refusal.error) }
{
    let OpenRefusal {
        error,
        objects,
        names,
    } = refusal;
    Performed {
        answer: Err(Failure::Unopened(error)),
        objects,
        names,
    }
}

fn say_whole<W: Sink>(writer: &mut W) -> Result<(), Failure>
    ensures done { IsDone result }
    ensures says { Says W.contents W.has_failed writer.old writer.new whole result }
{
    write_all(writer, b"whole\n")?;
    Ok(())
}

// Returns whether a run came to the end of its input, and if not, why.
fn answer_of(end: Result<End, RunError>) -> Result<(), Failure>
    ensures { IsAnswerOf end result }
{
    match end {
        Ok(End::Input) => Ok(()),
        Ok(end) => Err(Failure::Ended(end)),
        Err(RunError::Read) => Err(Failure::Read),
        Err(RunError::Write) => Err(Failure::Write),
    }
}
