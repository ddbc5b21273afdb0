//! Runs of commands, and what they write.

use case_drops::Drops;
use case_words::{Page, Trial, read_bytes, sound};
use gix_hash::hasher::hasher;
use gix_ref_file::MemoryFiles;
use history::in_memory::{Answer, AnswerError, answer_stream, rows};
use history::{Bytes, Collected, End, Kind, Repository, RunError, create};
use std::alloc::Global;

/// Runs commands on a repository: `STREAM`, or `COUNT:STREAM` through a reader that fails after so
/// many bytes. Shows what is written, or a digest of it for `sum`.
pub fn run(
    alloc: Global,
    repository: &mut Repository<Trial>,
    operation: &str,
    rest: &str,
    number: u64,
    page: &mut Page,
) -> Option<()> {
    let mut written = Collected::new(alloc);
    let ended = match operation {
        "run" | "sum" => {
            let input = read_bytes(alloc, rest)?;
            history::run(alloc, &mut Bytes::new(&input), &mut written, repository)
        }
        _ => {
            let (good, stream) = rest.split_once(':')?;
            let good = match good {
                "#" => usize::try_from(number).ok()?,
                _ => good.parse().ok()?,
            };
            let input = read_bytes(alloc, stream)?;
            history::run(
                alloc,
                &mut Drops::new(&input, good),
                &mut written,
                repository,
            )
        }
    };
    match operation {
        "sum" => show_sum(end_name(ended), written.as_slice(), page),
        _ => page.named(end_name(ended), written.as_slice()),
    }
    Some(())
}

// Shows the first four digits of the SHA-1 digest.
fn show_sum(name: &str, written: &[u8], page: &mut Page) {
    let mut digest = hasher(Kind::Sha1);
    digest.update(written);
    page.word(name);
    page.text(":");
    page.hex(digest.try_finalize().as_bytes().get(..2).unwrap_or(b""));
}

fn end_name(ended: Result<End, RunError>) -> &'static str {
    match ended {
        Ok(End::Input) => "Input",
        Ok(End::Refused) => "Refused",
        Ok(End::Fault) => "Fault",
        Err(RunError::Read) => "Read",
        Err(RunError::Write) => "Write",
    }
}

/// Runs a stream over a new repository in memory, or a worked one; or counts what a command reads
/// after another.
pub fn answer(
    alloc: Global,
    kind: Kind,
    operation: &str,
    rest: &str,
    page: &mut Page,
) -> Option<()> {
    match operation {
        "answer" => show_answer(answer_stream(alloc, kind, &read_bytes(alloc, rest)?), page),
        "first-commit" => show_answer(rows::first_commit(alloc), page),
        "hello-file" => show_answer(rows::hello_file(alloc), page),
        "reads" => {
            let (before, command) = rest.split_once(':')?;
            let before = read_bytes(alloc, before)?;
            let mut both = before.clone().ok()?;
            both.extend_from_slice(&read_bytes(alloc, command)?).ok()?;
            let calls = calls(alloc, kind, &both)?.checked_sub(calls(alloc, kind, &before)?)?;
            page.word("reads:");
            page.put(calls);
        }
        _ => return None,
    }
    Some(())
}

fn show_answer(answer: Result<Answer, AnswerError>, page: &mut Page) {
    match answer {
        Ok(answer) => page.named(end_name(Ok(answer.end)), answer.written.as_slice()),
        Err(_) => page.word("none"),
    }
}

// Returns how many calls on the objects part a run makes, on a new repository.
fn calls(alloc: Global, kind: Kind, input: &[u8]) -> Option<u64> {
    let mut objects = sound(MemoryFiles::new(alloc));
    let mut names = sound(MemoryFiles::new(alloc));
    create(alloc, &mut objects, &mut names, kind).ok()?;
    let mut repository = Repository::open(alloc, objects, names, kind).ok()?;
    let mut written = Collected::new(alloc);
    history::run(alloc, &mut Bytes::new(input), &mut written, &mut repository).ok()?;
    let (objects, _) = repository.into_parts();
    Some(objects.calls())
}
