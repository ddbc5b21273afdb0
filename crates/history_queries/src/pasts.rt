//! The command `past`.

ghost use Rattle.std.specs.Prelude.{◌≡◌, List, IfOk, IsTrue};
ghost use Rattle.std.specs.List.{list_all};
ghost use Rattle.gix_hash.specs.declared.kind.Kind.{Kind};
ghost use Rattle.history_model.specs.Repository.{LogEntry};
ghost use Rattle.history_model.specs.Forms.{is_log_entry};
ghost use Rattle.history_model.specs.Logs.{log_text};
ghost use Rattle.history_model.specs.Replies.{reply_text, PastIs};
ghost use Rattle.history_model.specs.Meaning.{past_name};
ghost use Rattle.history_repository.specs.Stands.{Stands};
ghost use Rattle.history_repository.specs.Reads.{OnlyAnswers, GivesMeant};
ghost use Rattle.history_model.specs.Repository as plain;
ghost use Rattle.history_model.specs.Commands as model;

use gix_ref_file::Files;
use history_model::Cause;
use history_model::names::HEAD;
use history_repository::{Repository, Stopped, first_standing, test_name};
use history_store::{is_name, log_lines};
use history_word::{field, line};
use std::alloc::{AllocError, Global};

/// Returns the text that lists a name's moves, the newest first, given the name's log.
fn past_text(alloc: Global, log: &[u8]) -> Result<Vec<u8>, AllocError>
    ensures { (kind : Kind) (moves : List LogEntry) → IsTrue (list_all (is_log_entry kind) moves)
        → log.now ≡ log_text moves
        → IfOk result (λ text. text.items ≡ reply_text (PastIs moves)) }
{
    let moves = log_lines(alloc, log)?;
    let mut text = Vec::new(alloc);
    let mut count = itoa::Buffer::new();
    line(
        &mut text,
        &[
            b"ok".as_slice(),
            b"past".as_slice(),
            count.format(moves.len()).as_bytes(),
        ],
    )?;
    for entry in &moves {
        field(&mut text, entry)?;
    }
    Ok(text)
}

/// Returns the name whose past a word requests: HEAD's branch for HEAD, a name itself, and of
/// another word the first existing name of those that it may mean. A word that means none is
/// returned as it is. It is a fault if a call of the files failed, or if no memory is left.
fn past_name<F: Files>(
    repository: &Repository<F>,
    alloc: Global,
    word: &[u8],
) -> Result<Vec<u8>, Stopped>
    ensures { (r : plain.Repository) → Stands F.is_honest F.history repository.now r
        → GivesMeant F.reading_may_fail (λ name. name.items ≡ past_name r word.now) result }
{
    if word == HEAD {
        return Ok(Vec::from_slice(alloc, &repository.branch)?);
    }
    if is_name(word) {
        return Ok(Vec::from_slice(alloc, word)?);
    }
    match first_standing(repository, alloc, word)? {
        Some(standing) => Ok(standing.name),
        None => Ok(Vec::from_slice(alloc, word)?),
    }
}

/// Returns the reply to `past`: the lines of a name's log, the newest first.
///
/// It is refused with `BadName` or `PrivateName` if a repository can't hold the name, and with
/// `NoSuchName` if the name doesn't exist. It is a fault if a call of the files failed, or if no
/// memory is left.
pub fn past<F: Files>(
    repository: &Repository<F>,
    alloc: Global,
    word: &[u8],
) -> Result<Vec<u8>, Stopped>
    ensures { (r : plain.Repository) → Stands F.is_honest F.history repository.now r
        → OnlyAnswers F.reading_may_fail r (model.Past word.now) result }
{
    let name = past_name(repository, alloc, word)?;
    test_name(&name)?;
    if repository.names.find(alloc, &name)?.is_none() {
        return Err(Stopped::Refused(Cause::NoSuchName));
    }
    let log = repository.names.log(alloc, &name)?;
    Ok(past_text(alloc, &log)?)
}
