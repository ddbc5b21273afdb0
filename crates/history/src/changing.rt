//! A command that changes files: its objects are stored, its `ok` line is spelled, and then names move.

ghost use Rattle.std.specs.Prelude.{◌≡◌, [], ◌∷◌, codes, IfErr, IfOk, IsErrOf};
ghost use Rattle.gix_hash.specs.Id.{id_of};
ghost use Rattle.history_model.specs.Objects.{hex};
ghost use Rattle.history_model.specs.Spelling.{Line, parts_text};
ghost use Rattle.history_model.specs.declared.Fault.TheVariants.{File};
ghost use Rattle.history_repository.specs.Face.{has_failed, rows_in};
ghost use Rattle.history_repository.specs.Faults.{IsRefusal};
ghost use Rattle.history.specs.Runs.{CountsFailure};
ghost use Rattle.history.specs.Calls.{ActsAsAsked, KeepsBoth};
ghost use Rattle.history.specs.Replies.{TellsDone};
ghost use Rattle.history.specs.Storing.{AreMovesOf, AskedChange, IsDone};
ghost use Rattle.history_model.specs.Commands as commands;
ghost use Rattle.history_model.specs.Repository as plain;
ghost use Rattle.history_repository.specs.declared.stopped.Stopped.TheVariants as stopped;

use crate::moves::{Done, Moves, move_names, store_objects};
use gix_hash::{Kind, ObjectId};
use gix_ref_file::Files;
use history_repository::{Repository, Stopped};
use history_store::hex_digits;
use history_word::{Command, line};
use std::alloc::{AllocError, Global};

/// Returns the text that says with this word that a command is done.
fn word_text(alloc: Global, word: &[u8]) -> Result<Vec<u8>, AllocError>
    ensures { IfOk result (λ text. text.items
        ≡ parts_text (Line (codes "ok" ∷ word.now ∷ []) ∷ [])) }
{
    let mut text = Vec::new(alloc);
    line(&mut text, &[b"ok".as_slice(), word])?;
    Ok(text)
}

/// Returns the text that says so, with the id that was made.
fn id_text(alloc: Global, word: &[u8], id: &ObjectId) -> Result<Vec<u8>, AllocError>
    ensures { IfOk result (λ text. text.items
        ≡ parts_text (Line (codes "ok" ∷ word.now ∷ hex (id_of id.now) ∷ []) ∷ [])) }
{
    let mut text = Vec::new(alloc);
    let mut digits = Kind::hex_buf();
    line(
        &mut text,
        &[b"ok".as_slice(), word, hex_digits(id, &mut digits)],
    )?;
    Ok(text)
}

/// Returns the text of the reply to a command that changed names so.
fn change_text(alloc: Global, done: &Done) -> Result<Vec<u8>, AllocError>
    ensures { (r : plain.Repository) (sent : commands.Command) → IsDone r sent done.now
        → IfOk result (λ text. TellsDone r sent text.items) }
{
    match done {
        Done::Commit(id) => id_text(alloc, b"commit", id),
        Done::Tag(id) => id_text(alloc, b"tag", id),
        Done::Move => word_text(alloc, b"move"),
        Done::Rename => word_text(alloc, b"rename"),
        Done::Delete => word_text(alloc, b"delete"),
    }
}

/// Returns the text of the reply to a command with these moves.
fn done_text(alloc: Global, moves: &Moves) -> Result<Vec<u8>, AllocError>
    ensures { (r : plain.Repository) (sent : commands.Command) → AreMovesOf r sent moves.now
        → IfOk result (λ text. TellsDone r sent text.items) }
{
    match moves {
        Moves::Change { done, .. } => change_text(alloc, done),
        Moves::Switch(_) => word_text(alloc, b"switch"),
        Moves::Pack(_) => word_text(alloc, b"pack"),
        Moves::Nothing => word_text(alloc, b""),
    }
}

/// Acts on a command that changes files, and returns the text of its reply, which is made once the
/// objects are stored and before the first name moves. Otherwise returns the first cause that
/// holds, and nothing has changed, or a fault.
pub(crate) fn change<F: Files>(
    repository: &mut Repository<F>,
    alloc: Global,
    command: Command,
) -> Result<Vec<u8>, Stopped>
    ensures refused { IfErr result (λ stopped. IsRefusal stopped → repository.new ≡ repository.old) }
    ensures failed { has_failed repository.new ≡ has_failed repository.old }
    ensures rows { rows_in repository.new ≡ rows_in repository.old }
    ensures keeps { KeepsBoth F.Files (IsErrOf result (stopped.Fault File))
        repository.old repository.new }
    ensures acts { (r : plain.Repository) (sent : commands.Command)
        → AskedChange F.is_honest F.history repository.old command r sent
        → ActsAsAsked F.Files r (CountsFailure F.failures F.reading_may_fail repository.old repository.new)
        sent repository.old repository.new result }
{
    let moves = store_objects(repository, alloc, command)?;
    let text = done_text(alloc, &moves)?;
    move_names(repository, alloc, moves)?;
    Ok(text)
}
