//! The plan of a `move`: its lines read, what their names hold tested (ids compared), and their moves made.

ghost use Rattle.std.specs.Prelude.{◌≡◌, ◌++◌, None, Some, IfOk, IsTrue, List, MatchResult, OnOk, ⊤, map, not, option_map};
ghost use Rattle.std.specs.List.{flat_map, list_all, list_any};
ghost use Rattle.gix_hash.specs.Id.{id_of};
ghost use Rattle.history_model.specs.Forms.{is_name, is_private, max_content};
ghost use Rattle.history_word.specs.Commands.{AreTos, IsActor, IsMove, IsTo};
ghost use Rattle.history_word.specs.Fields.{Keeps};
ghost use Rattle.history_repository.specs.Known.{AreMeant};
ghost use Rattle.history_repository.specs.Reads.{GivesMeant};
ghost use Rattle.history_repository.specs.Meanings.{meaning_of};
ghost use Rattle.history_plans.specs.Moving.{AreLines, AreMoves, IsLine, IsLineMove, IsTeller, PlansMoves, TellsTeller, TestsNames, bars, is_elsewhere, is_missing, is_taken, is_there, line_meanings, lines_cause, to_name};
ghost use Rattle.history_plans.specs.CommitCauses.{TestsOf, place_causes};
ghost use Rattle.history_repository.specs.Stands.{Stands};
ghost use Rattle.history_model.specs.Causes as model;
ghost use Rattle.history_model.specs.Commands as commands;
ghost use Rattle.history_model.specs.Repository as plain;

use crate::actors::{actor_at, has_good_names, time_of};
use crate::apart::{do_lines_collide, have_twice};
use crate::base::{Expected, read_expected, test_words};
use crate::causes::is_bad_title;
use crate::planning::moves_to;
use gix_hash::{Kind, ObjectId};
use gix_ref_file::Files;
use history_model::Cause;
use history_repository::{
    Held, ReadObjects, Repository, Stopped, WordMeaning, commit_held, id_before, id_held,
    is_private, kept, read_held, read_word,
};
use history_store::{Actor, MovedName, is_name};
use history_word::{ActorLine, Field, MoveCommand, To};
use std::alloc::{AllocError, Global};

/// A line of a `move`: its name, what is expected of that, what it holds, and what the line's word
/// reads as.
#[derive(Drop)]
pub(crate) struct Line {
    pub(crate) name: Vec<u8>,
    expected: Expected,
    pub(crate) held: Option<Held>,
    word: WordMeaning,
}

/// Returns whether both are one id, or both are none.
pub(crate) fn same_id(a: Option<ObjectId>, b: Option<ObjectId>) -> bool
    ensures { result ≡ model.same_id (option_map id_of a) (option_map id_of b) }
{
    match a {
        Some(a) => match b {
            Some(b) => a == b,
            None => false,
        },
        None => b.is_none(),
    }
}

impl Line {
    /// Returns whether the name is expected at a word's commit and doesn't exist.
    fn is_missing(&self) -> bool
        ensures { result ≡ is_missing self.now }
    {
        matches!(self.expected, Expected::At(_)) && self.held.is_none()
    }

    /// Returns whether the name is expected to be new and exists.
    fn is_taken(&self) -> bool
        ensures { result ≡ is_taken self.now }
    {
        matches!(self.expected, Expected::New) && self.held.is_some()
    }

    /// Returns whether the name is expected at a word's commit and isn't there.
    fn is_elsewhere(&self) -> bool
        ensures { result ≡ is_elsewhere self.now }
    {
        match self.expected {
            Expected::Any => false,
            Expected::New => false,
            Expected::At(meaning) => !same_id(commit_held(self.held), meaning.id()),
        }
    }

    /// Returns whether the name holds its word's commit before it moves.
    fn is_there(&self) -> bool
        ensures { result ≡ is_there self.now }
    {
        same_id(id_held(self.held), self.word.id())
    }

    /// Returns how the name moves, with this actor and message in its log.
    fn into_moves(
        self,
        alloc: Global,
        kind: Kind,
        actor: &Actor,
        message: &[u8],
    ) -> Result<MovedName, AllocError>
        ensures { (r : plain.Repository) (sent : commands.MoveCommand) (to : commands.To)
            → IsLine r to self → kind ≡ r.kind → IsTeller sent actor.now message.now
            → IfOk result (IsLineMove r sent to) }
    {
        let before = id_before(self.held, kind);
        let after = self.word.id().unwrap_or(ObjectId::null(kind));
        let actor = actor.try_clone()?;
        let message = Vec::from_slice(alloc, message)?;
        Ok(moves_to(self.name, before, after, actor, message))
    }
}

// ---- what the lines are refused for by themselves

fn have_bad_name(to: &[To]) -> bool
    ensures { result ≡ list_any (λ name. not (is_name name)) (map to_name to.now) }
{
    to.iter().any(|to| !is_name(&to.name))
}

fn have_private(to: &[To]) -> bool
    ensures { result ≡ list_any is_private (map to_name to.now) }
{
    to.iter().any(|to| is_private(&to.name))
}

/// Tests the names by themselves: a repository may hold each, and none occurs twice. Otherwise it
/// is refused with `BadName`, `PrivateName` or `NameTwice`; it is a fault if no memory is left.
fn test_names(alloc: Global, to: &[To]) -> Result<(), Stopped>
    ensures { TestsNames (map to_name to.now) result }
{
    if have_bad_name(to) {
        return Err(Stopped::Refused(Cause::BadName));
    }
    if have_private(to) {
        return Err(Stopped::Refused(Cause::PrivateName));
    }
    if have_twice(alloc, to)? {
        return Err(Stopped::Refused(Cause::NameTwice));
    }
    Ok(())
}

/// Returns whether the message has a second line, or can't be a title.
fn is_bad_message(message: &Field) -> bool
    ensures { (r : plain.Repository) (sent : commands.MoveCommand)
        → Keeps max_content message.now sent.message
        → result ≡ model.is_bad_message (commands.Move sent) }
{
    let text = kept(message);
    is_bad_title(text) || text.contains(&b'\n')
}

/// Returns the actor of a move, if neither this nor the message is refused; otherwise `BadActor`,
/// `BadTime` or `BadMessage`.
fn read_teller(actor: ActorLine, message: &Field) -> Result<Actor, Cause>
    ensures { (r : plain.Repository) (sent : commands.MoveCommand)
        → IsActor actor sent.actor → Keeps max_content message.now sent.message
        → TellsTeller r sent message.now result }
{
    if !has_good_names(&actor) {
        return Err(Cause::BadActor);
    }
    let time = time_of(&actor).ok_or(Cause::BadTime)?;
    if is_bad_message(message) {
        return Err(Cause::BadMessage);
    }
    Ok(actor_at(actor, time).ok_or(Cause::BadActor)?)
}

// ---- what they are refused for once they are read

/// Adds what the words of a line read as: that of what is expected of its name, and its own.
fn add_meanings(meanings: &mut Vec<WordMeaning>, line: &Line) -> Result<(), AllocError>
    ensures { OnOk result (map meaning_of meanings.new.items
        ≡ map meaning_of meanings.old.items ++ line_meanings line.now) }
{
    if let Expected::At(meaning) = line.expected {
        meanings.push(meaning)?;
    }
    meanings.push(line.word)?;
    Ok(())
}

/// Returns what the words of the lines read as.
fn meanings_in(alloc: Global, lines: &[Line]) -> Result<Vec<WordMeaning>, AllocError>
    ensures { IfOk result
        (λ meanings. map meaning_of meanings.items ≡ flat_map line_meanings lines.now) }
{
    let mut meanings = Vec::new(alloc);
    for line in lines {
        add_meanings(&mut meanings, line)?;
    }
    Ok(meanings)
}

fn have_missing(lines: &[Line]) -> bool
    ensures { result ≡ list_any is_missing lines.now }
{
    lines.iter().any(|line| line.is_missing())
}

fn have_taken(lines: &[Line]) -> bool
    ensures { result ≡ list_any is_taken lines.now }
{
    lines.iter().any(|line| line.is_taken())
}

fn have_elsewhere(lines: &[Line]) -> bool
    ensures { result ≡ list_any is_elsewhere lines.now }
{
    lines.iter().any(|line| line.is_elsewhere())
}

/// Returns whether a line's name is there before it moves.
fn have_there(lines: &[Line]) -> bool
    ensures { result ≡ list_any is_there lines.now }
{
    lines.iter().any(|line| line.is_there())
}

/// Tests what the names hold. Otherwise returns `NoSuchName`, `Taken` or `NotExpected`.
fn test_held(lines: &[Line]) -> Result<(), Cause>
    ensures { MatchResult result (λ _. lines_cause lines.now ≡ None)
        (λ cause. lines_cause lines.now ≡ Some cause) }
{
    if have_missing(lines) {
        return Err(Cause::NoSuchName);
    }
    if have_taken(lines) {
        return Err(Cause::Taken);
    }
    if have_elsewhere(lines) {
        return Err(Cause::NotExpected);
    }
    Ok(())
}

/// Returns how the names of the lines move, in the order of the lines.
fn moves_of(
    alloc: Global,
    kind: Kind,
    lines: Vec<Line>,
    actor: &Actor,
    message: &[u8],
) -> Result<Vec<MovedName>, AllocError>
    ensures { (r : plain.Repository) (sent : commands.MoveCommand) → AreLines r sent.to lines.items
        → kind ≡ r.kind → IsTeller sent actor.now message.now
        → IfOk result (λ moves. AreMoves r sent sent.to moves.items) }
{
    let mut moves = Vec::new(alloc);
    for line in lines {
        moves.push(line.into_moves(alloc, kind, actor, message)?)?;
    }
    Ok(moves)
}

/// Returns a line, its words read, and what its name holds. It is a fault if a call of the files
/// failed, or if no memory is left.
fn read_line<F: Files>(
    repository: &Repository<F>,
    alloc: Global,
    read: &mut ReadObjects,
    to: To,
) -> Result<Line, Stopped>
    ensures reads { (r : plain.Repository) (sent : commands.To)
        → Stands F.is_honest F.history repository.now r → IsTo to sent
        → AreMeant r read.old → GivesMeant F.reading_may_fail (IsLine r sent) result }
    ensures kept { (r : plain.Repository) → Stands F.is_honest F.history repository.now r
        → AreMeant r read.old → OnOk result (AreMeant r read.new) }
{
    let expected = read_expected(repository, alloc, read, &to.expect)?;
    let word = read_word(repository, alloc, read, &to.word)?;
    let held = read_held(repository, alloc, read, &to.name)?;
    Ok(Line {
        name: to.name,
        expected,
        held,
        word,
    })
}

/// Returns the lines, each object read once. The faults are those of `read_line`.
fn read_lines<F: Files>(
    repository: &Repository<F>,
    alloc: Global,
    to: Vec<To>,
) -> Result<Vec<Line>, Stopped>
    ensures { (r : plain.Repository) (tos : List commands.To)
        → Stands F.is_honest F.history repository.now r
        → AreTos to.items tos
        → GivesMeant F.reading_may_fail (λ lines. AreLines r tos lines.items) result }
{
    let mut read = ReadObjects::new(alloc);
    let mut lines = Vec::new(alloc);
    for to in to {
        lines.push(read_line(repository, alloc, &mut read, to)?)?;
    }
    Ok(lines)
}

/// Returns whether a line's name is to be made, and collides with an existing one.
fn is_barred<F: Files>(
    repository: &Repository<F>,
    alloc: Global,
    line: &Line,
) -> Result<bool, Stopped>
    ensures { (r : plain.Repository) (to : commands.To)
        → Stands F.is_honest F.history repository.now r
        → IsLine r to line.now → IsTrue (is_name to.name)
        → GivesMeant F.reading_may_fail (λ barred. barred ≡ bars r to) result }
{
    if line.held.is_some() {
        return Ok(false);
    }
    Ok(repository.names.collides_any(alloc, &line.name)?)
}

/// Returns whether one of the lines' names is to be made, and collides with an existing one.
fn have_barred<F: Files>(
    repository: &Repository<F>,
    alloc: Global,
    lines: &[Line],
) -> Result<bool, Stopped>
    ensures { (r : plain.Repository) (tos : List commands.To)
        → Stands F.is_honest F.history repository.now r → AreLines r tos lines.now
        → IsTrue (list_all (λ to. is_name to.name) tos)
        → GivesMeant F.reading_may_fail (λ barred. barred ≡ list_any (bars r) tos) result }
{
    for line in lines {
        if is_barred(repository, alloc, line)? {
            return Ok(true);
        }
    }
    Ok(false)
}

/// Tests that each line's name exists, or can be made beside the others. Otherwise it is refused
/// with `Collides`. The faults are those of `read_line`.
fn test_places<F: Files>(
    repository: &Repository<F>,
    alloc: Global,
    lines: &[Line],
) -> Result<(), Stopped>
    ensures { (r : plain.Repository) (sent : commands.MoveCommand)
        → Stands F.is_honest F.history repository.now r → AreLines r sent.to lines.now
        → IsTrue (list_all (λ to. is_name to.name) sent.to)
        → TestsOf F.reading_may_fail place_causes r (commands.Move sent) (λ _. ⊤) result }
{
    if do_lines_collide(alloc, lines)? {
        return Err(Stopped::Refused(Cause::Collides));
    }
    if have_barred(repository, alloc, lines)? {
        return Err(Stopped::Refused(Cause::Collides));
    }
    Ok(())
}

/// Tests every cause, and returns the moves. It changes nothing.
///
/// It is refused for the first cause that holds: `BadName`, `PrivateName`, `NameTwice`, one of a
/// word that means no commit, `NoSuchName`, `Taken`, `NotExpected`, `Collides`, `BadActor`,
/// `BadTime`, `BadMessage` or `NothingMoves`. It is a fault if a call of the files failed, or if no
/// memory is left.
pub fn plan_moves<F: Files>(
    repository: &Repository<F>,
    alloc: Global,
    command: MoveCommand,
) -> Result<Vec<MovedName>, Stopped>
    ensures { (r : plain.Repository) (sent : commands.MoveCommand)
        → Stands F.is_honest F.history repository.now r → IsMove command sent
        → PlansMoves F.reading_may_fail r sent result }
{
    test_names(alloc, &command.to)?;
    let lines = read_lines(repository, alloc, command.to)?;
    test_words(Expected::Any, &meanings_in(alloc, &lines)?)?;
    test_held(&lines)?;
    test_places(repository, alloc, &lines)?;
    let actor = read_teller(command.actor, &command.message)?;
    if have_there(&lines) {
        return Err(Stopped::Refused(Cause::NothingMoves));
    }
    let message = kept(&command.message);
    Ok(moves_of(alloc, repository.names.kind(), lines, &actor, message)?)
}
