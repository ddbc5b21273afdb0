//! Reads one command: its lines, its fields, edits, paths and actors, or why none was read (`Stop`).

ghost use Rattle.std.specs.Prelude.{◌≡◌, ◌≢◌, ◌<◌, ℕ, List, [], ◌∷◌, ◌++◌, length, IfSome};
ghost use Rattle.history_model.specs.Bytes.{Bytes, line};
ghost use Rattle.history_model.specs.Commands as model;
ghost use Rattle.history_model.specs.Spelling.{spelling};
ghost use Rattle.history_model.specs.Grammar.{Spells};
ghost use Rattle.history_model.specs.Stops as stops;
ghost use Rattle.history_word.specs.LineTable as table;
ghost use Rattle.history_word.specs.TableRuns.{StopsAt};
ghost use Rattle.history_word.specs.Held.{IsLineOf};
ghost use Rattle.history_word.specs.Buffer.{unread};
ghost use Rattle.history_word.specs.Fields.{KeepsFront, Keeps};
ghost use Rattle.history_word.specs.Commands.{IsReceived, is_received_changing};
ghost use Rattle.history_word.specs.Drafts.{place_of};
ghost use Rattle.history_word.specs.Come.{edit_sizes, opening_sizes, heading_sizes, TakesLine, TakesEdit, TakesPaths, TakesLog, TakesActor, TakesOpening, TakesFields, TakesParts};
ghost use Rattle.history_word.specs.Progress.{IsEndless, IsNoField, StopsFrom, IsCauseOf};
ghost use Rattle.history_word.specs.Reading.{Reads};
ghost use Rattle.history_word.specs.Sizes.{listed};
ghost use Rattle.history_word.specs.Taking.{AsksForMore};
ghost use Rattle.history_word.specs.declared.reader.Stop.TheVariants.{Broken as broken};

use crate::buffer::Buffer;
use crate::command::{ActorLine, Command, Edit, Field, LogCommand};
use crate::draft::{Draft, actor_line, graft, pushed, put};
use crate::heading::{ActorHeading, EditHeading, Heading, Opening, parse};
use crate::logs::LogLine;
use crate::place::Place;
use crate::streams::{Broken, Source};
use history_model::Cause;
use history_model::limits::{MAX_ACTOR_PART, MAX_CONTENT, MAX_LINE, MAX_PATH};
use std::alloc::Global;

/// Why no command was read.
#[derive(Clone, Copy)]
pub enum Stop {
    /// What came begins with no command: `Syntax`, `Truncated` or `LineTooLong`.
    Refused(Cause),
    /// The source has failed, or the last reading that a `u64` counts was made.
    Broken,
}

impl From<Broken> for Stop {
    ghost from_gives = { λ _ stop. stop ≡ broken };

    fn from(_broken: Broken) -> Stop {
        Stop::Broken
    }
}

/// A whole command that was read.
#[derive(Drop)]
pub enum Received {
    Command(Command),
    /// Memory ran out for some part of it; it was read to its end all the same.
    NoMemory { is_changing: bool },
}

impl Received {
    /// Returns whether the command that was read changes files.
    pub fn is_changing(&self) -> bool
        ensures same { result ≡ is_received_changing self.now }
        ensures sent { (sent : model.Command) → IsReceived self.now sent
            → result ≡ stops.is_changing sent }
    {
        match self {
            Received::Command(command) => command.is_changing(),
            Received::NoMemory { is_changing } => *is_changing,
        }
    }
}

/// Reads until the first line is whole, and returns its length without its line feed. Refused as
/// `LineTooLong` or, at the end of the source, as `Truncated`.
fn read_line<R: Source>(buffer: &mut Buffer, source: &mut R) -> Result<usize, Stop>
    ensures { Reads R.left R.has_failed R.readings source.old buffer.old source.new buffer.new
        (λ n taken. (taken ≡ []) × IsLineOf n (unread buffer.new)
        × (n < length (unread buffer.old) → source.new ≡ source.old)) IsEndless result }
{
    loop {
        if let Some(length) = buffer.line() {
            return Ok(length);
        }
        if buffer.unread().len() > MAX_LINE {
            return Err(Stop::Refused(Cause::LineTooLong));
        }
        if !buffer.fill(source)? {
            return Err(Stop::Refused(Cause::Truncated));
        }
    }
}

/// Takes the line at this place, and returns what it says and the place of the next one. Refused as
/// `Syntax` if no such line may be here.
fn read_heading<R: Source>(
    alloc: Global,
    buffer: &mut Buffer,
    source: &mut R,
    place: Place,
) -> Result<(Heading, Place), Stop>
    requires { place_of place ≢ table.Done }
    ensures { Reads R.left R.has_failed R.readings source.old buffer.old source.new buffer.new
        (λ read taken. TakesLine place read.0 read.1 taken
        × AsksForMore source.old buffer.old source.new taken)
        (StopsAt [] (place_of place)) result }
{
    let length = read_line(buffer, source)?;
    let Some(heading) = parse(alloc, &buffer.unread()[..length]) else {
        return Err(Stop::Refused(Cause::Syntax));
    };
    let Some(next) = place.next(&heading) else {
        return Err(Stop::Refused(Cause::Syntax));
    };
    buffer.skip(length + 1);
    Ok((heading, next))
}

/// Takes a field of this size and its line feed. It is `None` if memory ran out for it.
fn read_field<R: Source>(
    alloc: Global,
    buffer: &mut Buffer,
    source: &mut R,
    size: u64,
    limit: usize,
) -> Result<Option<Field>, Stop>
    ensures { Reads R.left R.has_failed R.readings source.old buffer.old source.new buffer.new
        (λ field taken. (bytes : Bytes) × (length bytes ≡ size) × (taken ≡ line bytes)
        × IfSome field (λ kept. Keeps limit kept bytes)
        × AsksForMore source.old buffer.old source.new taken) (IsNoField size) result }
{
    let mut field = Some(Field::new(alloc, size, limit));
    let mut rest = size;
    while rest > 0 {
        if !buffer.has_more(source)? {
            return Err(Stop::Refused(Cause::Truncated));
        }
        let count = rest.min(buffer.unread().len() as u64) as usize;
        field = field_with_bytes(field, &buffer.unread()[..count]);
        buffer.skip(count);
        rest -= count as u64;
    }
    if !buffer.has_more(source)? {
        return Err(Stop::Refused(Cause::Truncated));
    }
    if buffer.unread()[0] != b'\n' {
        return Err(Stop::Refused(Cause::Syntax));
    }
    buffer.skip(1);
    Ok(field)
}

/// Returns the field with its next bytes, if there is memory for them.
fn field_with_bytes(field: Option<Field>, bytes: &[u8]) -> Option<Field>
    ensures { (limit size : ℕ) (front : Bytes)
        → IfSome field (λ kept. KeepsFront limit size kept front)
        → IfSome result (λ kept. KeepsFront limit size kept (front ++ bytes.now)) }
{
    let mut field = field?;
    field.add(bytes).ok()?;
    Some(field)
}

/// Takes the fields of an edit's line. The edit is `None` if memory ran out for one of them.
fn read_edit<R: Source>(
    alloc: Global,
    buffer: &mut Buffer,
    source: &mut R,
    heading: EditHeading,
) -> Result<Option<Edit>, Stop>
    ensures { Reads R.left R.has_failed R.readings source.old buffer.old source.new buffer.new
        (λ edit taken. TakesEdit heading edit taken
        × AsksForMore source.old buffer.old source.new taken)
        (λ bytes cause. (place : table.Place)
        → StopsFrom (edit_sizes heading) place bytes cause) result }
{
    match heading {
        EditHeading::Put {
            kind,
            path,
            content,
        } => {
            let path = read_field(alloc, buffer, source, path, MAX_PATH)?;
            let content = read_field(alloc, buffer, source, content, MAX_CONTENT)?;
            Ok(put(kind, path, content))
        }
        EditHeading::Remove { path } => {
            let path = read_field(alloc, buffer, source, path, MAX_PATH)?;
            Ok(path.map(Edit::Remove))
        }
        EditHeading::RemoveFile { path } => {
            let path = read_field(alloc, buffer, source, path, MAX_PATH)?;
            Ok(path.map(Edit::RemoveFile))
        }
        EditHeading::Graft {
            path,
            word,
            source: from,
        } => {
            let path = read_field(alloc, buffer, source, path, MAX_PATH)?;
            let from = read_field(alloc, buffer, source, from, MAX_PATH)?;
            Ok(graft(path, word, from))
        }
    }
}

/// Takes paths of these sizes. They are `None` if memory ran out for them.
fn read_paths<R: Source>(
    alloc: Global,
    buffer: &mut Buffer,
    source: &mut R,
    sizes: &[u64],
) -> Result<Option<Vec<Field>>, Stop>
    ensures { Reads R.left R.has_failed R.readings source.old buffer.old source.new buffer.new
        (λ paths taken. TakesPaths sizes.now paths taken
        × AsksForMore source.old buffer.old source.new taken)
        (λ bytes cause. (place : table.Place) → StopsFrom sizes.now place bytes cause) result }
{
    let mut paths = Some(Vec::new(alloc));
    for size in sizes {
        let path = read_field(alloc, buffer, source, *size, MAX_PATH)?;
        paths = pushed(paths, path);
    }
    Ok(paths)
}

/// Takes the paths that follow a log's line. The log is `None` if memory ran out for a part of it.
fn read_log<R: Source>(
    alloc: Global,
    buffer: &mut Buffer,
    source: &mut R,
    line: LogLine,
) -> Result<Option<LogCommand>, Stop>
    ensures { Reads R.left R.has_failed R.readings source.old buffer.old source.new buffer.new
        (λ log taken. TakesLog line log taken
        × AsksForMore source.old buffer.old source.new taken)
        (λ bytes cause. (place : table.Place)
        → StopsFrom (listed line.paths) place bytes cause) result }
{
    let paths = read_paths(alloc, buffer, source, line.paths.as_slice())?;
    Ok(line.finish(paths))
}

/// Takes the fields of an actor's line. The actor is `None` if memory ran out for a part of it.
fn read_actor<R: Source>(
    alloc: Global,
    buffer: &mut Buffer,
    source: &mut R,
    heading: ActorHeading,
) -> Result<Option<ActorLine>, Stop>
    ensures { Reads R.left R.has_failed R.readings source.old buffer.old source.new buffer.new
        (λ actor taken. TakesActor heading actor taken
        × AsksForMore source.old buffer.old source.new taken)
        (λ bytes cause. (place : table.Place)
        → StopsFrom (heading.name ∷ heading.email ∷ []) place bytes cause) result }
{
    let name = read_field(alloc, buffer, source, heading.name, MAX_ACTOR_PART)?;
    let email = read_field(alloc, buffer, source, heading.email, MAX_ACTOR_PART)?;
    Ok(actor_line(name, email, heading.seconds, heading.offset))
}

/// Takes the fields of a command's first line, and returns what has come of the command.
fn read_opening<R: Source>(
    alloc: Global,
    buffer: &mut Buffer,
    source: &mut R,
    opening: Opening,
) -> Result<Draft, Stop>
    ensures { Reads R.left R.has_failed R.readings source.old buffer.old source.new buffer.new
        (λ draft taken. TakesOpening opening draft taken
        × AsksForMore source.old buffer.old source.new taken)
        (λ bytes cause. (place : table.Place)
        → StopsFrom (opening_sizes opening) place bytes cause) result }
{
    match opening {
        Opening::Commit { name, expect } => Ok(Draft::commit(alloc, name, expect)),
        Opening::Tag(target) => Ok(Draft::tag(target)),
        Opening::Move => Ok(Draft::new_move(alloc)),
        Opening::Rename { from, to } => Ok(Draft::rename(from, to)),
        Opening::Delete { name, expect } => Ok(Draft::delete(name, expect)),
        Opening::Files { word } => Ok(Draft::Files(word)),
        Opening::Show { word } => Ok(Draft::show(word)),
        Opening::ShowPath { word, path } => {
            let path = read_field(alloc, buffer, source, path, MAX_PATH)?;
            Ok(Draft::show_path(word, path))
        }
        Opening::Names => Ok(Draft::Names),
        Opening::NamesIn { folder } => Ok(Draft::NamesIn(folder)),
        Opening::Past { word } => Ok(Draft::Past(word)),
        Opening::Switch { name } => Ok(Draft::Switch(name)),
        Opening::Pack => Ok(Draft::Pack),
        Opening::Index => Ok(Draft::Index),
        Opening::Log(line) => Ok(Draft::Log(read_log(alloc, buffer, source, line)?)),
    }
}

/// Takes the fields of a line into the draft.
fn read_fields<R: Source>(
    alloc: Global,
    buffer: &mut Buffer,
    source: &mut R,
    heading: Heading,
    draft: &mut Draft,
) -> Result<(), Stop>
    ensures { Reads R.left R.has_failed R.readings source.old buffer.old source.new buffer.new
        (λ _ taken. TakesFields heading draft.old draft.new taken
        × AsksForMore source.old buffer.old source.new taken)
        (λ bytes cause. (place : table.Place)
        → StopsFrom (heading_sizes heading) place bytes cause) result }
{
    match heading {
        Heading::Opening(line) => *draft = read_opening(alloc, buffer, source, line)?,
        Heading::Parent { word } => draft.add_parent(word),
        Heading::To(to) => draft.add_to(to),
        Heading::Edit(line) => draft.add_edit(read_edit(alloc, buffer, source, line)?),
        Heading::Actor(line) => {
            let role = line.role;
            draft.set_actor(role, read_actor(alloc, buffer, source, line)?);
        }
        Heading::Message { size } => {
            draft.set_message(read_field(alloc, buffer, source, size, MAX_CONTENT)?);
        }
        Heading::End => {}
    }
    Ok(())
}

/// Takes a line and its fields into the draft, and returns the place of the next line.
fn read_part<R: Source>(
    alloc: Global,
    buffer: &mut Buffer,
    source: &mut R,
    place: Place,
    draft: &mut Draft,
) -> Result<Place, Stop>
    requires { place_of place ≢ table.Done }
    ensures { Reads R.left R.has_failed R.readings source.old buffer.old source.new buffer.new
        (λ next taken. TakesParts place draft.old next draft.new taken
        × AsksForMore source.old buffer.old source.new taken)
        (StopsFrom [] (place_of place)) result }
{
    let (heading, next) = read_heading(alloc, buffer, source, place)?;
    read_fields(alloc, buffer, source, heading, draft)?;
    Ok(next)
}

/// Reads a whole command. Calls the source only if the command isn't in the buffer already.
///
/// Returns `Refused` if what came begins with no command: as `LineTooLong` if 4,097 bytes come
/// without a line feed in place of a line, as `Truncated` if the input ends within a command, after
/// which nothing is left unread, and as `Syntax` if a whole line may not be in its place or a field
/// is not followed by a line feed. Returns `Broken` if the source has failed, and at the
/// 18,446,744,073,709,551,615th reading through this buffer.
pub fn read_command<R: Source>(
    alloc: Global,
    buffer: &mut Buffer,
    source: &mut R,
) -> Result<Received, Stop>
    ensures { Reads R.left R.has_failed R.readings source.old buffer.old source.new buffer.new
        (λ received taken. (sent : model.Command) × Spells taken sent × IsReceived received sent
        × AsksForMore source.old buffer.old source.new taken) IsCauseOf result }
{
    let mut draft = Draft::Empty;
    let mut place = Place::Start;
    while place != Place::Done {
        place = read_part(alloc, buffer, source, place, &mut draft)?;
    }
    let is_changing = draft.is_changing();
    match draft.finish() {
        Some(command) => Ok(Received::Command(command)),
        None => Ok(Received::NoMemory { is_changing }),
    }
}
