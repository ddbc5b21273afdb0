//! Writing a line of a log: whether its actor and time have a spelling, then ids, actor, time and message.

ghost use Rattle.std.specs.Prelude.{◌≡◌, ◌++◌, ◌∷◌, ◌↔◌, [], IsTrue, OnOk, OnErr, IsErrOf};
ghost use Rattle.std.specs.Io.KnownBytes.{Appends};
ghost use Rattle.gix_hash.specs.Id.{id_of};
ghost use Rattle.gix_hash.specs.Spelling.{hex_text};
ghost use Rattle.gix_object_lines.specs.Actor.{IsPlain, IsSpellable, actor_text};
ghost use Rattle.gix_object_lines.specs.Time.{IsSpellableOffset};
ghost use Rattle.gix_hash.specs.Writes.{AppendsFewer};
ghost use Rattle.gix_ref_log.specs.LogOwned.{WritesLogLine, written_text};
ghost use Rattle.gix_ref_log.specs.declared.line.write.Error.TheVariants.{MessageWithNewlines, Unspellable};

use crate::Line;
use gix_hash::{Kind, ObjectId};
use gix_object_lines::cut::lacks;
use gix_object_lines::lines::{Actor, write_actor};
use gix_object_lines::write;
use gix_object_lines::write::write_bytes;
use std::io;

/// Why a line wasn't written whole.
#[derive(Debug, Drop, thiserror::Error)]
pub enum Error {
    /// The writer failed. Over memory: a growth was refused.
    #[error("the writer failed")]
    Writer(io::Error),
    /// The name or the email holds `<`, `>` or a line feed, or the offset isn't whole minutes below
    /// 100 hours.
    #[error("the signature has no spelling")]
    Unspellable,
    /// The message holds a line feed, which would end the line.
    #[error("a log's message must not hold a line feed")]
    MessageWithNewlines,
}

impl Line {
    /// Appends the line: both ids in lower-case hexadecimal and the signature, each with one space
    /// between, a tab, the message, which may be empty, and a line feed. It is read back if neither
    /// name nor email holds a tab: `laws::written_line_is_read_back`.
    ///
    /// Returns `MessageWithNewlines` if the message holds a line feed, and otherwise `Unspellable`
    /// if the signature has no spelling; nothing is then written. A writer that fails has taken a
    /// beginning of the line.
    pub fn write_to<W: io::Write>(&self, out: &mut W) -> Result<(), Error>
        ensures written { WritesLogLine (W.contents out.old) (W.contents out.new) self.now result }
        ensures unchanged_by_message { IsErrOf result MessageWithNewlines → out.new ≡ out.old }
        ensures unchanged_by_actor { IsErrOf result Unspellable → out.new ≡ out.old }
    {
        if !lacks(self.message.as_bytes(), b'\n') {
            return Err(Error::MessageWithNewlines);
        }
        if !is_spellable(&self.signature) {
            return Err(Error::Unspellable);
        }
        if let Err(error) = write_whole(self, out) {
            return Err(Error::Writer(error));
        }
        Ok(())
    }
}

// Writes a line that has a spelling.
fn write_whole<W: io::Write>(line: &Line, out: &mut W) -> io::Result<()>
    requires { IsSpellable line.now.signature.name line.now.signature.email
        line.now.signature.time }
    ensures ok { OnOk result
        (Appends (W.contents out.old) (W.contents out.new) (written_text line.now ++ 10 ∷ [])) }
    ensures err { OnErr result
        (AppendsFewer (W.contents out.old) (W.contents out.new)
        (written_text line.now ++ 10 ∷ [])) }
{
    write_id(line.previous_oid, out)?;
    write_id(line.new_oid, out)?;
    write_signature(&line.signature, out)?;
    write_message(line.message.as_bytes(), out)
}

// Writes an id's digits and a space.
fn write_id<W: io::Write>(id: ObjectId, out: &mut W) -> io::Result<()>
    ensures ok { OnOk result
        (Appends (W.contents out.old) (W.contents out.new)
        (hex_text (id_of id).digits ++ 32 ∷ [])) }
    ensures err { OnErr result
        (AppendsFewer (W.contents out.old) (W.contents out.new)
        (hex_text (id_of id).digits ++ 32 ∷ [])) }
{
    let mut buffer = Kind::hex_buf();
    write_bytes(out, id.hex_to_buf(&mut buffer).as_bytes())?;
    write_bytes(out, b" ")
}

// Writes an actor's line that has a spelling.
fn write_signature<W: io::Write>(actor: &Actor, out: &mut W) -> io::Result<()>
    requires { IsSpellable actor.now.name actor.now.email actor.now.time }
    ensures ok { OnOk result
        (Appends (W.contents out.old) (W.contents out.new)
        (actor_text actor.now.name actor.now.email actor.now.time)) }
    ensures err { OnErr result
        (AppendsFewer (W.contents out.old) (W.contents out.new)
        (actor_text actor.now.name actor.now.email actor.now.time)) }
{
    match write_actor(actor, out) {
        Ok(()) => Ok(()),
        Err(write::Error::Writer(error)) => Err(error),
        Err(_) => unreachable!(),
    }
}

// Writes a tab, a message and a line feed.
fn write_message<W: io::Write>(message: &[u8], out: &mut W) -> io::Result<()>
    ensures ok { OnOk result
        (Appends (W.contents out.old) (W.contents out.new) (9 ∷ (message.now ++ 10 ∷ []))) }
    ensures err { OnErr result
        (AppendsFewer (W.contents out.old) (W.contents out.new) (9 ∷ (message.now ++ 10 ∷ []))) }
{
    write_bytes(out, b"\t")?;
    write_bytes(out, message)?;
    write_bytes(out, b"\n")
}

// Returns whether the signature has a spelling.
fn is_spellable(actor: &Actor) -> bool
    ensures { IsTrue result ↔ IsSpellable actor.now.name actor.now.email actor.now.time }
{
    is_plain(actor.name.as_bytes())
        && is_plain(actor.email.as_bytes())
        && is_spellable_offset(actor.time.offset)
}

fn is_plain(part: &[u8]) -> bool
    ensures { IsTrue result ↔ IsPlain part.now }
{
    lacks(part, b'<') && lacks(part, b'>') && lacks(part, b'\n')
}

fn is_spellable_offset(offset: i32) -> bool
    ensures { IsTrue result ↔ IsSpellableOffset offset }
{
    let away = offset.unsigned_abs();
    away % 60 == 0 && away < 360_000
}
