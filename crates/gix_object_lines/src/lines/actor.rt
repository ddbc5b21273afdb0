//! Who did something, and when: `Name <email> time`.

ghost use Rattle.std.specs.Prelude.{ℕ, List, ◌≡◌, ◌↔◌, ◌⊎◌, IfOk, IfErr, IsOkAnd, IsErrOf, IsTrue, MatchOption, OnOk};
ghost use Rattle.bstr.specs.BStr.{bstr_bytes};
ghost use Rattle.gix_object_lines.specs.Time.{SpellsTime};
ghost use Rattle.gix_object_lines.specs.Actor.{IsCut, IsUncut, IsUntimed, TellsTime, SpellsActor, IsPlain, IsSpellable, IsReadBack, actor_text};
ghost use Rattle.gix_object_lines.specs.LineWrites.{WritesLine};
ghost use Rattle.gix_object_lines.specs.declared.write.Error.TheVariants.{Header};
ghost use Rattle.gix_object_lines.specs.declared.decode.Error.TheVariants.{InvalidActor, InvalidTime, Memory};
ghost use Rattle.gix_object_lines.specs.declared.encode.Error.TheVariants.{Unspellable};

use crate::byte_string::ByteString;
use crate::cut::{lacks, rsplit_once, split_once, strip_prefix, strip_suffix};
use crate::lines::digits::spell_offset;
use crate::lines::time::{Time, read_time};
use crate::write::{Error, write_parts};
use crate::{decode, encode};
use bstr::BStr;
use std::alloc::{AllocError, Global};
use std::io;

/// A person and a time, as a line has them.
#[derive(Debug, Clone, Copy, PartialEq, Eq)]
pub struct ActorRef<'a> {
    /// All before the space and the first `<`.
    pub name: BStr<'a>,
    /// All between the first `<` and the last `>`.
    pub email: BStr<'a>,
    /// The text of the time, which `read_time` reads.
    pub time: BStr<'a>,
}

/// A person and a time.
#[derive(Debug, Drop, PartialEq, Eq)]
pub struct Actor {
    /// The text before the email; it may be empty.
    pub name: ByteString,
    /// The text between `<` and `>`; it may be empty.
    pub email: ByteString,
    /// When it was done.
    pub time: Time,
}

impl<'a> ActorRef<'a> {
    /// The actor with copies of name and email. Returns `InvalidTime` if the text is no time, which
    /// never happens after `read_actor`, and otherwise `Memory` if no memory is left.
    pub fn to_owned(self, alloc: Global) -> Result<Actor, decode::Error>
        ensures name { IfOk result (λ actor. actor.name ≡ bstr_bytes self.entry.name) }
        ensures email { IfOk result (λ actor. actor.email ≡ bstr_bytes self.entry.email) }
        ensures time { IfOk result (λ actor. SpellsTime (bstr_bytes self.entry.time) actor.time) }
        ensures refused { IsErrOf result InvalidTime ↔ ¬ TellsTime (bstr_bytes self.entry.time) }
        ensures faults { IfErr result
            (λ fault. ((fault ≡ InvalidTime) × ¬ TellsTime (bstr_bytes self.entry.time))
            ⊎ ((fault ≡ Memory) × TellsTime (bstr_bytes self.entry.time))) }
    {
        let Ok(time) = read_time(self.time.as_bytes()) else {
            return Err(decode::Error::InvalidTime);
        };
        let Ok(name) = ByteString::from_slice(alloc, self.name.as_bytes()) else {
            return Err(decode::Error::Memory);
        };
        let Ok(email) = ByteString::from_slice(alloc, self.email.as_bytes()) else {
            return Err(decode::Error::Memory);
        };
        Ok(Actor { name, email, time })
    }
}

impl Actor {
    /// An actor of the same values.
    pub fn try_clone(&self) -> Result<Actor, AllocError>
        ensures { IfOk result (λ copy. copy ≡ self.now) }
    {
        Ok(Actor {
            name: self.name.try_clone()?,
            email: self.email.try_clone()?,
            time: self.time,
        })
    }
}

/// The name, the email and the text of the time of a line `Name <email> time`. The email is all
/// between the line's first `<` and its last `>`, with one space before the one and one after the
/// other. Neither name nor email has a line feed; either may be empty.
///
/// Returns `InvalidActor` if the line has no such parts, and `InvalidTime` if what follows them is
/// no time.
pub fn read_actor(line: &[u8]) -> Result<ActorRef<'_>, decode::Error>
    ensures read { IfOk result
        (λ actor. SpellsActor line.now (bstr_bytes actor.name) (bstr_bytes actor.email)
        (bstr_bytes actor.time)) }
    ensures every { (name email time : List ℕ) → SpellsActor line.now name email time
        → IsOkAnd result
        (λ actor. (bstr_bytes actor.name ≡ name) × (bstr_bytes actor.email ≡ email)
        × (bstr_bytes actor.time ≡ time)) }
    ensures refused { IfErr result
        (λ fault. ((fault ≡ InvalidActor) × IsUncut line.now)
        ⊎ ((fault ≡ InvalidTime) × IsUntimed line.now)) }
{
    let Some(actor) = cut(line) else {
        return Err(decode::Error::InvalidActor);
    };
    let Ok(_time) = read_time(actor.time.as_bytes()) else {
        return Err(decode::Error::InvalidTime);
    };
    Ok(actor)
}

// Cuts a line at its marks; `None` if one is missing, or a line feed comes before the last.
fn cut(line: &[u8]) -> Option<ActorRef<'_>>
    ensures { MatchOption result (IsUncut line.now)
        (λ actor. IsCut line.now (bstr_bytes actor.name) (bstr_bytes actor.email)
        (bstr_bytes actor.time)) }
{
    let (front, rest) = split_once(line, b'<')?;
    let (email, back) = rsplit_once(rest, b'>')?;
    let name = strip_suffix(front, b" ")?;
    let time = strip_prefix(back, b" ")?;
    if !lacks(name, b'\n') {
        return None;
    }
    if !lacks(email, b'\n') {
        return None;
    }
    Some(ActorRef {
        name: BStr::new(name),
        email: BStr::new(email),
        time: BStr::new(time),
    })
}

/// Appends the actor's line, without a line feed: see `write_actor_parts`.
pub fn write_actor<W: io::Write>(actor: &Actor, out: &mut W) -> Result<(), Error>
    ensures written { WritesLine (IsSpellable actor.now.name actor.now.email actor.now.time)
        (W.contents out.old) (W.contents out.new)
        (actor_text actor.now.name actor.now.email actor.now.time) result }
    ensures spelled { OnOk result (IsReadBack actor.now.name actor.now.email actor.now.time) }
    ensures unchanged { IsErrOf result (Header Unspellable) → out.new ≡ out.old }
{
    write_actor_parts(
        actor.name.as_bytes(),
        actor.email.as_bytes(),
        actor.time,
        out,
    )
}

/// Appends an actor's line, without a line feed: the name, a space, the email between `<` and `>`,
/// a space and the time.
///
/// Returns `Header(Unspellable)`, and writes nothing, if name or email has `<`, `>` or a line feed,
/// or the offset isn't whole minutes below 100 hours. A writer that fails has taken a beginning of
/// the line.
pub fn write_actor_parts<W: io::Write>(
    name: &[u8],
    email: &[u8],
    time: Time,
    out: &mut W,
) -> Result<(), Error>
    ensures written { WritesLine (IsSpellable name.now email.now time) (W.contents out.old)
        (W.contents out.new) (actor_text name.now email.now time) result }
    ensures spelled { OnOk result (IsReadBack name.now email.now time) }
    ensures unchanged { IsErrOf result (Header Unspellable) → out.new ≡ out.old }
{
    let Some(offset) = spell_offset(time.offset) else {
        return Err(Error::Header(encode::Error::Unspellable));
    };
    if !is_plain(name) {
        return Err(Error::Header(encode::Error::Unspellable));
    }
    if !is_plain(email) {
        return Err(Error::Header(encode::Error::Unspellable));
    }
    let mut digits = itoa::Buffer::new();
    let seconds = digits.format(time.seconds).as_bytes();
    let parts = [name, b" <", email, b"> ", seconds, b" ", &offset];
    if let Err(error) = write_parts(out, &parts) {
        return Err(Error::Writer(error));
    }
    Ok(())
}

// Returns whether a name or an email may be written: it holds no `<`, `>` or line feed.
fn is_plain(part: &[u8]) -> bool
    ensures { IsTrue result ↔ IsPlain part.now }
{
    if !lacks(part, b'<') {
        return false;
    }
    if !lacks(part, b'>') {
        return false;
    }
    lacks(part, b'\n')
}
