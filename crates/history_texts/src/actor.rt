//! Actors, `Name <email> seconds offset`: made, written and parsed; which names, emails and times they may have.
ghost use Rattle.std.specs.Prelude.{◌≡◌, ◌≤◌, ℕ, [], ◌∷◌, decimal, IsTrue, IsFalse, MatchOption, ◌≢◌, ◌↔◌};
ghost use Rattle.std.specs.List.{list_any};
ghost use Rattle.history_model.specs.Bytes.{has_byte};
ghost use Rattle.history_model.specs.Forms.{is_actor_part, is_offset, max_seconds};
ghost use Rattle.history_texts.specs.Actors.{IsFormed, IsNoTime, IsOffsetOf, IsPlainTime, IsSecondsOf, IsTimeOf};

use gix_object_lines::ByteString;
use gix_object_lines::cut::split_once;
use gix_object_lines::decimal::read_unsigned;
use gix_object_lines::lines::{self, ActorRef, Time, read_actor, read_time, write_actor_parts};
use history_model::limits::{MAX_ACTOR_PART, MAX_SECONDS};
use std::alloc::{AllocError, Global};

/// The author or committer of a commit, or whoever moved a name. A name isn't empty; neither it nor
/// the email begins or ends with a space, has more than 512 bytes or holds `<`, `>`, a zero byte, a
/// tab or an end of line. The time is since 1970, its offset whole minutes below 100 hours.
#[derive(Drop)]
pub struct Actor {
    pub name: Vec<u8>,
    pub email: Vec<u8>,
    pub time: Time,
    pub ghost formed: { IsFormed name.items email.items time },
}

impl Actor {
    ghost use Rattle.std.specs.Prelude.{◌++◌, IfOk, OnOk};
    ghost use Rattle.history_model.specs.Forms.{is_actor};
    ghost use Rattle.history_model.specs.Objects.{actor_text};
    ghost use Rattle.history_model.specs.Objects as model;
    ghost use Rattle.history_texts.specs.Actors.{HasActorForm, plain_actor};
    ghost use Rattle.history_texts.specs.Formats.{actor_of, own_actor, person_of};
    ghost use Rattle.gix_object_lines.specs.Person as lines;

    /// Returns the actor of these parts; `None` if one of them is against the written form or its
    /// limit.
    pub fn new(name: Vec<u8>, email: Vec<u8>, time: Time) -> Option<Actor>
        ensures { MatchOption result (¬ IsFormed name.items email.items time)
            (λ actor. actor_of actor ≡ plain_actor name.items email.items time) }
    {
        if name.is_empty() || !is_actor_part(&name) || !is_actor_part(&email) || !is_plain(time) {
            return None;
        }
        Some(Actor { name, email, time })
    }

    /// Returns an actor with the same values.
    pub fn try_clone(&self) -> Result<Actor, AllocError>
        ensures { IfOk result (λ copy. actor_of copy ≡ actor_of self.now) }
    {
        Ok(Actor {
            name: self.name.clone()?,
            email: self.email.clone()?,
            time: self.time,
        })
    }

    /// Appends the actor's text.
    pub fn write_to(&self, out: &mut Vec<u8>) -> Result<(), AllocError>
        ensures { OnOk result (out.new.items ≡ out.old.items ++ actor_text (actor_of self.now)) }
    {
        // Each actor can be written, so only memory can be missing.
        write_actor_parts(&self.name, &self.email, self.time, out).map_err(|_| AllocError)
    }

    /// Returns the actor as a commit holds it. It takes no memory.
    pub(crate) fn into_own(self) -> lines::Actor
        ensures told { own_actor result ≡ actor_of self }
        ensures formed { HasActorForm result }
    {
        lines::Actor {
            name: ByteString::new(self.name),
            email: ByteString::new(self.email),
            time: self.time,
        }
    }

    /// Returns the actor that a text spells; `None` if it spells none. The seconds are a decimal
    /// number without a leading zero, at most 9,223,372,036,854,775,807, the minutes are below 60,
    /// and `-0000` is no offset.
    pub fn parse(alloc: Global, text: &[u8]) -> Result<Option<Actor>, AllocError>
        ensures { IfOk result (λ found. MatchOption found
            ((actor : model.Actor) → IsTrue (is_actor actor) → text.now ≢ actor_text actor)
            (λ actor. (text.now ≡ actor_text (actor_of actor))
            × IsTrue (is_actor (actor_of actor)))) }
    {
        match read_actor(text) {
            Ok(parts) => Actor::from_ref(alloc, parts),
            Err(_) => Ok(None),
        }
    }

    /// Returns the actor of these parts of a line; `None` if they are none's, by the rules of
    /// `parse`.
    pub(crate) fn from_ref(alloc: Global, parts: ActorRef<'_>) -> Result<Option<Actor>, AllocError>
        ensures { IfOk result (λ found. MatchOption found
            ((actor : model.Actor) → IsTrue (is_actor actor)
            → lines.person_of parts.entry ≢ person_of actor)
            (λ actor. (lines.person_of parts.entry ≡ person_of (actor_of actor))
            × IsTrue (is_actor (actor_of actor)))) }
    {
        let Some((seconds, offset)) = split_once(parts.time.as_bytes(), b' ') else {
            return Ok(None);
        };
        let Some(time) = parse_time(seconds, offset) else {
            return Ok(None);
        };
        let name = Vec::from_slice(alloc, parts.name.as_bytes())?;
        let email = Vec::from_slice(alloc, parts.email.as_bytes())?;
        Ok(Actor::new(name, email, time))
    }
}

/// Returns whether this may be an actor's email or, if it isn't empty, a name.
pub fn is_actor_part(part: &[u8]) -> bool
    ensures { result ≡ is_actor_part part.now }
{
    if holds_barred(part) {
        return false;
    }
    if part.starts_with(b" ") {
        return false;
    }
    if part.ends_with(b" ") {
        return false;
    }
    part.len() <= MAX_ACTOR_PART
}

// Returns whether it has a byte that no name and no email has.
fn holds_barred(part: &[u8]) -> bool
    ensures { result ≡ list_any (λ byte. has_byte byte (60 ∷ 62 ∷ 0 ∷ 9 ∷ 13 ∷ 10 ∷ [])) part.now }
{
    part.iter().any(|byte| is_barred(*byte))
}

// Returns whether neither a name nor an email has this byte.
fn is_barred(byte: u8) -> bool
    ensures { result ≡ has_byte byte (60 ∷ 62 ∷ 0 ∷ 9 ∷ 13 ∷ 10 ∷ []) }
{
    matches!(byte, b'<' | b'>' | 0 | b'\t' | b'\r' | b'\n')
}

// Returns whether an actor may have this time.
fn is_plain(time: Time) -> bool
    ensures { IsTrue result ↔ IsPlainTime time }
{
    time.seconds >= 0 && time.offset % 60 == 0 && time.offset.unsigned_abs() < 360_000
}

/// Returns the time that two words spell: the seconds as a decimal number without a leading zero,
/// at most 9,223,372,036,854,775,807, and the offset as a sign and four digits, the last two below
/// 60, but not `-0000`. `None` if one of them doesn't spell it.
pub fn parse_time(seconds: &[u8], offset: &[u8]) -> Option<Time>
    ensures { MatchOption result (IsNoTime seconds.now offset.now)
        (IsTimeOf seconds.now offset.now) }
{
    let seconds = parse_seconds(seconds)?;
    let offset = parse_offset(offset)?;
    Some(Time { seconds, offset })
}

// Returns the number that the word is in decimal, without a leading zero and within the limit.
fn parse_seconds(word: &[u8]) -> Option<i64>
    ensures { MatchOption result
        ((seconds : ℕ) → seconds ≤ max_seconds → word.now ≢ decimal seconds)
        (λ seconds. IsSecondsOf word.now seconds) }
{
    let seconds = read_unsigned(word)?;
    if seconds <= MAX_SECONDS {
        Some(seconds as i64)
    } else {
        None
    }
}

// Returns the seconds of a sign and four digits, the last two below 60, but not `-0000`.
fn parse_offset(word: &[u8]) -> Option<i32>
    ensures { MatchOption result (IsFalse (is_offset word.now))
        (λ offset. IsOffsetOf word.now offset) }
{
    let &[sign, a, b, c, d] = word else {
        return None;
    };
    if c >= b'6' || word == b"-0000".as_slice() {
        return None;
    }
    // Git accepts more, such as 60 minutes.
    let time = read_time(&[b'0', b' ', sign, a, b, c, d]).ok()?;
    Some(time.offset)
}
