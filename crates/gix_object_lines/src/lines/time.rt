//! Times: seconds since 1970 and how far local time is ahead.

ghost use Rattle.std.specs.Prelude.{◌≡◌, ◌↔◌, IsTrue, Ok, IfOk, IsErrOf, IsOkUnless, MatchOption, OnOk};
ghost use Rattle.gix_object_lines.specs.Time.{SpellsTime, IsSpellableOffset, time_text};
ghost use Rattle.gix_object_lines.specs.Actor.{TellsTime};
ghost use Rattle.gix_object_lines.specs.TimeTest as test;
ghost use Rattle.gix_object_lines.specs.declared.lines.time.Time.{Time};
ghost use Rattle.gix_object_lines.specs.LineWrites.{WritesLine};
ghost use Rattle.gix_object_lines.specs.declared.write.Error.TheVariants.{Header};
ghost use Rattle.gix_object_lines.specs.declared.decode.Error.TheVariants.{InvalidTime};
ghost use Rattle.gix_object_lines.specs.declared.encode.Error.TheVariants.{Unspellable};

use crate::cut::split_once;
use crate::lines::digits::{read_offset, read_seconds, spell_offset};
use crate::write::{Error, write_parts};
use crate::{decode, encode};
use std::io;

/// A moment, and the offset of the clock that showed it.
#[derive(Debug, Clone, Copy, PartialEq, Eq, PartialOrd, Ord, Hash)]
pub struct Time {
    /// The seconds since 1970-01-01 in coordinated universal time; negative before.
    pub seconds: i64,
    /// The seconds that local time is ahead of it.
    pub offset: i32,
}

/// The time that a text spells: seconds in decimal, perhaps after a `-`, one space, and the offset
/// as a sign, two digits of hours and two of minutes.
///
/// Leading zeros and `-0000` are read, and minutes of 60 and above: `+0060` is 3,600 seconds. Any
/// other text, also one of seconds beyond 64 bits, is `InvalidTime`.
pub fn read_time(text: &[u8]) -> Result<Time, decode::Error>
    ensures read { IfOk result (SpellsTime text.now) }
    ensures every { (time : Time) → SpellsTime text.now time → result ≡ Ok time }
    ensures refused { IsOkUnless result InvalidTime }
{
    parse(text).ok_or(decode::Error::InvalidTime)
}

/// Returns whether `read_time` reads the text as a time.
pub fn tells_time(text: &[u8]) -> bool
    ensures test { result ≡ test.tells_time text.now }
    ensures grammar { IsTrue result ↔ TellsTime text.now }
{
    read_time(text).is_ok()
}

fn parse(text: &[u8]) -> Option<Time>
    ensures { MatchOption result ((time : Time) → ¬ SpellsTime text.now time)
        (SpellsTime text.now) }
{
    let (front, back) = split_once(text, b' ')?;
    let seconds = read_seconds(front)?;
    let offset = read_offset(back)?;
    Some(Time { seconds, offset })
}

/// Appends the time's text: seconds without leading zeros, a space, and the offset with minutes
/// below 60, and with `+` if it is zero.
///
/// Returns `Header(Unspellable)`, and writes nothing, if the offset isn't whole minutes below 100
/// hours. A writer that fails has taken a beginning of the text.
pub fn write_time<W: io::Write>(time: Time, out: &mut W) -> Result<(), Error>
    ensures written { WritesLine (IsSpellableOffset time.offset) (W.contents out.old)
        (W.contents out.new) (time_text time) result }
    ensures spelled { OnOk result (SpellsTime (time_text time) time) }
    ensures unchanged { IsErrOf result (Header Unspellable) → out.new ≡ out.old }
{
    let Some(offset) = spell_offset(time.offset) else {
        return Err(Error::Header(encode::Error::Unspellable));
    };
    let mut digits = itoa::Buffer::new();
    let seconds = digits.format(time.seconds).as_bytes();
    if let Err(error) = write_parts(out, &[seconds, b" ", &offset]) {
        return Err(Error::Writer(error));
    }
    Ok(())
}
