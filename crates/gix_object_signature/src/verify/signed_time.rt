//! The time of signing, as the SSH program takes it.

ghost use Rattle.std.specs.Prelude.{ℤ, List, ℕ, ◌≡◌, ◌↔◌, ◌++◌, ◌<◌, IsTrue, codes, IfOk, IfErr, MatchOption, option_map};
ghost use Rattle.gix_object_signature.specs.SignedTime as spec;
ghost use Rattle.gix_object_signature.specs.SignedTime.{IsStamp, IsStampable, TellsNoTime, TellsSeconds, TimeWord};
ghost use Rattle.gix_object_signature.specs.declared.verify.Error.TheVariants.{CommitTime};

use crate::verify::Error;
use gix_object_lines::decimal::two_digits;
use gix_object_lines::lines::{read_actor, read_time};
use jiff_core::civil::DateTime;

// The last second of the year 9999.
const LAST: i64 = 253_402_300_799;

/// The word for the time of signing, of the committer or tagger in the header's lines; none if
/// there is no such line, or its time is zero seconds. Returns `CommitTime` if the line has no
/// time, or one before 1970 or after 9999.
pub(crate) fn time_word(content: &[u8]) -> Result<Option<[u8; 29]>, Error>
    ensures told { IfOk result (λ word. TimeWord content.now word) }
    ensures refused { IfErr result (λ error. (error ≡ CommitTime) × TellsNoTime content.now) }
{
    let Some(line) = signer_line(content) else {
        return Ok(None);
    };
    let Some(seconds) = seconds_of(line) else {
        return Err(Error::CommitTime);
    };
    if seconds == 0 {
        return Ok(None);
    }
    if !is_stampable(seconds) {
        return Err(Error::CommitTime);
    }
    Ok(Some(word(seconds)))
}

// The first line of a committer or tagger before an empty line.
fn signer_line(content: &[u8]) -> Option<&[u8]>
    ensures { option_map (λ line. line.now) result ≡ spec.signer_line content.now }
{
    content
        .split(|byte| *byte == b'\n')
        .take_while(|line| !line.is_empty())
        .find(|line| signer_of(line).is_some())
}

// What follows the word of such a line.
#[tactic(auto, unfolding(crate::specs::SignedTime::signer_of))]
fn signer_of(line: &[u8]) -> Option<&[u8]>
    ensures { option_map (λ signer. signer.now) result ≡ spec.signer_of line.now }
{
    if line.starts_with(b"committer ") {
        Some(&line[10..])
    } else if line.starts_with(b"tagger ") {
        Some(&line[7..])
    } else {
        None
    }
}

fn seconds_of(line: &[u8]) -> Option<i64>
    ensures { MatchOption result ((seconds : ℤ) → ¬ TellsSeconds line.now seconds)
        (λ seconds. TellsSeconds line.now seconds
        × ((other : ℤ) → TellsSeconds line.now other → other ≡ seconds)) }
{
    let signer = signer_of(line)?;
    let actor = read_actor(signer).ok()?;
    let time = read_time(actor.time.as_bytes()).ok()?;
    Some(time.seconds)
}

fn is_stampable(seconds: i64) -> bool
    ensures { IsTrue result ↔ IsStampable seconds }
{
    0 < seconds && seconds <= LAST
}

fn word(seconds: i64) -> [u8; 29]
    requires { IsStampable seconds }
    ensures { (text : List ℕ) × IsStamp text seconds × (result ≡ codes "-Overify-time=" ++ text) }
{
    let moment = DateTime::from_nanosecond_in_range(i128::from(seconds) * 1_000_000_000);
    let year = moment.date.year.unsigned_abs();
    let [a, b] = two_digits((year / 100) as u8);
    let [c, d] = two_digits((year % 100) as u8);
    let [e, f] = two_digits(moment.date.month);
    let [g, h] = two_digits(moment.date.day);
    let [i, j] = two_digits(moment.time.hour);
    let [k, l] = two_digits(moment.time.minute);
    let [m, n] = two_digits(moment.time.second);
    [
        b'-', b'O', b'v', b'e', b'r', b'i', b'f', b'y', b'-', b't', b'i', b'm', b'e', b'=', a, b,
        c, d, e, f, g, h, i, j, k, l, m, n, b'Z',
    ]
}
