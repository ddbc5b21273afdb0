//! The buffer over a source: bytes read and not yet taken, the end of its first line, and a count of readings.

ghost use Rattle.std.specs.Prelude.{◌≡◌, ◌≢◌, ◌-◌, ◌^◌, ◌+◌, ◌<◌, ◌≤◌, ◌⊎◌, true, [], length, take, drop, IfOk, OnErr, IfSome, IfNone};
ghost use Rattle.std.specs.Bool.{MatchBool};
ghost use Rattle.std.specs.Io.KnownBytes.{IsAtEnd};
ghost use Rattle.history_model.specs.Spelling.{max_line};
ghost use Rattle.history_word.specs.Held.{room, held, IsUnbroken, IsLineOf};

use crate::streams::{Broken, Source};
use history_model::limits::MAX_LINE;
use memchr::memchr;

/// How many bytes a buffer has room for.
const ROOM: usize = 8_192;

/// Returns the count of readings after this one, which gave so many bytes. A reading that gave none
/// isn't counted, since it ends a run; but the last that a `u64` counts is, whatever it gave.
fn readings_after(before: u64, reading: u64, count: usize) -> u64
    ensures gave { 0 < count → result ≡ reading }
    ensures idle { count ≡ 0 → reading ≢ 2 ^ 64 - 1 → result ≡ before }
    ensures last { reading ≡ 2 ^ 64 - 1 → result ≡ reading }
{
    if count > 0 || reading == u64::MAX {
        reading
    } else {
        before
    }
}

/// Bytes that were read from a source and not taken yet.
#[derive(Drop)]
pub struct Buffer {
    bytes: [u8; ROOM],
    start: usize,
    end: usize,
    /// How many of the unread bytes were searched and have no line feed.
    scanned: usize,
    /// How many readings gave a byte; and the last that a `u64` counts, whatever it gave.
    readings: u64,
    ghost ordered: { start + scanned ≤ end },
    ghost within: { end ≤ room },
    ghost sized: { length bytes ≡ room },
    ghost unbroken: { IsUnbroken (take scanned (held start end bytes)) },
}

impl Buffer {
    ghost use Rattle.history_word.specs.Buffer.{unread, readings_made, work};
    ghost use Rattle.history_word.specs.Taking.{Took, IsLast};

    /// Returns an empty buffer, through which no reading was made.
    pub fn new() -> Self
        ensures empty { unread result ≡ [] }
        ensures fresh { readings_made result ≡ 0 }
    {
        Buffer {
            bytes: [0; ROOM],
            start: 0,
            end: 0,
            scanned: 0,
            readings: 0,
        }
    }

    /// Returns the bytes that were read and not taken yet.
    pub(crate) fn unread(&self) -> &[u8]
        ensures { result.now ≡ unread self.now }
    {
        &self.bytes[self.start..self.end]
    }

    /// Takes so many of the bytes that were read.
    pub(crate) fn skip(&mut self, count: usize)
        requires { count ≤ length (unread self.old) }
        ensures rest { unread self.new ≡ drop count (unread self.old) }
        ensures readings { readings_made self.new ≡ readings_made self.old }
        ensures work { work self.new + count ≡ work self.old }
    {
        self.start += count;
        self.scanned = 0;
    }

    /// Makes room after the unread bytes, unless they fill the buffer.
    fn make_room(&mut self)
        ensures same { unread self.new ≡ unread self.old }
        ensures size { self.new.end - self.new.start ≡ self.old.end - self.old.start }
        ensures room { self.new.end - self.new.start < room → self.new.end < room }
        ensures readings { readings_made self.new ≡ readings_made self.old }
    {
        if self.start == self.end || self.end == ROOM {
            self.bytes.copy_within(self.start..self.end, 0);
            self.end -= self.start;
            self.start = 0;
        }
    }

    /// Returns the length of the first line, without its line feed, if that line is whole and
    /// within the limit. No byte is searched twice, however few come at a time.
    pub(crate) fn line(&mut self) -> Option<usize>
        ensures found { IfSome result (λ n. IsLineOf n (unread self.new)) }
        ensures none { IfNone result (IsUnbroken (take (max_line + 1) (unread self.new))) }
        ensures same { unread self.new ≡ unread self.old }
        ensures readings { readings_made self.new ≡ readings_made self.old }
        ensures work { work self.new ≡ work self.old }
    {
        let known = self.scanned;
        let looked = self.unread().len().min(MAX_LINE + 1);
        if looked <= known {
            return None;
        }
        match memchr(b'\n', &self.unread()[known..looked]) {
            Some(at) => Some(known + at),
            None => {
                self.scanned = looked;
                None
            }
        }
    }

    /// Reads once more. Returns `false` at the end of the source, and `Broken` if the source has
    /// failed or the last reading that a `u64` counts was made.
    pub(crate) fn fill<R: Source>(&mut self, source: &mut R) -> Result<bool, Broken>
        requires { length (unread self.old) < room }
        ensures took { Took R.left R.readings source.old self.old source.new self.new [] }
        ensures ok { IfOk result (λ is_more. MatchBool is_more
            (length (unread self.old) < length (unread self.new))
            (IsAtEnd (R.left source.new) × (unread self.new ≡ unread self.old))) }
        ensures err { OnErr result (((R.has_failed source.new ≡ true)
            × (unread self.new ≡ unread self.old)) ⊎ IsLast self.new) }
        ensures once { readings_made self.new ≤ readings_made self.old + 1 }
    {
        let Some(readings) = self.readings.checked_add(1) else {
            return Err(Broken);
        };
        self.make_room();
        let end = self.end;
        let count = source.read(&mut self.bytes[end..])?;
        self.end += count;
        self.readings = readings_after(self.readings, readings, count);
        if readings == u64::MAX {
            return Err(Broken);
        }
        Ok(count > 0)
    }

    /// Returns whether a byte follows. Reads at most once, and only if the buffer is empty.
    ///
    /// Returns `Broken` if the source has failed, and at the 18,446,744,073,709,551,615th reading
    /// through this buffer.
    pub fn has_more<R: Source>(&mut self, source: &mut R) -> Result<bool, Broken>
        ensures took { Took R.left R.readings source.old self.old source.new self.new [] }
        ensures ok { IfOk result (λ is_more. MatchBool is_more
            (0 < length (unread self.new))
            ((unread self.new ≡ []) × IsAtEnd (R.left source.new))) }
        ensures err { OnErr result (((R.has_failed source.new ≡ true) × (unread self.new ≡ []))
            ⊎ IsLast self.new) }
        ensures idle { 0 < length (unread self.old)
            → (source.new ≡ source.old) × (self.new ≡ self.old) }
        ensures once { readings_made self.new ≤ readings_made self.old + 1 }
    {
        if !self.unread().is_empty() {
            return Ok(true);
        }
        self.fill(source)
    }
}
