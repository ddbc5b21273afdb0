//! The traits of a source and a sink of bytes (`Source`, `Sink`), and the writing of all of some bytes.

ghost use Rattle.std.specs.Prelude.{◌≡◌, ℕ, List, Option, Bool, true, ◌<◌, length, IfOk, OnOk, OnErr, is_err};
ghost use Rattle.std.specs.Io.{ReadsAtMost, WritesAtMost};
ghost use Rattle.std.specs.Io.KnownBytes.{ReadConsumes, WriteAppends, Appends};
ghost use Rattle.gix_hash.specs.Writes.{AppendsFewer};
ghost use Rattle.gix_object_lines.specs.Counts.{one_more};

/// A source or a sink has failed, and fails from then on.
#[derive(Debug, Clone, Copy, PartialEq, Eq, thiserror::Error)]
#[error("the source or the sink has failed")]
pub struct Broken;

/// Where bytes come from.
pub trait Source {
    /// The bytes that readings will give from here on, if the source knows them.
    ghost left: { Self → Option (List ℕ) };

    /// Whether it has failed.
    ghost has_failed: { Self → Bool };

    /// How many readings were made, as far as a `u64` counts.
    ghost readings: { Self → ℕ };

    /// Reads into a beginning of the buffer, and returns how many bytes it put there: none, into a
    /// buffer with room, at the end of the source. Returns `Broken` exactly if the source has then
    /// failed.
    fn read(&mut self, buffer: &mut [u8]) -> Result<usize, Broken>
        ensures bound { ReadsAtMost result buffer.new }
        ensures bytes { ReadConsumes (left self.old) (left self.new) result buffer.new }
        ensures failed { is_err result ≡ has_failed self.new }
        ensures lasts { has_failed self.old ≡ true → has_failed self.new ≡ true }
        ensures counted { readings self.new ≡ one_more (readings self.old) };
}

/// Where bytes go.
pub trait Sink {
    /// The bytes that it has taken, if the sink knows them.
    ghost contents: { Self → Option (List ℕ) };

    /// Whether it has failed.
    ghost has_failed: { Self → Bool };

    /// Takes a beginning of the bytes, at least one byte if there is one, and returns how many it
    /// took. Returns `Broken` exactly if the sink has then failed.
    fn write(&mut self, bytes: &[u8]) -> Result<usize, Broken>
        ensures bound { WritesAtMost result bytes.now }
        ensures some { 0 < length bytes.now → IfOk result (λ count. 0 < count) }
        ensures bytes { WriteAppends (contents self.old) (contents self.new) result bytes.now }
        ensures failed { is_err result ≡ has_failed self.new }
        ensures lasts { has_failed self.old ≡ true → has_failed self.new ≡ true };
}

/// Writes all of the bytes. Returns `Broken` if the sink has failed, which has then taken fewer
/// than all of them.
pub fn write_all<W: Sink>(writer: &mut W, bytes: &[u8]) -> Result<(), Broken>
    ensures ok { OnOk result (Appends (W.contents writer.old) (W.contents writer.new) bytes.now) }
    ensures err { OnErr result ((W.has_failed writer.new ≡ true)
        × AppendsFewer (W.contents writer.old) (W.contents writer.new) bytes.now) }
{
    let mut done = 0;
    while done < bytes.len() {
        done += writer.write(&bytes[done..])?;
    }
    Ok(())
}
