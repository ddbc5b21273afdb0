//! Writing bytes to their end, or as far as the writer takes them.

ghost use Rattle.std.specs.Prelude.{OnOk, OnErr};
ghost use Rattle.std.specs.Io.{WritesAtMost};
ghost use Rattle.std.specs.Io.KnownBytes.{Appends, WriteAppends};
ghost use Rattle.gix_hash.specs.Writes.{AppendsFewer};

use std::io;

/// Writes all of the bytes. Returns the writer's error if it fails; it has then taken the first of
/// them, but not all. A write that a signal interrupted is tried again, and one that takes nothing
/// is the error `WriteZero`.
pub fn write_bytes<W: io::Write>(out: &mut W, bytes: &[u8]) -> io::Result<()>
    ensures written { OnOk result (Appends (W.contents out.old) (W.contents out.new) bytes.now) }
    ensures stopped { OnErr result
        (AppendsFewer (W.contents out.old) (W.contents out.new) bytes.now) }
{
    let mut count = 0;
    'writes: while count < bytes.len() {
        match write_some(out, &bytes[count..])? {
            0 => return Err(io::Error::from(io::ErrorKind::WriteZero)),
            written => count += written,
        }
    }
    Ok(())
}

// One write, tried again if a signal interrupted it.
fn write_some<W: io::Write>(out: &mut W, bytes: &[u8]) -> io::Result<usize>
    ensures bound { WritesAtMost result bytes.now }
    ensures bytes { WriteAppends (W.contents out.old) (W.contents out.new) result bytes.now }
{
    'tries: for _ in 0..u64::MAX {
        match out.write(bytes) {
            Ok(written) => return Ok(written),
            Err(error) => {
                if error.kind() != io::ErrorKind::Interrupted {
                    return Err(error);
                }
            }
        }
    }
    Err(io::Error::from(io::ErrorKind::Interrupted))
}
