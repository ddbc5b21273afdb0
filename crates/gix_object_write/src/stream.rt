//! Contents that are read from streams.

ghost use Rattle.std.specs.Prelude.{◌≡◌, ◌<◌, ◌≤◌, [], length, IfOk, IfErr};
ghost use Rattle.std.specs.Io.{ReadsAtMost};
ghost use Rattle.std.specs.Io.KnownBytes.{Consumes, ReadConsumes};
ghost use Rattle.gix_object_write.specs.Streams.{IsNext, UnreadFault};
ghost use Rattle.gix_object_write.specs.declared.write.Error.TheVariants.{Read};

use crate::write::Error;
use std::alloc::Global;
use std::io;

// The most bytes that one read may return.
const PIECE_LEN: u64 = 4_096;

/// The stream's next bytes, as many as this. Returns `Read` if the stream fails or ends before, and
/// `Memory` if no memory is left for what it gave.
pub(crate) fn read_content<R: io::Read>(
    alloc: Global,
    from: &mut R,
    size: u64,
) -> Result<Vec<u8>, Error>
    ensures read { IfOk result
        (λ content. IsNext (R.remaining from.old) (R.remaining from.new) size content.items) }
    ensures refused { IfErr result
        (UnreadFault (R.remaining from.old) (R.remaining from.new) size) }
{
    let mut content = Vec::new(alloc);
    let mut piece = [0u8; 4_096];
    let mut left = size;
    'pieces: while left > 0 {
        let wanted = left.min(PIECE_LEN) as usize;
        let bytes = read_piece(from, &mut piece, wanted)?;
        content.extend_from_slice(bytes)?;
        left -= bytes.len() as u64;
    }
    Ok(content)
}

// Some of the stream's next bytes, at least one, and at most so many.
fn read_piece<'p, R: io::Read>(
    from: &mut R,
    piece: &'p mut [u8],
    wanted: usize,
) -> Result<&'p [u8], Error>
    requires { wanted ≤ length piece.old }
    ensures some { IfOk result (λ bytes. (0 < length bytes.now) × (length bytes.now ≤ wanted)
        × Consumes (R.remaining from.old) (R.remaining from.new) bytes.now) }
    ensures none { IfErr result
        (λ error. (error ≡ Read) × Consumes (R.remaining from.old) (R.remaining from.new) []) }
{
    let piece = &mut piece[..wanted];
    match read_some(from, piece) {
        Ok(0) => Err(Error::Read),
        Ok(count) => Ok(&piece[..count]),
        Err(_) => Err(Error::Read),
    }
}

// One read, tried again if a signal interrupted it.
fn read_some<R: io::Read>(from: &mut R, buffer: &mut [u8]) -> io::Result<usize>
    ensures bound { ReadsAtMost result buffer.new }
    ensures bytes { ReadConsumes (R.remaining from.old) (R.remaining from.new) result buffer.new }
{
    'tries: for _ in 0..u64::MAX {
        match from.read(buffer) {
            Ok(count) => return Ok(count),
            Err(error) => {
                if error.kind() != io::ErrorKind::Interrupted {
                    return Err(error);
                }
            }
        }
    }
    Err(io::Error::from(io::ErrorKind::Interrupted))
}
