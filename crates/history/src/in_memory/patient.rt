//! A reader that reads again after an interruption (`Patient`).
ghost use Rattle.std.specs.Prelude.{◌≢◌, IfErr};
ghost use Rattle.std.specs.Io.{ReadsAtMost};
ghost use Rattle.std.specs.Io.KnownBytes.{ReadConsumes};
ghost use Rattle.std.specs.IoError.{error_kind};

use std::io::{self, ErrorKind, Read};

/// A reader that reads again if a reading was interrupted, and returns each other error.
#[derive(Drop)]
pub struct Patient<T> {
    inner: T,
}

impl<T> Patient<T> {
    ghost use Rattle.std.specs.Prelude.{◌≡◌};
    ghost use Rattle.history.specs.Patience.{inner_of};

    /// Returns a reader that reads from this one.
    pub fn new(inner: T) -> Self
        ensures { inner_of result ≡ inner }
    {
        Patient { inner }
    }
}

impl<T: Read> Read for Patient<T> {
    ghost remaining = { λ reader. T.remaining reader.inner };

    fn read(&mut self, buf: &mut [u8]) -> io::Result<usize>
        ensures bound { ReadsAtMost result buf.new }
        ensures bytes { ReadConsumes (T.remaining self.old.inner) (T.remaining self.new.inner) result
            buf.new }
        ensures patient { IfErr result (λ error. error_kind error ≢ ErrorKind.Interrupted) }
    {
        for _ in 0..u64::MAX {
            match self.inner.read(buf) {
                Ok(count) => return Ok(count),
                Err(error) => {
                    if error.kind() != ErrorKind::Interrupted {
                        return Err(error);
                    }
                }
            }
        }
        Err(io::Error::other("interrupted without an end"))
    }
}
