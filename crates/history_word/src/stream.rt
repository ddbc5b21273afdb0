//! A reader and a writer of the standard library as source and sink.

ghost use Rattle.std.specs.Prelude.{◌≡◌, false};

use crate::streams::{Broken, Sink, Source};
use std::io::{Read, Write};

/// A reader or a writer of std. It fails at the first error, an interrupted call included, and if a
/// writer takes none of some bytes.
#[derive(Drop)]
pub struct Stream<T> {
    inner: T,
    is_broken: bool,
    readings: u64,
}

impl<T> Stream<T> {
    ghost use Rattle.history_word.specs.StdStream.{inner_of, is_broken, readings_of};

    /// Returns a stream over a std reader or writer; it hasn't failed.
    pub fn new(inner: T) -> Self
        ensures inner { inner_of result ≡ inner }
        ensures whole { is_broken result ≡ false }
        ensures readings { readings_of result ≡ 0 }
    {
        Stream {
            inner,
            is_broken: false,
            readings: 0,
        }
    }
}

impl<T: Read> Source for Stream<T> {
    ghost left = { λ source. T.remaining source.inner };

    ghost has_failed = { λ source. source.is_broken };

    ghost readings = { λ source. source.readings };

    fn read(&mut self, buffer: &mut [u8]) -> Result<usize, Broken> {
        self.readings = self.readings.saturating_add(1);
        if self.is_broken {
            return Err(Broken);
        }
        match self.inner.read(buffer) {
            Ok(count) => Ok(count),
            Err(_) => {
                self.is_broken = true;
                Err(Broken)
            }
        }
    }
}

impl<T: Write> Sink for Stream<T> {
    ghost contents = { λ sink. T.contents sink.inner };

    ghost has_failed = { λ sink. sink.is_broken };

    fn write(&mut self, bytes: &[u8]) -> Result<usize, Broken> {
        if self.is_broken {
            return Err(Broken);
        }
        match self.inner.write(bytes) {
            Ok(0) if !bytes.is_empty() => {
                self.is_broken = true;
                Err(Broken)
            }
            Ok(count) => Ok(count),
            Err(_) => {
                self.is_broken = true;
                Err(Broken)
            }
        }
    }
}
