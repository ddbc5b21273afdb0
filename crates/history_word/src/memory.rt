//! Bytes in memory as a source (`Bytes`), and a vector of what is written as a sink (`Collected`).

ghost use Rattle.std.specs.Prelude.{◌≡◌, Some, false, [], ◌≤◌, length, take, drop, min, IsOk, is_err};

use crate::streams::{Broken, Sink, Source};
use std::alloc::Global;

/// A slice, read from its front. It never fails.
#[derive(Drop)]
pub struct Bytes<'a> {
    rest: &'a [u8],
    readings: u64,
}

impl<'a> Bytes<'a> {
    /// Returns a source of these bytes.
    pub fn new(bytes: &'a [u8]) -> Self
        ensures left { ⟦<Bytes<'a> as Source>⟧.left result ≡ Some bytes.now }
        ensures readings { ⟦<Bytes<'a> as Source>⟧.readings result ≡ 0 }
    {
        Bytes {
            rest: bytes,
            readings: 0,
        }
    }
}

/// Copies as much of the front as there is room for, and returns how much.
fn copy_front(bytes: &[u8], buffer: &mut [u8]) -> usize
    ensures count { result ≡ min (length bytes.now) (length buffer.old) }
    ensures copied { take result buffer.new ≡ take result bytes.now }
{
    let count = bytes.len().min(buffer.len());
    buffer[..count].copy_from_slice(&bytes[..count]);
    count
}

impl<'a> Source for Bytes<'a> {
    ghost left = { λ source. Some source.rest.now };

    ghost has_failed = { λ _. false };

    ghost readings = { λ source. source.readings };

    fn read(&mut self, buffer: &mut [u8]) -> Result<usize, Broken> {
        self.readings = self.readings.saturating_add(1);
        let count = copy_front(self.rest, buffer);
        self.rest = &self.rest[count..];
        Ok(count)
    }
}

/// A vector that takes what is written to it. It fails only if it can't grow.
#[derive(Drop)]
pub struct Collected {
    bytes: Vec<u8>,
    is_broken: bool,
}

impl Collected {
    /// Returns a sink that has taken nothing yet.
    pub fn new(alloc: Global) -> Self
        ensures contents { ⟦<Collected as Sink>⟧.contents result ≡ Some [] }
        ensures whole { ⟦<Collected as Sink>⟧.has_failed result ≡ false }
    {
        Collected {
            bytes: Vec::new(alloc),
            is_broken: false,
        }
    }

    /// Returns what it has taken.
    pub fn as_slice(&self) -> &[u8]
        ensures { ⟦<Collected as Sink>⟧.contents self.now ≡ Some result.now }
    {
        self.bytes.as_slice()
    }
}

impl Sink for Collected {
    ghost contents = { λ sink. Some sink.bytes.items };

    ghost has_failed = { λ sink. sink.is_broken };

    fn write(&mut self, bytes: &[u8]) -> Result<usize, Broken> {
        if self.is_broken {
            return Err(Broken);
        }
        match self.bytes.extend_from_slice(bytes) {
            Ok(()) => Ok(bytes.len()),
            Err(_) => {
                self.is_broken = true;
                Err(Broken)
            }
        }
    }
}
