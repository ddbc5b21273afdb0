//! A source that gives one byte a reading, and fails once it has given so many.

ghost use Rattle.std.specs.Prelude.{None};

use history_word::{Broken, Source};

/// Gives one byte a reading, as long as there is one and it is good for one.
#[derive(Drop)]
pub struct Drops<'a> {
    rest: &'a [u8],
    good: usize,
    is_broken: bool,
    readings: u64,
}

impl<'a> Drops<'a> {
    /// Returns the source of these bytes, which fails after so many.
    pub fn new(rest: &'a [u8], good: usize) -> Drops<'a> {
        Drops {
            rest,
            good,
            is_broken: false,
            readings: 0,
        }
    }
}

impl Source for Drops<'_> {
    ghost left = { λ _. None };

    ghost has_failed = { λ source. source.is_broken };

    ghost readings = { λ source. source.readings };

    fn read(&mut self, buffer: &mut [u8]) -> Result<usize, Broken> {
        self.readings = self.readings.saturating_add(1);
        if self.good == 0 || self.is_broken {
            self.is_broken = true;
            return Err(Broken);
        }
        match self.rest.split_first() {
            Some((first, rest)) if !buffer.is_empty() => {
                buffer[0] = *first;
                self.rest = rest;
                self.good -= 1;
                Ok(1)
            }
            _ => Ok(0),
        }
    }
}
