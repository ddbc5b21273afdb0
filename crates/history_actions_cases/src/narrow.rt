//! A sink that fails.
ghost use Rattle.std.specs.Prelude.{None};

use history::{Broken, Sink};
use std::alloc::Global;

/// Takes one byte a call, so many in all, and then fails.
#[derive(Drop)]
pub struct Narrow {
    taken: Vec<u8>,
    room: usize,
    is_broken: bool,
}

impl Narrow {
    /// Returns a sink that takes so many bytes.
    pub fn new(alloc: Global, room: usize) -> Narrow {
        Narrow {
            taken: Vec::new(alloc),
            room,
            is_broken: false,
        }
    }

    /// Returns what it has taken.
    pub fn taken(&self) -> &[u8] {
        &self.taken
    }
}

impl Sink for Narrow {
    ghost contents = { λ _. None };

    ghost has_failed = { λ sink. sink.is_broken };

    fn write(&mut self, bytes: &[u8]) -> Result<usize, Broken> {
        if self.is_broken || self.room == 0 {
            self.is_broken = true;
            return Err(Broken);
        }
        let Some(first) = bytes.first() else {
            return Ok(0);
        };
        if self.taken.push(*first).is_err() {
            self.is_broken = true;
            return Err(Broken);
        }
        self.room -= 1;
        Ok(1)
    }
}
