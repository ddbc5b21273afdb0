//! `Reverse`: the lines of a log from its end, one after the other.

ghost use Rattle.std.specs.Prelude.{◌≡◌, ◌≤◌, ◌+◌, true, false, List, ℕ, length, if◌then◌else◌, Some};
ghost use Rattle.std.specs.Iterator.{at_most};

use crate::Line;
use crate::iter::decode;
use crate::iter::decode::LineNumber;
use crate::iter::error::Error;
use crate::iter::owning::read_last;
use crate::iter::reader::ReadAt;
use std::alloc::Global;

/// The lines of a log, the last first.
#[derive(Debug, Drop)]
pub struct Reverse<'a, R> {
    pub(crate) alloc: Global,
    pub(crate) log: R,
    pub(crate) buffer: &'a mut [u8],
    pub(crate) held: usize,
    pub(crate) end: u64,
    pub(crate) is_done: bool,
    pub(crate) given: usize,
    ghost within: { held ≤ length buffer.now },
    ghost ordered: { held ≤ end },
}

impl<R: ReadAt + Drop> Reverse<'_, R> {
    ghost use Rattle.gix_ref_log.specs.LogBackward.{EndsWalk, GivesBack, IsAt, IsNearer};

    // The line before the last that was given.
    fn take_line(&mut self) -> Result<Line, Error>
        requires { self.old.is_done ≡ false }
        ensures log { self.new.log ≡ self.old.log }
        ensures given { self.new.given ≡ self.old.given }
        ensures room { length self.new.buffer.now ≡ length self.old.buffer.now }
        ensures nearer { IsNearer self.old.end self.new.is_done self.new.end }
        ensures ends { EndsWalk (Some result) → self.new.is_done ≡ true }
        ensures told { (left : List (List ℕ)) → R.is_honest self.old.log
            → IsAt (R.contents self.old.log) self.old.is_done self.old.end self.old.held
            self.old.buffer.now left
            → (after : List (List ℕ))
            × IsAt (R.contents self.new.log) self.new.is_done self.new.end self.new.held
            self.new.buffer.now after
            × GivesBack (length self.old.buffer.now) R.may_fail R.gives_all self.old.given left
            (Some result) after }
    {
        self.is_done = true;
        let read = read_last(self.alloc, &self.log, self.end, self.held, self.buffer);
        let (start, held, line) = match read {
            Ok(found) => found,
            Err(error) => return Err(error),
        };
        let line = line.ok_or(Error::Decode(decode::Error {
            line: LineNumber::FromEnd(self.given),
        }));
        if start == 0 {
            return line;
        }
        self.end -= (held - start + 1) as u64;
        self.held = start - 1;
        self.is_done = false;
        line
    }
}

impl<R: ReadAt + Drop> Iterator for Reverse<'_, R> {
    ghost use Rattle.gix_ref_log.specs.LogBackward.{GivesNext};
    ghost use Rattle.gix_ref_log.specs.LogReverse.{stand_of};

    type Item = Result<Line, Error>;

    ghost next_gives = { λ before item after. (after.log ≡ before.log)
        × GivesNext (R.is_honest before.log) (R.contents before.log) R.may_fail R.gives_all
        (stand_of before) item (stand_of after) };

    ghost remaining = { λ reader. at_most (if reader.is_done then 0 else reader.end + 1) };

    fn next(&mut self) -> Option<Result<Line, Error>> {
        if self.is_done {
            return None;
        }
        self.given = self.given.saturating_add(1);
        Some(self.take_line())
    }
}
