//! `Forward`: the lines of a log from its beginning, cut at line feeds, one after the other.

ghost use Rattle.std.specs.Prelude.{◌≡◌, ◌∷◌};
ghost use Rattle.std.specs.List.{slice_split};
ghost use Rattle.std.specs.Option.{option_map};
ghost use Rattle.std.specs.Iterator.{item_count};
ghost use Rattle.gix_ref_log.specs.LogForward.{GivesLine, lines_of, lines_left, lines_of_rest};
ghost use Rattle.gix_ref_log.specs.LogLine.{is_feed};

use crate::LineRef;
use crate::iter::decode;
use crate::iter::decode::LineNumber;
use crate::line::decode::read_line;
use gix_object_lines::cut::split_once;

/// The lines of a log, the first first.
#[derive(Debug, Clone, Copy)]
pub struct Forward<'a> {
    // `None` if no line is left.
    pub(crate) rest: Option<&'a [u8]>,
    pub(crate) given: usize,
}

impl<'a> Iterator for Forward<'a> {
    type Item = Result<LineRef<'a>, decode::Error>;

    ghost next_gives = { λ before item after. GivesLine (lines_of before) item (lines_of after) };

    ghost remaining = { item_count lines_left };

    fn next(&mut self) -> Option<Result<LineRef<'a>, decode::Error>> {
        let text = self.rest?;
        let (line, rest) = first_line(text);
        self.rest = rest;
        self.given = self.given.saturating_add(1);
        match read_line(line) {
            Some(read) => Some(Ok(read)),
            None => Some(Err(decode::Error {
                line: LineNumber::FromStart(self.given),
            })),
        }
    }
}

// What comes before the first line feed, and what follows it; all of it, and `None`, if it has
// none.
fn first_line(text: &[u8]) -> (&[u8], Option<&[u8]>)
    ensures { slice_split is_feed text.now
        ≡ result.0.now ∷ lines_of_rest (option_map (λ rest. rest.now) result.1) }
{
    match split_once(text, b'\n') {
        Some((line, rest)) => (line, Some(rest)),
        None => (text, None),
    }
}
