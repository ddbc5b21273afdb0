//! Reading a line of a log (`LineRef::from_bytes`): its line feed goes, and it is cut into ids, actor and message.

ghost use Rattle.std.specs.Prelude.{◌≡◌, ◌≤◌, ℕ, List, length, IfOk, IsOkAnd, MatchOption};
ghost use Rattle.gix_object_lines.specs.Bytes.{without_last_feed};
ghost use Rattle.gix_ref_log.specs.LogLine.{LineParts, SpellsLine, IsNoLine};
ghost use Rattle.gix_ref_log.specs.LogCuts.{IsIdsCut, IsMessageCut};
ghost use Rattle.gix_ref_log.specs.LogViews.{parts_of};

use crate::LineRef;
use bstr::BStr;
use gix_object_lines::cut::{lacks, split_once};
use gix_object_lines::hex_line::is_id;
use gix_object_lines::lines::read_actor;

/// Why a text is no line of a log: it isn't two ids' hexadecimal digits, an actor and a time, with
/// one space between, and then nothing or a tab and a message in the line.
#[derive(Debug, Clone, Copy, PartialEq, Eq, thiserror::Error)]
#[error("the text is no line of a reference's log")]
pub struct Error;

impl<'a> LineRef<'a> {
    /// The line that a text spells, with or without the line feed that ends it: the id before the
    /// update, the id after it, who made it and when, and, after the first tab, the message. A line
    /// without a tab has the empty message.
    ///
    /// The ids are 40 or 64 hexadecimal digits, in any letter case. A carriage return is a byte of
    /// the message like any other. All else is an error, as is a line feed before the end.
    pub fn from_bytes(input: &'a [u8]) -> Result<LineRef<'a>, Error>
        ensures read { IfOk result
            (λ line. SpellsLine (without_last_feed input.now) (parts_of line)) }
        ensures every { (parts : LineParts) → SpellsLine (without_last_feed input.now) parts
            → IsOkAnd result (λ line. parts_of line ≡ parts) }
    {
        read_line(without_feed(input)).ok_or(Error)
    }
}

/// The text without the line feed that ends it, if one does.
pub(crate) fn without_feed(input: &[u8]) -> &[u8]
    ensures bytes { result.now ≡ without_last_feed input.now }
    ensures shorter { length result.now ≤ length input.now }
{
    if input.ends_with(b"\n") {
        &input[..input.len() - 1]
    } else {
        input
    }
}

/// The line that a text without its line feed spells.
pub(crate) fn read_line(line: &[u8]) -> Option<LineRef<'_>>
    ensures { MatchOption result (IsNoLine line.now) (λ read. SpellsLine line.now (parts_of read)) }
{
    let (front, message) = cut_message(line);
    if !lacks(message, b'\n') {
        return None;
    }
    let (previous_oid, new_oid, actor) = cut_ids(front)?;
    let signature = read_actor(actor).ok()?;
    Some(LineRef {
        previous_oid: BStr::new(previous_oid),
        new_oid: BStr::new(new_oid),
        signature,
        message: BStr::new(message),
    })
}

// What comes before the first tab, and after it: the whole line and nothing, if it has none.
fn cut_message(line: &[u8]) -> (&[u8], &[u8])
    ensures { IsMessageCut line.now result.0.now result.1.now }
{
    match split_once(line, b'\t') {
        Some(cut) => cut,
        None => (line, &line[..0]),
    }
}

// The digits of two ids with a space after each, and what follows.
fn cut_ids(front: &[u8]) -> Option<(&[u8], &[u8], &[u8])>
    ensures { MatchOption result
        ((before after actor : List ℕ) → ¬ IsIdsCut front.now before after actor)
        (λ cut. IsIdsCut front.now cut.0.now cut.1.now cut.2.now) }
{
    let (before, rest) = split_once(front, b' ')?;
    let (after, actor) = split_once(rest, b' ')?;
    if is_id(before) && is_id(after) {
        Some((before, after, actor))
    } else {
        None
    }
}
