//! The paragraphs of a body.

ghost use Rattle.std.specs.Prelude.{◌≡◌, ◌++◌, [], ◌∷◌, ◌+◌, length, ◌<◌, MatchOption};
ghost use Rattle.gix_object_message.specs.Paragraphs.{paragraphs_of, is_trailer_paragraph};
ghost use Rattle.gix_object_message.specs.Paragraphs as spec;
ghost use Rattle.gix_object_message.specs.Steps.{IsBehindParagraph};
ghost use Rattle.gix_object_message.specs.Lines.{lines_of};

use crate::lines::{is_empty_line, split_line};
use crate::trailer::read_trailer;

/// The first paragraph, with the empty lines after it, and what follows; `None` if nothing is left.
pub(crate) fn split_paragraph(text: &[u8]) -> Option<(&[u8], &[u8])>
    ensures { MatchOption result (text.now ≡ [])
        (λ cut. (text.now ≡ cut.0.now ++ cut.1.now) × (0 < length cut.0.now)
        × (paragraphs_of text.now ≡ cut.0.now ∷ paragraphs_of cut.1.now)) }
{
    if text.is_empty() {
        return None;
    }
    let rest = behind_paragraph(text);
    Some(text.split_at(text.len() - rest.len()))
}

// What follows the first paragraph.
fn behind_paragraph(text: &[u8]) -> &[u8]
    requires { 0 < length text.now }
    ensures { IsBehindParagraph text.now result.now }
{
    let mut rest = text;
    while let Some((line, behind)) = split_line(rest) {
        rest = behind;
        if is_empty_line(line) && !begins_empty(rest) {
            break;
        }
    }
    rest
}

// Returns whether an empty line comes first.
fn begins_empty(text: &[u8]) -> bool
    ensures { result ≡ spec.begins_empty (lines_of text.now) }
{
    match split_line(text) {
        Some((line, _)) => is_empty_line(line),
        None => false,
    }
}

/// Returns whether the first line of a paragraph is a trailer line.
pub(crate) fn is_trailer_paragraph(paragraph: &[u8]) -> bool
    ensures { result ≡ is_trailer_paragraph paragraph.now }
{
    match split_line(paragraph) {
        Some((line, _)) => read_trailer(line).is_some(),
        None => false,
    }
}
