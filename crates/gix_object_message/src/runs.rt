//! Runs of paragraphs with and without trailers.

ghost use Rattle.gix_object_message.specs.Steps.{IsBehindRun, IsRun};

use crate::paragraph::{is_trailer_paragraph, split_paragraph};

/// The run of trailer paragraphs, or of others, that comes first, perhaps empty, and what follows.
pub(crate) fn split_run(text: &[u8], trailers: bool) -> (&[u8], &[u8])
    ensures { IsRun trailers text.now result.0.now result.1.now }
{
    let rest = behind_run(text, trailers);
    text.split_at(text.len() - rest.len())
}

// What follows the run of trailer paragraphs, or of others, that comes first.
fn behind_run(text: &[u8], trailers: bool) -> &[u8]
    ensures { IsBehindRun trailers text.now result.now }
{
    let mut rest = text;
    while let Some((paragraph, behind)) = split_paragraph(rest) {
        if is_trailer_paragraph(paragraph) != trailers {
            break;
        }
        rest = behind;
    }
    rest
}
