//! The body of a message, and its trailers.

ghost use Rattle.std.specs.Prelude.{◌≡◌, ◌++◌, if◌then◌else◌};
ghost use Rattle.gix_object_message.specs.Paragraphs.{trailer_part};
ghost use Rattle.gix_object_message.specs.Steps.{IsLastParagraph};

use crate::blocks::MessageBlocks;
use crate::paragraph::{is_trailer_paragraph, split_paragraph};
use crate::trailers::Trailers;
use bstr::BStr;

/// The body of a message, split before its trailers.
#[derive(Debug, Clone, Copy, PartialEq, Eq)]
pub struct BodyRef<'a> {
    text: &'a [u8],
    without_trailer: &'a [u8],
    trailer: &'a [u8],
    pub ghost joined: { without_trailer.now ++ trailer.now ≡ text.now },
    pub ghost last: { trailer.now ≡ trailer_part text.now },
}

impl<'a> BodyRef<'a> {
    ghost use Rattle.std.specs.Prelude.{flat_map};
    ghost use Rattle.bstr.specs.BStr.{bstr_bytes};
    ghost use Rattle.gix_object_message.specs.Blocks.{blocks_of, block_bytes, AreBlocks};
    ghost use Rattle.gix_object_message.specs.Paragraphs.{paragraphs_of};
    ghost use Rattle.gix_object_message.specs.BodyViews.{body_text, blocks_left};
    ghost use Rattle.gix_object_message.specs.Trailer.{trailers_in};
    ghost use Rattle.gix_object_message.specs.Views.{trailers_left};

    /// The body that these bytes are. Its trailer part is its last paragraph if that begins with a
    /// trailer line, and otherwise empty.
    pub fn from_bytes(body: &'a [u8]) -> BodyRef<'a>
        ensures { body_text result ≡ body.now }
    {
        let (without_trailer, trailer) = split_trailer(body);
        BodyRef {
            text: body,
            without_trailer,
            trailer,
        }
    }

    /// All before the trailer part.
    pub fn without_trailer(self) -> BStr<'a>
        ensures { bstr_bytes result ++ trailer_part (body_text self.entry) ≡ body_text self.entry }
    {
        BStr::new(self.without_trailer)
    }

    /// All before the trailer part, as `without_trailer` returns it.
    pub fn as_ref(self) -> BStr<'a>
        ensures { bstr_bytes result ++ trailer_part (body_text self.entry) ≡ body_text self.entry }
    {
        self.without_trailer()
    }

    /// The trailers of the trailer part, in order.
    pub fn trailers(self) -> Trailers<'a>
        ensures { trailers_left result ≡ trailers_in (trailer_part (body_text self.entry)) }
    {
        Trailers::new(self.trailer)
    }

    /// The blocks of the whole body, in order: each a run of paragraphs without trailers, perhaps
    /// none, and the trailer paragraphs that follow. Their messages and trailer bytes, in order,
    /// are the body.
    pub fn message_blocks(self) -> MessageBlocks<'a>
        ensures blocks { blocks_left result ≡ blocks_of (body_text self.entry) }
        ensures parted { AreBlocks (paragraphs_of (body_text self.entry)) (blocks_left result) }
        ensures joined { flat_map block_bytes (blocks_left result) ≡ body_text self.entry }
    {
        MessageBlocks::new(self.text)
    }
}

// All before the trailer part, and it.
fn split_trailer(body: &[u8]) -> (&[u8], &[u8])
    ensures joined { result.0.now ++ result.1.now ≡ body.now }
    ensures last { result.1.now ≡ trailer_part body.now }
{
    let last = last_paragraph(body);
    if is_trailer_paragraph(last) {
        body.split_at(body.len() - last.len())
    } else {
        (body, &[])
    }
}

// The last paragraph; empty if there is none.
fn last_paragraph(body: &[u8]) -> &[u8]
    ensures { IsLastParagraph body.now result.now }
{
    let mut last = body;
    while let Some((_, rest)) = split_paragraph(last) {
        if rest.is_empty() {
            break;
        }
        last = rest;
    }
    last
}
