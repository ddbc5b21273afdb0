//! The blocks of a body: text and the trailers that follow it.

use crate::runs::split_run;
use crate::trailers::Trailers;
use bstr::BStr;

/// A run of paragraphs without trailers, perhaps none, and the trailer paragraphs that follow,
/// perhaps none.
#[derive(Debug, Clone, Copy, PartialEq, Eq)]
pub struct MessageBlock<'a> {
    /// The paragraphs without trailers.
    pub message: BStr<'a>,
    /// The trailer paragraphs.
    pub trailer_bytes: BStr<'a>,
}

impl<'a> MessageBlock<'a> {
    ghost use Rattle.std.specs.Prelude.{◌≡◌};
    ghost use Rattle.bstr.specs.BStr.{bstr_bytes};
    ghost use Rattle.gix_object_message.specs.Trailer.{trailers_in};
    ghost use Rattle.gix_object_message.specs.Views.{trailers_left};

    /// The trailers of the trailer paragraphs, in order.
    pub fn trailers(self) -> Trailers<'a>
        ensures { trailers_left result ≡ trailers_in (bstr_bytes self.entry.trailer_bytes) }
    {
        Trailers::new(self.trailer_bytes.as_bytes())
    }
}

/// The blocks of a body, in order.
#[derive(Debug, Clone, Copy)]
pub struct MessageBlocks<'a> {
    text: &'a [u8],
}

impl<'a> MessageBlocks<'a> {
    ghost use Rattle.std.specs.Prelude.{◌≡◌};
    ghost use Rattle.gix_object_message.specs.Blocks.{blocks_of};
    ghost use Rattle.gix_object_message.specs.BodyViews.{blocks_left};

    pub(crate) fn new(text: &'a [u8]) -> MessageBlocks<'a>
        ensures { blocks_left result ≡ blocks_of text.now }
    {
        MessageBlocks { text }
    }
}

impl<'a> Iterator for MessageBlocks<'a> {
    ghost use Rattle.std.specs.Iterator.{YieldsFirstBy, item_count};
    ghost use Rattle.gix_object_message.specs.BodyViews.{block_text, blocks_left};

    type Item = MessageBlock<'a>;

    ghost next_gives = { YieldsFirstBy block_text blocks_left };

    ghost remaining = { item_count blocks_left };

    fn next(&mut self) -> Option<MessageBlock<'a>> {
        let (block, rest) = MessageBlock::split(self.text)?;
        self.text = rest;
        Some(block)
    }
}

impl<'a> MessageBlock<'a> {
    ghost use Rattle.std.specs.Prelude.{◌≡◌, ◌∷◌, [], MatchOption};
    ghost use Rattle.gix_object_message.specs.Blocks.{blocks_of};
    ghost use Rattle.gix_object_message.specs.BodyViews.{block_text};

    // The first block, and what follows; `None` if nothing is left.
    fn split(text: &'a [u8]) -> Option<(MessageBlock<'a>, &'a [u8])>
        ensures { MatchOption result (text.now ≡ [])
            (λ cut. blocks_of text.now ≡ block_text cut.0 ∷ blocks_of cut.1.now) }
    {
        if text.is_empty() {
            return None;
        }
        let (message, behind) = split_run(text, false);
        let (trailers, rest) = split_run(behind, true);
        let block = MessageBlock {
            message: BStr::new(message),
            trailer_bytes: BStr::new(trailers),
        };
        Some((block, rest))
    }
}
