//! A message: its title and its body.

ghost use Rattle.std.specs.Prelude.{ℕ, List, ◌≡◌, IfOk, IsOkAnd};
ghost use Rattle.std.specs.Option.{option_map};
ghost use Rattle.std.specs.Cow.{cow_slice_items};
ghost use Rattle.bstr.specs.BStr.{bstr_bytes};
ghost use Rattle.gix_object_lines.specs.Bytes.{Lacks};
ghost use Rattle.gix_object_message.specs.BodyViews.{body_text};
ghost use Rattle.gix_object_message.specs.Borrowed.{IsBorrowed};
ghost use Rattle.gix_object_message.specs.Title.{title_of, body_of, summary_of, PartsMessage};
ghost use Rattle.gix_object_message.specs.Title as spec;
ghost use Rattle.gix_object_message.specs.White.{trim};

use crate::body::BodyRef;
use crate::summary::join_lines;
use crate::title::split_title;
use crate::white::trim;
use bstr::BStr;
use memchr::memchr;
use std::alloc::{AllocError, Global};
use std::borrow::CowSlice;

/// A message, split at its first empty line.
#[derive(Debug, Clone, Copy, PartialEq, Eq)]
pub struct MessageRef<'a> {
    /// All before the first empty line, without the line's end; all of the message if no line is
    /// empty.
    pub title: BStr<'a>,
    /// All after that empty line, if anything is.
    pub body: Option<BStr<'a>>,
}

impl<'a> MessageRef<'a> {
    /// Any bytes are a message. The title ends before the first LF LF or CR LF CR LF, and the body
    /// is what follows.
    pub fn from_bytes(message: &'a [u8]) -> MessageRef<'a>
        ensures title { bstr_bytes result.title ≡ title_of message.now }
        ensures body { option_map bstr_bytes result.body ≡ body_of message.now }
        ensures parted { (rest : List ℕ) × PartsMessage message.now (bstr_bytes result.title) rest
            × (option_map bstr_bytes result.body ≡ spec.some_text rest) }
    {
        let (title, rest) = split_title(message);
        MessageRef {
            title: BStr::new(title),
            body: some_text(rest),
        }
    }

    /// The title in one line: without white space at its ends, its lines each without white space
    /// at their end, and one space between them.
    ///
    /// A title of one line is borrowed. Otherwise the bytes take memory, and `AllocError` is
    /// returned if none is left.
    pub fn summary(self, alloc: Global) -> Result<CowSlice<'a, u8>, AllocError>
        ensures line { IfOk result
            (λ summary. cow_slice_items summary ≡ summary_of (bstr_bytes self.entry.title)) }
        ensures borrowed { Lacks 10 (trim (bstr_bytes self.entry.title))
            → IsOkAnd result IsBorrowed }
    {
        let title = trim(self.title.as_bytes());
        match memchr(b'\n', title) {
            None => Ok(CowSlice::Borrowed(title)),
            Some(_) => Ok(CowSlice::Owned(join_lines(alloc, title)?)),
        }
    }

    /// The body, split before its trailers; `None` if there is none.
    pub fn body(self) -> Option<BodyRef<'a>>
        ensures { option_map body_text result ≡ option_map bstr_bytes self.entry.body }
    {
        let body = self.body?;
        Some(BodyRef::from_bytes(body.as_bytes()))
    }
}

// The text, if it isn't empty.
fn some_text(text: &[u8]) -> Option<BStr<'_>>
    ensures { option_map bstr_bytes result ≡ spec.some_text text.now }
{
    if text.is_empty() {
        None
    } else {
        Some(BStr::new(text))
    }
}
