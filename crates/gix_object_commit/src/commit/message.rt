//! A commit's message: its title, body and trailers.

ghost use Rattle.std.specs.Prelude.{◌≡◌, filter, IfOk, IsOkAnd};
ghost use Rattle.std.specs.Cow.{cow_slice_items};
ghost use Rattle.std.specs.Option.{option_map};
ghost use Rattle.bstr.specs.BStr.{bstr_bytes};
ghost use Rattle.gix_object_lines.specs.Bytes.{Lacks};
ghost use Rattle.gix_object_message.specs.Attribution.{is_signed_off_by, is_co_authored_by, is_assisted_by, is_attribution, is_author};
ghost use Rattle.gix_object_message.specs.Borrowed.{IsBorrowed};
ghost use Rattle.gix_object_message.specs.Selected.{selected_left};
ghost use Rattle.gix_object_message.specs.Title.{title_of, body_of, summary_of};
ghost use Rattle.gix_object_message.specs.Views.{trailers_left};
ghost use Rattle.gix_object_message.specs.White.{trim};
ghost use Rattle.gix_object_commit.specs.Messages.{trailers_of};

use crate::commit::CommitRef;
use bstr::BStr;
use gix_object_message::{BodyRef, MessageRef, SelectedTrailers, Trailers};
use std::alloc::AllocError;
use std::borrow::CowSlice;

impl<'a> CommitRef<'a> {
    /// The message, split at its first empty line.
    pub fn message(&self) -> MessageRef<'a>
        ensures title { bstr_bytes result.title ≡ title_of (bstr_bytes self.now.message) }
        ensures body { option_map bstr_bytes result.body ≡ body_of (bstr_bytes self.now.message) }
    {
        MessageRef::from_bytes(self.message.as_bytes())
    }

    /// The message's title in one line, as `MessageRef::summary` returns it. A title of one line is
    /// borrowed. Otherwise the bytes take memory, and `AllocError` is returned if none is left.
    pub fn message_summary(&self) -> Result<CowSlice<'a, u8>, AllocError>
        ensures line { IfOk result
            (λ summary. cow_slice_items summary
            ≡ summary_of (title_of (bstr_bytes self.now.message))) }
        ensures borrowed { Lacks 10 (trim (title_of (bstr_bytes self.now.message)))
            → IsOkAnd result IsBorrowed }
    {
        let alloc = *self.extra_headers.allocator();
        self.message().summary(alloc)
    }

    /// The trailers of the message's body, in order; none if the message has no body.
    pub fn message_trailers(&self) -> Trailers<'a>
        ensures { trailers_left result ≡ trailers_of (bstr_bytes self.now.message) }
    {
        let body = self.message().body.unwrap_or(BStr::new(b""));
        BodyRef::from_bytes(body.as_bytes()).trailers()
    }

    /// The trailers whose token is `Signed-off-by`, letter case aside.
    pub fn signed_off_by_trailers(&self) -> SelectedTrailers<'a>
        ensures { selected_left result
            ≡ filter (λ trailer. is_signed_off_by trailer.token)
            (trailers_of (bstr_bytes self.now.message)) }
    {
        self.message_trailers().signed_off_by()
    }

    /// The trailers whose token is `Co-authored-by`, letter case aside.
    pub fn co_authored_by_trailers(&self) -> SelectedTrailers<'a>
        ensures { selected_left result
            ≡ filter (λ trailer. is_co_authored_by trailer.token)
            (trailers_of (bstr_bytes self.now.message)) }
    {
        self.message_trailers().co_authored_by()
    }

    /// The trailers whose token is `Assisted-by`, letter case aside.
    pub fn assisted_by_trailers(&self) -> SelectedTrailers<'a>
        ensures { selected_left result
            ≡ filter (λ trailer. is_assisted_by trailer.token)
            (trailers_of (bstr_bytes self.now.message)) }
    {
        self.message_trailers().assisted_by()
    }

    /// The trailers that name an author: whose token is `Signed-off-by` or `Co-authored-by`, letter
    /// case aside.
    pub fn author_trailers(&self) -> SelectedTrailers<'a>
        ensures { selected_left result
            ≡ filter (λ trailer. is_author trailer.token)
            (trailers_of (bstr_bytes self.now.message)) }
    {
        self.message_trailers().authors()
    }

    /// The trailers for which `TrailerRef::is_attribution` holds.
    pub fn attribution_trailers(&self) -> SelectedTrailers<'a>
        ensures { selected_left result
            ≡ filter (λ trailer. is_attribution trailer.token)
            (trailers_of (bstr_bytes self.now.message)) }
    {
        self.message_trailers().attributions()
    }
}
