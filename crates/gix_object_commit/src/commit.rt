//! Commits.

ghost use Rattle.std.specs.Prelude.{◌≡◌};
ghost use Rattle.gix_object_commit.specs.HeaderViews.{headers_of};
ghost use Rattle.gix_object_commit.specs.Views.{parts_of};

mod decode;
mod ids;
mod message;
mod owned;
mod people;
mod sign;
mod spelling;
mod unsigned;
mod write;
mod write_owned;

pub use crate::commit::ids::Parents;
pub use crate::commit::owned::Commit;
pub use crate::extra_headers::{ExtraHeaders, FindAll, MergeTags};
pub use crate::header::{ExtraHeader, HeaderRef};
pub use crate::signature_name::{
    SIGNATURE_FIELD_NAME, SIGNATURE_FIELD_NAME_SHA256, signature_field_name,
};
use bstr::BStr;
use gix_object_lines::lines::ActorRef;
use smallvec::SmallVec;

/// A commit whose parts are borrowed from its content.
#[derive(Debug, Drop, PartialEq, Eq)]
pub struct CommitRef<'a> {
    /// The hexadecimal digits of the tree's id.
    pub tree: BStr<'a>,
    /// The hexadecimal digits of each parent's id.
    pub parents: SmallVec<BStr<'a>, 1>,
    /// Who made the change, and when.
    pub author: ActorRef<'a>,
    /// Who committed it, and when.
    pub committer: ActorRef<'a>,
    /// The name of the message's encoding, if it isn't UTF-8.
    pub encoding: Option<BStr<'a>>,
    /// The message.
    pub message: BStr<'a>,
    /// The further headers, in order.
    pub extra_headers: Vec<HeaderRef<'a>>,
}

impl<'a> CommitRef<'a> {
    /// The further headers.
    pub fn extra_headers(&self) -> ExtraHeaders<'_, 'a>
        ensures { headers_of result ≡ (parts_of self.now).headers }
    {
        ExtraHeaders::new(self.extra_headers.as_slice())
    }
}
