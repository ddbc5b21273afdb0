//! The objects that a content of any kind names if it is in written form, and the title of a message.
ghost use Rattle.std.specs.Prelude.{◌≡◌, IfOk, MatchOption, map};
ghost use Rattle.history_model.specs.Forms.{title};
ghost use Rattle.history_texts.specs.Written.{IsMalformed, NamesObjects, naming_of};

mod commits;
mod malformed;
mod tags;
mod trees;

pub use commits::has_twice;
use commits::named_by_commit;
use gix_hash::{Kind, ObjectId};
use gix_object_lines::Kind as ObjectKind;
use gix_object_lines::cut::split_once;
pub use malformed::{is_before_1970, is_tag_of_other};
use std::alloc::{AllocError, Global};
pub use tags::is_name;
use tags::named_by_tag;
pub use trees::is_written_tree;
use trees::named_by_tree;

/// An object that another one names, and the kind that it must be of.
#[derive(Clone, Copy)]
pub struct Named {
    pub id: ObjectId,
    pub kind: ObjectKind,
}

/// Returns the objects that a content of this kind names; `None` if it isn't in written form.
pub fn named_by(
    alloc: Global,
    digests: Kind,
    kind: ObjectKind,
    content: &[u8],
) -> Result<Option<Vec<Named>>, AllocError>
    ensures { IfOk result (λ found. MatchOption found (IsMalformed digests kind content.now)
        (λ named. NamesObjects digests kind content.now (map naming_of named.items))) }
{
    match kind {
        ObjectKind::Blob => Ok(Some(Vec::new(alloc))),
        ObjectKind::Tree => named_by_tree(alloc, digests, content),
        ObjectKind::Commit => named_by_commit(alloc, digests, content),
        ObjectKind::Tag => named_by_tag(alloc, digests, content),
    }
}

/// Returns the title of a message: what comes before its first line feed, or all of it.
pub fn title(message: &[u8]) -> &[u8]
    ensures { result.now ≡ title message.now }
{
    match split_once(message, b'\n') {
        Some((title, _)) => title,
        None => message,
    }
}
