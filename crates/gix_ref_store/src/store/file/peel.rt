//! Peeling, as `ReferenceExt` calls it: the object that names and then tags lead to in the end.

ghost use Rattle.std.specs.Prelude.{◌≡◌, IfErr, IfOk, IsSome, Contains, MatchOption, MatchResult, None, Some, unwrap_or};
ghost use Rattle.std.specs.List.{list_any};
ghost use Rattle.gix_hash.specs.Id.{id_of};
ghost use Rattle.gix_hash.specs.Order.{id_eq};
ghost use Rattle.gix_ref_store.specs.Follows.{IsGiven};
ghost use Rattle.gix_ref_store.specs.Peels.{TagNames, IsPlain, PeelsTo, TagFault, StepFault, Peels, PeelFault, MayTell};
ghost use Rattle.gix_ref_store.specs.Searches.{reads_in};
ghost use Rattle.gix_ref_store.specs.declared.store.file.peel.Error.TheVariants.{FollowToObject, Find, Memory};

use crate::reference::Reference;
use crate::store::file::find::{self, ExistingError};
use crate::store::file::follow::{self, end_from};
use crate::store::file::search::Search;
use gix_hash::ObjectId;
use gix_object_lines::Kind;
use gix_object_lookup::{FindInto, find as object};
use gix_object_tag::TagRefIter;
use gix_ref_file::Files;
use gix_ref_format::packed::buffer;
use std::alloc::{AllocFailed, Global};
use thiserror::Error;

/// Why a reference leads to no object.
#[derive(Debug, Clone, Copy, PartialEq, Eq, Error)]
pub enum Error {
    /// No object is reached over the names of others.
    #[error(transparent)]
    FollowToObject(follow::Error),
    /// The lookup of an object failed.
    #[error(transparent)]
    Find(object::Error),
    /// An object on the way isn't there, or is a tag that names none, or one that was met before.
    #[error("the object {oid} isn't there, or leads nowhere")]
    NotFound {
        /// Its id.
        oid: ObjectId,
    },
    /// No memory is left.
    #[error("no memory is left")]
    Memory,
}

impl From<follow::Error> for Error {
    ghost from_gives = { λ error given. given ≡ FollowToObject error };

    fn from(error: follow::Error) -> Self {
        Error::FollowToObject(error)
    }
}

impl From<object::Error> for Error {
    ghost from_gives = { λ error given. given ≡ Find error };

    fn from(error: object::Error) -> Self {
        Error::Find(error)
    }
}

impl From<buffer::Error> for Error {
    ghost use Rattle.gix_ref_store.specs.Peels.{unopened};

    ghost from_gives = { λ error given. given ≡ unopened error };

    fn from(error: buffer::Error) -> Self {
        let error = ExistingError::Find(find::Error::PackedOpen(error));
        Error::FollowToObject(follow::Error::Follow(error))
    }
}

impl<T: Drop> From<AllocFailed<T>> for Error {
    ghost from_gives = { λ _ e. e ≡ Memory };

    fn from(_: AllocFailed<T>) -> Self {
        Error::Memory
    }
}

// The object that a reference leads to, and the last reference on the way if it is another.
pub(crate) fn peeled_end<F: Files, T: FindInto>(
    search: &Search<'_, '_, F>,
    from: &Reference,
    objects: &T,
) -> Result<(ObjectId, Option<Reference>), Error>
    ensures peeled { F.is_honest search.now.store.now.files → T.is_honest objects.now
        → let read = reads_in (F.history search.now.store.now.files).tree search.now in
        MatchResult result (λ found. Peels read (T.table objects.now) from.now
        (unwrap_or found.1 from.now).name (id_of found.0))
        (PeelFault IsGiven read (T.table objects.now) from.now) }
    ensures lacking { IfErr result (λ _. from.now.peeled ≡ None) }
    ensures failed { IfErr result (MayTell F.reading_may_fail (T.may_fail objects.now)) }
{
    match from.peeled {
        Some(id) => Ok((id, None)),
        None => {
            let (first, end) = end_from(search, from)?;
            let id = object_named(search.alloc, objects, first)?;
            Ok((id, end))
        }
    }
}

// The object that an id leads to: its own, or the one that tags lead to.
fn object_named<T: FindInto>(alloc: Global, objects: &T, id: ObjectId) -> Result<ObjectId, Error>
    ensures peeled { T.is_honest objects.now
        → IfOk result (λ end. PeelsTo (T.table objects.now) (id_of id) (id_of end)) }
    ensures refused { IfErr result (TagFault (T.is_honest objects.now) (T.may_fail objects.now)
        (T.table objects.now) (id_of id)) }
{
    let mut buffer = Vec::new(alloc);
    let mut tags = Vec::new(alloc);
    let mut end = id;
    'tags: while let Some(next) = named_by_tag(objects, end, &mut buffer)? {
        if is_among(tags.as_slice(), end) {
            return Err(Error::NotFound { oid: end });
        }
        tags.push(end)?;
        end = next;
    }
    Ok(end)
}

// What the tag of this id names; `None` if the object is no tag.
fn named_by_tag<T: FindInto>(
    objects: &T,
    id: ObjectId,
    buffer: &mut Vec<u8>,
) -> Result<Option<ObjectId>, Error>
    ensures named { T.is_honest objects.now
        → IfOk result (λ next. MatchOption next (IsPlain (T.table objects.now) (id_of id))
        (λ target. TagNames (T.table objects.now) (id_of id) (id_of target))) }
    ensures listed { IfOk result (λ next. IsSome next → Contains (T.ids objects.now) (id_of id)) }
    ensures refused { IfErr result (StepFault (T.is_honest objects.now) (T.may_fail objects.now)
        (T.table objects.now) (id_of id)) }
{
    let Some(kind) = objects.find_into(id.as_oid(), buffer)? else {
        return Err(Error::NotFound { oid: id });
    };
    if kind != Kind::Tag {
        return Ok(None);
    }
    match TagRefIter::from_bytes(buffer.as_slice(), id.kind()).target_id() {
        Ok(target) => Ok(Some(target)),
        Err(_) => Err(Error::NotFound { oid: id }),
    }
}

// Returns whether one of the ids is this.
fn is_among(ids: &[ObjectId], id: ObjectId) -> bool
    ensures { result ≡ list_any (λ other. id_eq (id_of id) (id_of other)) ids.now }
{
    ids.iter().any(|other| id == *other)
}
