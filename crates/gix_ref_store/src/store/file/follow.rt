//! Following symbolic references to an object's id; and the reference of a full name that must exist.

ghost use Rattle.std.specs.Prelude.{◌≡◌, IfErr, MatchResult, unwrap_or};
ghost use Rattle.gix_ref_store.specs.Finds.{state_of, OnExisting};
ghost use Rattle.gix_ref_store.specs.Finds as finds;
ghost use Rattle.gix_ref_store.specs.Follows.{EndsBy, FollowFault, TellsExisting, IsGiven, CantOpen, MayTell, follow, follow_from};
ghost use Rattle.gix_ref_store.specs.Lookups.{reads_now};
ghost use Rattle.gix_ref_store.specs.Searches.{reads_in};
ghost use Rattle.gix_ref_store.specs.Stores.{base_of};
ghost use Rattle.gix_ref_store.specs.declared.store.file.follow.Error.TheVariants.{Memory};

use crate::reference::Reference;
use crate::store::file::find::ExistingError;
use crate::store::file::search::Search;
use crate::store::file::{Store, find};
use gix_hash::ObjectId;
use gix_ref_file::Files;
use gix_ref_name::{FullName, Target};
use std::alloc::{AllocError, AllocFailed, Global};
use thiserror::Error;

// The most names that are followed to an object.
const MAX_DEPTH: usize = 5;

/// Why no object is reached.
#[derive(Debug, Clone, Copy, PartialEq, Eq, Error)]
pub enum Error {
    /// A name on the way has no reference, or it couldn't be read.
    #[error(transparent)]
    Follow(ExistingError),
    /// A name was met again.
    #[error("references point to one another in a ring")]
    Cycle,
    /// More than 5 names are on the way.
    #[error("more than 5 references point to one another")]
    DepthLimitExceeded,
    /// No memory is left.
    #[error("no memory is left")]
    Memory,
}

impl From<AllocError> for Error {
    ghost from_gives = { λ _ e. e ≡ Memory };

    fn from(_: AllocError) -> Self {
        Error::Memory
    }
}

impl<T: Drop> From<AllocFailed<T>> for Error {
    ghost from_gives = { λ _ e. e ≡ Memory };

    fn from(_: AllocFailed<T>) -> Self {
        Error::Memory
    }
}

// The reference of a full name, which must exist, with the packed references as they are now.
pub(crate) fn named_in<F: Files>(
    alloc: Global,
    store: &Store<F>,
    name: &FullName,
) -> Result<Reference, ExistingError>
    ensures told { F.is_honest store.now.files
        → let tree = (F.history store.now.files).tree in
        TellsExisting (CantOpen (base_of store.now) tree) (reads_now store.now tree) name.now
        result }
    ensures failed { IfErr result (OnExisting (Unit {0}) (finds.MayTell F.reading_may_fail)) }
{
    match store.open_packed_buffer(alloc) {
        Ok(Some(packed)) => named(
            &Search {
                alloc,
                store,
                packed: Some(&packed),
            },
            name,
        ),
        Ok(None) => named(
            &Search {
                alloc,
                store,
                packed: None,
            },
            name,
        ),
        Err(error) => Err(ExistingError::Find(find::Error::PackedOpen(error))),
    }
}

// The reference of a full name, which must exist.
pub(crate) fn named<F: Files>(
    search: &Search<'_, '_, F>,
    name: &FullName,
) -> Result<Reference, ExistingError>
    ensures told { F.is_honest search.now.store.now.files
        → let read = reads_in (F.history search.now.store.now.files).tree search.now in
        TellsExisting IsGiven read name.now result }
    ensures failed { IfErr result (OnExisting (Unit {0}) (finds.MayTell F.reading_may_fail)) }
{
    let Ok(copy) = name.try_clone() else {
        return Err(ExistingError::Find(find::Error::Memory));
    };
    match search.of_full_name(copy) {
        Ok(Some(found)) => Ok(found),
        Ok(None) => Err(ExistingError::NotFound),
        Err(error) => Err(ExistingError::Find(error)),
    }
}

// The object at the end of the chain that begins with a reference, and the last reference if it is
// another.
pub(crate) fn end_from<F: Files>(
    search: &Search<'_, '_, F>,
    from: &Reference,
) -> Result<(ObjectId, Option<Reference>), Error>
    ensures followed { F.is_honest search.now.store.now.files
        → let read = reads_in (F.history search.now.store.now.files).tree search.now in
        let end = follow_from read from.now in
        MatchResult result (λ found. EndsBy (unwrap_or found.1 from.now) found.0 end)
        (FollowFault IsGiven end) }
    ensures failed { IfErr result (MayTell F.reading_may_fail) }
{
    end_of(search, from, MAX_DEPTH, Vec::new(search.alloc))
}

// The same over at most so many names, of which these were met.
fn end_of<F: Files>(
    search: &Search<'_, '_, F>,
    from: &Reference,
    left: usize,
    mut seen: Vec<FullName>,
) -> Result<(ObjectId, Option<Reference>), Error>
    ensures followed { F.is_honest search.now.store.now.files
        → let read = reads_in (F.history search.now.store.now.files).tree search.now in
        let end = follow read left seen.items from.now.name (state_of from.now) in
        MatchResult result (λ found. EndsBy (unwrap_or found.1 from.now) found.0 end)
        (FollowFault IsGiven end) }
    ensures failed { IfErr result (MayTell F.reading_may_fail) }
{
    let name = match &from.target {
        Target::Object(id) => return Ok((*id, None)),
        Target::Symbolic(name) => name,
    };
    if seen.contains(name) {
        return Err(Error::Cycle);
    }
    if left == 0 {
        return Err(Error::DepthLimitExceeded);
    }
    let next = match named(search, name) {
        Ok(next) => next,
        Err(error) => return Err(Error::Follow(error)),
    };
    seen.push(name.try_clone()?)?;
    let (id, end) = end_of(search, &next, left - 1, seen)?;
    Ok((id, Some(end.unwrap_or(next))))
}
