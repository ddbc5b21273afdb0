//! `Source`: reads times, and the parents that a walk goes along, by row or object; counts lookups; `FetchError`.

ghost use Rattle.std.specs.Prelude.{◌≡◌, ◌≢◌, ◌⊎◌, [], Contains, IfOk, IfErr, IsOk, OnOk, map, unwrap_or, pos};
ghost use Rattle.gix_hash.specs.Id.{id_of};
ghost use Rattle.gix_hash.specs.declared.object_id.ObjectId.{ObjectId};
ghost use Rattle.gix_object_commit.specs.Tokens.{place_of};
ghost use Rattle.gix_object_lookup.specs.Existing.{KindFault, Stands};
ghost use Rattle.gix_object_lines.specs.declared.kind.Kind.TheVariants as kinds;
ghost use Rattle.gix_traverse_graph.specs.Commits.{asked_parents, asked};
ghost use Rattle.gix_traverse_commit_known.specs.Fetching.{HasRow, LooksUpAtMost, ReadsParents, HasRowsGeneration, ParentsFault, ReadFault, TimeFault, TimeIsTold, find_error};
ghost use Rattle.gix_traverse_graph.specs.Rows.{AllHeld};
ghost use Rattle.gix_traverse_commit_known.specs.Meeting.{CountsOne};
ghost use Rattle.gix_traverse_commit_known.specs.Timely.{CountsAs};
ghost use Rattle.gix_traverse_commit_known.specs.Told.{OverTold, rows_of};
ghost use Rattle.gix_traverse_commit_known.specs.declared.fetch.FetchError.TheVariants.{ObjectDecode, Memory};

use crate::either::{row_in, seconds};
use gix_hash::ObjectId;
use gix_object_commit::CommitRefIter;
use gix_object_commit::ref_iter::Token;
use gix_object_lines::{Kind, decode};
use gix_object_lookup::FindInto;
use gix_object_lookup::find::{self as lookup, existing_iter};
use gix_traverse_graph::{Graph, ParentIds, Parents};
use std::alloc::{AllocError, AllocFailed, Global};

/// Why a commit isn't read.
#[derive(Debug, Clone, Copy, PartialEq, Eq)]
pub enum FetchError {
    /// It isn't found.
    Find(existing_iter::Error),
    /// Its object's lines aren't those of a commit.
    ObjectDecode(decode::Error),
    /// There is no memory.
    Memory,
}

impl From<existing_iter::Error> for FetchError {
    ghost from_gives = { λ error given. given ≡ find_error error };

    fn from(error: existing_iter::Error) -> FetchError {
        match error {
            existing_iter::Error::Find(lookup::Error::Memory) => FetchError::Memory,
            other => FetchError::Find(other),
        }
    }
}

impl From<decode::Error> for FetchError {
    ghost from_gives = { λ error given. given ≡ ObjectDecode error };

    fn from(error: decode::Error) -> FetchError {
        FetchError::ObjectDecode(error)
    }
}

impl From<AllocError> for FetchError {
    ghost from_gives = { λ _ given. given ≡ Memory };

    fn from(_error: AllocError) -> FetchError {
        FetchError::Memory
    }
}

impl<T: Drop> From<AllocFailed<T>> for FetchError {
    ghost from_gives = { λ _ given. given ≡ Memory };

    fn from(_refused: AllocFailed<T>) -> FetchError {
        FetchError::Memory
    }
}

/// What a walk reads of a commit.
#[derive(Drop)]
pub struct Fetched {
    /// The ids of the parents that the walk goes along.
    pub parents: ParentIds,
    /// The committer's seconds, if the commit has them.
    pub time: Option<i64>,
    /// The generation in its row, if it has one.
    pub generation: Option<u32>,
}

/// The parents that a walk goes along, of all.
pub fn asked_of(parents: &[ObjectId], along: Parents) -> &[ObjectId]
    ensures { result.now ≡ asked along parents.now }
{
    match along {
        Parents::All => parents,
        Parents::First => {
            if parents.is_empty() {
                parents
            } else {
                &parents[..1]
            }
        }
    }
}

// The ids of the wanted parents, from the parts to come.
fn read_parents(
    alloc: Global,
    reader: CommitRefIter<'_>,
    along: Parents,
) -> Result<ParentIds, FetchError>
    ensures told { IfOk result (λ ids. ReadsParents along (place_of reader.entry)
        (map id_of ids.items)) }
    ensures refused { IfErr result (ParentsFault along (place_of reader.entry)) }
{
    let mut ids = ParentIds::new(alloc);
    'tokens: for token in reader {
        match token? {
            Token::Tree(_) => {}
            Token::Parent(id) => {
                ids.push(id)?;
                match along {
                    Parents::All => {}
                    Parents::First => return Ok(ids),
                }
            }
            _ => return Ok(ids),
        }
    }
    Ok(ids)
}

// Puts the content of the commit of this id into the buffer.
fn load<F: FindInto>(
    objects: &F,
    id: &ObjectId,
    buffer: &mut Vec<u8>,
) -> Result<(), existing_iter::Error>
    ensures stood { F.is_honest objects.now
        → OnOk result (Stands (F.table objects.now) (id_of id.now) kinds.Commit buffer.new.items) }
    ensures listed { IfOk result (λ _. Contains (F.ids objects.now) (id_of id.now)) }
    ensures refused { IfErr result (KindFault (F.is_honest objects.now) (F.may_fail objects.now)
        (F.table objects.now) (id_of id.now) kinds.Commit) }
{
    match objects.find_into(id.as_oid(), buffer)? {
        Some(Kind::Commit) => Ok(()),
        Some(actual) => Err(existing_iter::Error::ObjectKind {
            oid: *id,
            actual,
            expected: Kind::Commit,
        }),
        None => Err(existing_iter::Error::NotFound { oid: *id }),
    }
}

/// Where a walk reads commits from: rows first, and otherwise objects. It counts the objects that
/// it looks up.
#[derive(Drop)]
pub struct Source<F> {
    /// The objects, looked up if there is no row.
    pub objects: F,
    /// The rows, read first.
    pub rows: Option<Graph>,
    /// The content of the object that was read last, and nothing if a row was.
    pub buffer: Vec<u8>,
    /// How many objects were looked up.
    pub lookups: usize,
}

impl<F: FindInto> Source<F> {
    /// What the commit of this id is. Returns `Find` if it isn't found, `ObjectDecode` if its
    /// object's lines aren't those of a commit, and `Memory` if no memory is left.
    pub fn fetch(&mut self, id: &ObjectId, along: Parents) -> Result<Fetched, FetchError>
        ensures reads { LooksUpAtMost 1 self.old self.new }
        ensures one { CountsOne (rows_of self.old.rows) id.now self.old.lookups self.new.lookups }
        ensures parents { OverTold F.is_honest F.table self.old
            (λ g. IfOk result (λ commit. commit.parents.items ≡ asked_parents along g id.now)) }
        ensures time { OverTold F.is_honest F.table self.old
            (λ g. IfOk result (λ commit. unwrap_or commit.time (pos 0) ≡ (g id.now).time)) }
        ensures generation { IfOk result (λ commit. HasRowsGeneration (rows_of self.old.rows) id.now
            commit.generation) }
        ensures listed { IfOk result (λ _. HasRow self.old id.now
            ⊎ Contains (F.ids self.old.objects) (id_of id.now)) }
        ensures closed { HasRow self.old id.now
            → IfOk result (λ commit. AllHeld (rows_of self.old.rows) commit.parents.items) }
        ensures emptied { HasRow self.old id.now → self.new.buffer.items ≡ [] }
        ensures content { F.is_honest self.old.objects → ¬ HasRow self.old id.now
            → OnOk result (Stands (F.table self.old.objects) (id_of id.now) kinds.Commit
            self.new.buffer.items) }
        ensures refused { IfErr result (ReadFault along (F.is_honest self.old.objects)
            (F.may_fail self.old.objects) (rows_of self.old.rows) (F.table self.old.objects)
            id.now) }
    {
        let alloc: Global = *self.buffer.allocator();
        if let Some(row) = row_in(self.rows.as_ref(), id) {
            self.buffer.clear();
            return Ok(Fetched {
                parents: ParentIds::from_slice(alloc, asked_of(row.parents.as_slice(), along))?,
                time: Some(row.time),
                generation: Some(row.generation),
            });
        }
        self.lookups = self.lookups.saturating_add(1);
        load(&self.objects, id, &mut self.buffer)?;
        let reader = CommitRefIter::from_bytes(self.buffer.as_slice(), id.kind());
        Ok(Fetched {
            parents: read_parents(alloc, reader, along)?,
            time: seconds(reader).ok(),
            generation: None,
        })
    }

    /// The committer's seconds of the commit of this id. Returns `ObjectDecode` if its object has
    /// no committer.
    pub fn seconds(&mut self, id: &ObjectId) -> Result<i64, FetchError>
        ensures reads { LooksUpAtMost 1 self.old self.new }
        ensures one { CountsOne (rows_of self.old.rows) id.now self.old.lookups self.new.lookups }
        ensures rowed { HasRow self.old id.now → IsOk result }
        ensures time { OverTold F.is_honest F.table self.old
            (λ g. IfOk result (λ seconds. seconds ≡ (g id.now).time)) }
        ensures told { F.is_honest self.old.objects
            → IfOk result (λ _. TimeIsTold (rows_of self.old.rows) (F.table self.old.objects)
            id.now) }
        ensures unread { OverTold F.is_honest F.table self.old
            (λ g. IfErr result (λ error. error ≢ Memory
            → CountsAs (F.may_fail self.old.objects) g id.now (pos 0))) }
        ensures refused { IfErr result (TimeFault (F.is_honest self.old.objects)
            (F.may_fail self.old.objects) (rows_of self.old.rows) (F.table self.old.objects)
            id.now) }
    {
        if let Some(row) = row_in(self.rows.as_ref(), id) {
            return Ok(row.time);
        }
        self.lookups = self.lookups.saturating_add(1);
        load(&self.objects, id, &mut self.buffer)?;
        let reader = CommitRefIter::from_bytes(self.buffer.as_slice(), id.kind());
        match seconds(reader) {
            Ok(seconds) => Ok(seconds),
            Err(error) => Err(FetchError::ObjectDecode(error)),
        }
    }
}
