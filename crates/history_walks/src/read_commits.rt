//! Commits kept by id (`ReadCommits`), all that a walk reaches, and a store that looks them up before others.

ghost use Rattle.std.specs.Prelude.{◌≡◌, ◌++◌, ⊤, true, List, None, Contains, IfOk, IfErr, MatchOption, OnOk};
ghost use Rattle.gix_hash.specs.Id.{Id, id_of};
ghost use Rattle.gix_hash.specs.declared.object_id.ObjectId.{ObjectId};
ghost use Rattle.gix_object_lines.specs.declared.kind.Kind.TheVariants as kinds;
ghost use Rattle.gix_object_lookup.specs.Existing.{Stands};
ghost use Rattle.gix_object_lookup.specs.Table.{Table};
ghost use Rattle.gix_traverse_commit_known.specs.Asked.{Answers, Asked, IsSure};
ghost use Rattle.gix_traverse_commit.specs.Simply.{IsMade, graph_of, objects_of};
ghost use Rattle.gix_traverse_commit_known.specs.Told.{rows_of};
ghost use Rattle.history_walks.specs.Asking.{OverTable};
ghost use Rattle.history_walks.specs.Faults.{IsMetAlong, WalkFault};
ghost use Rattle.history_walks.specs.ReadCommits.{AreKept, AreOf, ids_of, kept_in};

use crate::error::WalkError;
use gix_hash::{ObjectId, oid};
use gix_object_lines::Kind;
use gix_object_lookup::{FindInto, Lookup, find};
use gix_traverse_commit::{All, Graph, Parents, Simple};
use std::alloc::{AllocError, Global};
use std::collections::BTreeMap;

/// The contents of commits, under their ids. A lookup of one fails only if memory runs out.
#[derive(Drop)]
pub struct ReadCommits {
    contents: BTreeMap<ObjectId, Vec<u8>>,
}

impl ReadCommits {
    /// Returns no commits.
    pub fn new(alloc: Global) -> ReadCommits
        ensures { (id : Id) → kept_in result id ≡ None }
    {
        ReadCommits {
            contents: BTreeMap::new(alloc),
        }
    }

    /// Adds the content of a commit, which replaces one that was kept of it before. If no memory is
    /// left, nothing is added.
    pub fn insert(&mut self, id: ObjectId, content: Vec<u8>) -> Result<(), AllocError>
        ensures kept { OnOk result
            (Stands (kept_in self.new) (id_of id) kinds.Commit content.items) }
        ensures others { (table : Table) → AreOf table (kept_in self.old)
            → Stands table (id_of id) kinds.Commit content.items
            → OnOk result (AreOf table (kept_in self.new)) }
    {
        self.contents.insert(id, content)?;
        Ok(())
    }

    /// Returns all commits without rows that the tips or the hidden commits reach along these
    /// parents, each read once from the store.
    ///
    /// The error is `Failed` if a lookup failed, `Broken` if one of these commits isn't stored or
    /// can't be read, and `Memory` if no memory is left.
    pub fn reached<S: FindInto>(
        alloc: Global,
        store: &S,
        rows: Option<Graph>,
        tips: &[ObjectId],
        hidden: &[ObjectId],
        parents: Parents,
    ) -> Result<ReadCommits, WalkError>
        ensures reads { OverTable (S.is_honest store.now) (rows_of rows) (S.table store.now) (λ g.
            IfOk result (λ commits. AreKept (rows_of rows) (S.table store.now)
            (kept_in commits) (IsMetAlong parents g tips.now hidden.now))) }
        ensures refused { OverTable (S.is_honest store.now) (rows_of rows) (S.table store.now) (λ g.
            IfErr result (WalkFault (S.may_fail store.now) (rows_of rows) (S.table store.now) g
            tips.now hidden.now)) }
    {
        let mut starts = Vec::from_slice(alloc, tips)?;
        starts.extend_from_slice(hidden)?;
        let walk = Simple::new(starts, store)?.commit_graph(rows);
        read_all(alloc, walk.parents(parents))
    }

    /// Returns the content of the commit of this id, if it is kept.
    pub fn content(&self, id: &ObjectId) -> Option<&[u8]>
        ensures { MatchOption result (kept_in self.now (id_of id.now) ≡ None) (λ content.
            Stands (kept_in self.now) (id_of id.now) kinds.Commit content.now) }
    {
        Some(self.contents.get(id)?.as_slice())
    }
}

// Returns all commits of a walk that have no row. The errors are those of `reached`.
fn read_all<F: FindInto + Drop>(
    alloc: Global,
    mut walk: Simple<F, All>,
) -> Result<ReadCommits, WalkError>
    ensures reads { OverTable (F.is_honest (objects_of walk)) (rows_of (graph_of walk))
        (F.table (objects_of walk)) (λ g. (a : Asked)
        → IsSure (F.may_fail (objects_of walk)) a → IsMade (λ _ _. true) a walk
        → IfOk result (λ commits. (ids : List ObjectId) × Answers g a ids
        × AreKept (rows_of (graph_of walk)) (F.table (objects_of walk))
        (kept_in commits) (Contains ids))) }
    ensures refused { OverTable (F.is_honest (objects_of walk)) (rows_of (graph_of walk))
        (F.table (objects_of walk)) (λ g. (a : Asked)
        → IsSure (F.may_fail (objects_of walk)) a → IsMade (λ _ _. true) a walk
        → IfErr result (WalkFault
        (F.may_fail (objects_of walk)) (rows_of (graph_of walk)) (F.table (objects_of walk)) g
        a.tips a.hidden)) }
{
    let mut contents = BTreeMap::new(alloc);
    'walk: while let Some(info) = walk.next() {
        let info = info?;
        if info.generation.is_none() {
            let content = Vec::from_slice(alloc, walk.commit_data())?;
            contents.insert(info.id, content)?;
        }
    }
    Ok(ReadCommits { contents })
}

impl Lookup for ReadCommits {
    ghost table = { kept_in };

    ghost ids = { λ commits. ids_of commits.contents };

    ghost is_honest = { λ _. ⊤ };

    ghost may_fail = { λ _. ⊥ };
}

impl FindInto for ReadCommits {
    fn find_into(&self, id: oid<'_>, buffer: &mut Vec<u8>) -> Result<Option<Kind>, find::Error> {
        buffer.clear();
        let Some(content) = self.contents.get(&ObjectId::from(id)) else {
            return Ok(None);
        };
        buffer.extend_from_slice(content)?;
        Ok(Some(Kind::Commit))
    }
}

/// A store, and commits that were read from it: they are looked up in it no more.
#[derive(Drop)]
pub struct ReadStore<'a, S> {
    /// The store.
    pub store: &'a S,
    /// The commits that were read.
    pub read: &'a ReadCommits,
}

impl<S: Lookup> Lookup for ReadStore<'_, S> {
    ghost table = { λ it. S.table it.store.now };

    ghost ids = { λ it. ids_of it.read.now.contents ++ S.ids it.store.now };

    ghost is_honest = { λ it. S.is_honest it.store.now
        × AreOf (S.table it.store.now) (kept_in it.read.now) };

    ghost may_fail = { λ it. S.may_fail it.store.now };
}

impl<S: FindInto> FindInto for ReadStore<'_, S> {
    fn find_into(&self, id: oid<'_>, buffer: &mut Vec<u8>) -> Result<Option<Kind>, find::Error> {
        match self.read.content(&ObjectId::from(id)) {
            Some(_) => self.read.find_into(id, buffer),
            None => self.store.find_into(id, buffer),
        }
    }
}
