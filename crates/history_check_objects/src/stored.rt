//! What is known of the stored objects, noted one by one: ids, kinds, and the commits that tags are of.
ghost use Rattle.std.specs.BTreeMap.{IsEmpty, Updates};
ghost use Rattle.std.specs.Prelude.{◌≡◌, MatchOption, OnOk, Some, option_map};
ghost use Rattle.gix_hash.specs.Id.{id_of};
ghost use Rattle.history_check_objects.specs.Stored.{facts_in, ids_in, kind_in, target_in};
ghost use Rattle.history_check_objects.specs.Surveying.{by_id};

use gix_hash::ObjectId;
use gix_object::Kind as ObjectKind;
use std::alloc::{AllocError, Global};
use std::collections::BTreeMap;
use std::collections::btree_map::Keys;

/// What is noted of an object all of whose links are noted: its kind, and how long the longest path
/// below it is, if it is a tree.
#[derive(Clone, Copy)]
pub struct Done {
    pub(crate) kind: ObjectKind,
    pub(crate) longest: usize,
}

/// What is known of the objects of a part: the kind of each, and of each tag the commit. An object
/// takes one entry of a map, and a tag two.
#[derive(Drop)]
pub struct Stored {
    pub(crate) done: BTreeMap<ObjectId, Done>,
    pub(crate) tags: BTreeMap<ObjectId, ObjectId>,
}

impl Stored {
    /// Returns what is known of no objects.
    pub fn new(alloc: Global) -> Stored
        ensures done { IsEmpty result.done }
        ensures tags { IsEmpty result.tags }
    {
        Stored {
            done: BTreeMap::new(alloc),
            tags: BTreeMap::new(alloc),
        }
    }

    /// Notes an object, and of a tag the commit. Fails only if memory runs out.
    pub(crate) fn note(
        &mut self,
        id: ObjectId,
        done: Done,
        commit: Option<ObjectId>,
    ) -> Result<(), AllocError>
        ensures done { OnOk result (Updates by_id self.old.done self.new.done id (Some done)) }
        ensures tags { OnOk result (MatchOption commit (self.new.tags ≡ self.old.tags)
            (λ commit. Updates by_id self.old.tags self.new.tags id (Some commit))) }
    {
        if let Some(commit) = commit {
            self.tags.insert(id, commit)?;
        }
        self.done.insert(id, done)?;
        Ok(())
    }

    /// Returns the ids of the objects.
    pub fn ids(&self) -> Keys<'_, ObjectId, Done>
        ensures { result ≡ ids_in self.now }
    {
        self.done.keys()
    }

    /// Returns the kind of the object of this id; `None` if none is stored.
    pub fn kind_of(&self, id: &ObjectId) -> Option<ObjectKind>
        ensures { result ≡ kind_in (facts_in self.now) (id_of id.now) }
    {
        Some(self.done.get(id)?.kind)
    }

    /// Returns the id of the commit that the tag of this id is of; `None` if no tag is stored there.
    pub fn commit_of(&self, id: &ObjectId) -> Option<ObjectId>
        ensures { option_map id_of result ≡ target_in (facts_in self.now) (id_of id.now) }
    {
        self.done.get(id)?;
        self.tags.get(id).copied()
    }
}
