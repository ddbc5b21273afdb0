//! What a command has read, so that it isn't read again: which commit each object peels to, commits' contents.

ghost use Rattle.std.specs.Prelude.{◌≡◌, OnOk, Some};
ghost use Rattle.std.specs.FinMap.{get};
ghost use Rattle.gix_hash.specs.Id.{id_of};
ghost use Rattle.history_model.specs.Objects.{CommitValue, StoredCommit};
ghost use Rattle.history_repository.specs.Meant.{HasContent, IsPeeledBy};
ghost use Rattle.history_repository.specs.Known.{AreMeant, contents_in, meant_in};
ghost use Rattle.history_model.specs.Repository as plain;

use crate::stored::{MeantCommit, PeeledCommit};
use gix_hash::ObjectId;
use history_walks::ReadCommits;
use std::alloc::{AllocError, Global};
use std::collections::BTreeMap;

/// The commits that objects peel to, under the objects' ids; and, if they are to be kept, the
/// contents of the commits among the objects.
#[derive(Drop)]
pub struct ReadObjects {
    peeled: BTreeMap<ObjectId, Option<PeeledCommit>>,
    contents: ReadCommits,
    keeps: bool,
}

impl ReadObjects {
    /// Returns no objects. No content will be kept.
    pub fn new(alloc: Global) -> ReadObjects
        ensures { (r : plain.Repository) → AreMeant r result }
    {
        ReadObjects {
            peeled: BTreeMap::new(alloc),
            contents: ReadCommits::new(alloc),
            keeps: false,
        }
    }

    /// Returns no objects. The contents of commits will be kept.
    pub fn keeping(alloc: Global) -> ReadObjects
        ensures { (r : plain.Repository) → AreMeant r result }
    {
        let mut read = ReadObjects::new(alloc);
        read.keeps = true;
        read
    }

    /// Returns the commits whose contents were kept.
    pub fn into_contents(self) -> ReadCommits
        ensures { result ≡ contents_in self }
    {
        self.contents
    }

    /// Returns the commit that an object peels to, `None` if it peels to none, if it was read.
    pub(crate) fn known(&self, id: &ObjectId) -> Option<Option<PeeledCommit>>
        ensures { result ≡ meant_in self.now id.now }
    {
        Some(*self.peeled.get(id)?)
    }

    /// Adds what an object peels to. If no memory is left, nothing is added.
    pub(crate) fn know(
        &mut self,
        id: ObjectId,
        commit: Option<PeeledCommit>,
    ) -> Result<(), AllocError>
        ensures { (r : plain.Repository) → AreMeant r self.old → IsPeeledBy r (id_of id) commit
            → OnOk result (AreMeant r self.new) }
    {
        self.peeled.insert(id, commit)?;
        Ok(())
    }

    /// Adds the content of a stored commit, if it was read and contents are to be kept.
    pub(crate) fn keep(&mut self, meant: MeantCommit) -> Result<(), AllocError>
        ensures { (r : plain.Repository) (value : CommitValue) → AreMeant r self.old
            → get r.objects (id_of meant.id) ≡ Some (StoredCommit value) → HasContent r meant
            → OnOk result (AreMeant r self.new) }
    {
        if !self.keeps {
            return Ok(());
        }
        let MeantCommit { id, content } = meant;
        if let Some(content) = content {
            self.contents.insert(id, content)?;
        }
        Ok(())
    }
}
