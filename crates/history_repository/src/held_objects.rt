//! Objects that names hold, read once for a `pack`: the commit that each peels to, and a store over them.

ghost use Rattle.std.specs.Prelude.{◌≡◌, ◌++◌, OnOk, Some};
ghost use Rattle.gix_hash.specs.Id.{Id, id_of};
ghost use Rattle.gix_object_lookup.specs.Table.{Table};
ghost use Rattle.history_files.specs.Laws.{table_of};
ghost use Rattle.history_model.specs.Repository.{peeled};
ghost use Rattle.history_repository.specs.HeldObjects.{AreOf, HoldsMore, IsAt, commit_or, ids_of};
ghost use Rattle.history_repository.specs.Reads.{GivesMeant};
ghost use Rattle.history_repository.specs.Stands.{Stands};
ghost use Rattle.history_model.specs.Repository as plain;

use crate::repository::Repository;
use crate::stopped::Stopped;
use gix_hash::{ObjectId, oid};
use gix_object_lines::Kind;
use gix_object_lookup::find::Error;
use gix_object_lookup::{FindInto, Lookup};
use gix_ref_file::Files;
use history_model::Fault;
use history_store::{Object, tag_target};
use std::alloc::{AllocError, Global};
use std::collections::BTreeMap;

/// The objects that names hold, and the commits that tags among them are of, under their ids.
#[derive(Drop)]
pub struct HeldObjects {
    objects: BTreeMap<ObjectId, Object>,
}

impl HeldObjects {
    /// Returns no objects.
    pub fn new(alloc: Global) -> HeldObjects
        ensures { (table : Table) → AreOf table result }
    {
        HeldObjects {
            objects: BTreeMap::new(alloc),
        }
    }

    // Adds an object. If no memory is left, nothing is added.
    fn hold(&mut self, id: ObjectId, object: Object) -> Result<(), AllocError>
        ensures { (table : Table) → AreOf table self.old → IsAt table (id_of id) object
            → OnOk result (AreOf table self.new) }
    {
        self.objects.insert(id, object)?;
        Ok(())
    }

    // Returns the commit that a stored object is a tag of; `None` of a commit. The object is read,
    // unless it is held, and held from then on.
    fn read<F: Files>(
        &mut self,
        repository: &Repository<F>,
        alloc: Global,
        id: ObjectId,
    ) -> Result<Option<ObjectId>, Stopped>
        ensures { (r : plain.Repository) (commit : Id)
            → Stands F.is_honest F.history repository.now r → peeled r (id_of id) ≡ Some commit
            → HoldsMore F.reading_may_fail r self.old self.new
            (λ tagged. commit_or (id_of id) tagged ≡ commit) result }
    {
        if let Some(object) = self.objects.get(&id) {
            return tagged(repository, object);
        }
        let object = repository.objects.read(alloc, &id)?.ok_or(Fault::File)?;
        let commit = tagged(repository, &object)?;
        self.hold(id, object)?;
        Ok(commit)
    }

    /// Returns the commit that a stored object peels to: a commit itself, a tag's commit. Of both
    /// each is read, unless it is held, and held from then on. It is a fault if a call of the files
    /// failed, or if no memory is left.
    pub fn commit_of<F: Files>(
        &mut self,
        repository: &Repository<F>,
        alloc: Global,
        id: ObjectId,
    ) -> Result<ObjectId, Stopped>
        ensures { (r : plain.Repository) (commit : Id)
            → Stands F.is_honest F.history repository.now r → peeled r (id_of id) ≡ Some commit
            → HoldsMore F.reading_may_fail r self.old self.new (λ found. id_of found ≡ commit)
            result }
    {
        match self.read(repository, alloc, id)? {
            Some(commit) => {
                self.read(repository, alloc, commit)?;
                Ok(commit)
            }
            None => Ok(id),
        }
    }
}

// Returns the commit that a tag is of; `None` of a commit. Nothing is read.
fn tagged<F: Files>(
    repository: &Repository<F>,
    object: &Object,
) -> Result<Option<ObjectId>, Stopped>
    ensures { (r : plain.Repository) (id commit : Id)
        → Stands F.is_honest F.history repository.now r → IsAt (table_of r) id object.now
        → peeled r id ≡ Some commit
        → GivesMeant F.reading_may_fail (λ tagged. commit_or id tagged ≡ commit) result }
{
    match object.kind {
        Kind::Tag => {
            let commit = tag_target(repository.objects.kind(), &object.content);
            Ok(Some(commit.ok_or(Fault::File)?))
        }
        _ => Ok(None),
    }
}

/// A store, and objects that were read from it: they are looked up in it no more.
#[derive(Drop)]
pub struct HeldStore<'a, S> {
    /// The store.
    pub store: &'a S,
    /// The objects that were read.
    pub held: &'a HeldObjects,
}

impl<S: Lookup> Lookup for HeldStore<'_, S> {
    ghost table = { λ it. S.table it.store.now };

    ghost ids = { λ it. ids_of it.held.now.objects ++ S.ids it.store.now };

    ghost is_honest = { λ it. S.is_honest it.store.now × AreOf (S.table it.store.now) it.held.now };

    ghost may_fail = { λ it. S.may_fail it.store.now };
}

impl<S: FindInto> FindInto for HeldStore<'_, S> {
    fn find_into(&self, id: oid<'_>, buffer: &mut Vec<u8>) -> Result<Option<Kind>, Error> {
        let Some(object) = self.held.objects.get(&ObjectId::from(id)) else {
            return self.store.find_into(id, buffer);
        };
        buffer.clear();
        buffer.extend_from_slice(&object.content)?;
        Ok(Some(object.kind))
    }
}
