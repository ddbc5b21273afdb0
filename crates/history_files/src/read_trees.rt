//! Trees that were read, kept by id (`ReadTrees`), and a store that looks them up before others (`TreeStore`).

ghost use Rattle.std.specs.Prelude.{◌++◌, IsErrOf, MatchOption, None, OnOk, ⊤};
ghost use Rattle.gix_hash.specs.Id.{id_of};
ghost use Rattle.gix_object_lines.specs.declared.kind.Kind.TheVariants as kinds;
ghost use Rattle.gix_object_lookup.specs.Existing.{Stands};
ghost use Rattle.gix_object_lookup.specs.Table.{Table};
ghost use Rattle.gix_object_lookup.specs.declared.find.Error.TheVariants as looked_up;
ghost use Rattle.history_files.specs.KeptTrees.{AreOf, ids_of, kept_or};

use gix_hash::{ObjectId, oid};
use gix_object_lines::Kind;
use gix_object_lookup::find::Error;
use gix_object_lookup::{FindInto, Lookup};
use std::alloc::{AllocError, Global};
use std::collections::BTreeMap;

/// The contents of trees, under their ids. A lookup of one fails only if memory runs out; of what
/// isn't kept it finds nothing.
#[derive(Drop)]
pub struct ReadTrees {
    contents: BTreeMap<ObjectId, Vec<u8>>,
}

impl ReadTrees {
    /// Returns no trees.
    pub fn new(alloc: Global) -> ReadTrees
        ensures { (table : Table) → AreOf table result }
    {
        ReadTrees {
            contents: BTreeMap::new(alloc),
        }
    }

    /// Returns the content of the tree of this id, if it is kept.
    pub fn content(&self, id: &ObjectId) -> Option<&[u8]>
        ensures { (table : Table) → AreOf table self.now → MatchOption result ⊤ (λ content.
            Stands table (id_of id.now) kinds.Tree content.now) }
    {
        Some(self.contents.get(id)?.as_slice())
    }

    // Adds a tree.
    fn keep(&mut self, id: ObjectId, content: Vec<u8>) -> Result<(), AllocError>
        ensures { (table : Table) → AreOf table self.old
            → Stands table (id_of id) kinds.Tree content.items → OnOk result (AreOf table self.new) }
    {
        self.contents.insert(id, content)?;
        Ok(())
    }

    /// Reads the tree of this id, unless it is kept, and keeps it. What isn't there, or is no tree,
    /// isn't kept.
    pub(crate) fn read<S: FindInto>(
        &mut self,
        alloc: Global,
        store: &S,
        id: &ObjectId,
    ) -> Result<(), Error>
        ensures kept { S.is_honest store.now → AreOf (S.table store.now) self.old
            → OnOk result (AreOf (S.table store.now) self.new) }
        ensures failed { IsErrOf result looked_up.Failed → S.may_fail store.now }
    {
        if self.contents.contains_key(id) {
            return Ok(());
        }
        let mut content = Vec::new(alloc);
        if let Some(Kind::Tree) = store.find_into(id.as_oid(), &mut content)? {
            self.keep(*id, content)?;
        }
        Ok(())
    }
}

impl Lookup for ReadTrees {
    ghost table = { λ it. kept_or it.contents (λ _. None) };

    ghost ids = { λ it. ids_of it.contents };

    ghost is_honest = { λ _. ⊤ };

    ghost may_fail = { λ _. ⊥ };
}

impl FindInto for ReadTrees {
    fn find_into(&self, id: oid<'_>, buffer: &mut Vec<u8>) -> Result<Option<Kind>, Error> {
        buffer.clear();
        let Some(content) = self.contents.get(&ObjectId::from(id)) else {
            return Ok(None);
        };
        buffer.extend_from_slice(content)?;
        Ok(Some(Kind::Tree))
    }
}

/// A store, and trees that were read from it: they are looked up in it no more.
#[derive(Drop)]
pub struct TreeStore<'a, S> {
    /// The store.
    pub store: &'a S,
    /// The trees that were read.
    pub read: &'a ReadTrees,
}

impl<S: Lookup> Lookup for TreeStore<'_, S> {
    ghost table = { λ it. S.table it.store.now };

    ghost ids = { λ it. ids_of it.read.now.contents ++ S.ids it.store.now };

    ghost is_honest = { λ it. S.is_honest it.store.now × AreOf (S.table it.store.now) it.read.now };

    ghost may_fail = { λ it. S.may_fail it.store.now };
}

impl<S: FindInto> FindInto for TreeStore<'_, S> {
    fn find_into(&self, id: oid<'_>, buffer: &mut Vec<u8>) -> Result<Option<Kind>, Error> {
        let Some(content) = self.read.contents.get(&ObjectId::from(id)) else {
            return self.store.find_into(id, buffer);
        };
        buffer.clear();
        buffer.extend_from_slice(content)?;
        Ok(Some(Kind::Tree))
    }
}
