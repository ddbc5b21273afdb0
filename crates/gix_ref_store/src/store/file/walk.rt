//! The walk over folders of files for a listing: names found, whether a file is the name's own, and its target.

ghost use Rattle.std.specs.Prelude.{◌≡◌, ◌<◌, ◌⊎◌, ℕ, List, IsTrue, IsFalse, IfOk, IfErr, OnOk, length};
ghost use Rattle.std.specs.BTreeMap.{keys};
ghost use Rattle.gix_object_lines.specs.NameTest.{is_full_name};
ghost use Rattle.gix_ref_file.specs.Tree.{node_at, is_folder, under};
ghost use Rattle.gix_ref_store.specs.Asks.{is_asked, leads};
ghost use Rattle.gix_ref_store.specs.Listings.{is_pseudo};
ghost use Rattle.gix_ref_store.specs.OwnFiles.{IsOfText, KnowsFiles, is_read};
ghost use Rattle.gix_ref_store.specs.Places.{place};
ghost use Rattle.gix_ref_store.specs.RefStates.{loose_text_at};
ghost use Rattle.gix_ref_store.specs.Stores.{base_of};
ghost use Rattle.gix_ref_store.specs.Walks.{Keeps, BringsAsked, GathersBelow, Gathers, MayStop, has};

use crate::store::file::asked::Asked;
use crate::store::file::iter::Error;
use crate::store::file::own::{Names, OwnFile};
use crate::store::file::{Store, find};
use gix_object_lines::ByteString;
use gix_object_lines::lines::is_capitals;
use gix_ref_file::Files;
use gix_ref_file::paths::{is_deeper, joined};
use gix_ref_name::FullName;
use std::alloc::{AllocError, Global};

// A store, a folder of its files whose paths are names, and which names are wanted.
#[derive(Drop)]
pub(crate) struct Walk<'a, F: Files> {
    pub(crate) alloc: Global,
    pub(crate) store: &'a Store<F>,
    pub(crate) base: &'a [u8],
    pub(crate) asked: Asked<'a>,
}

impl<F: Files> Walk<'_, F> {
    // Adds the wanted names that have a file below this folder of names. It enters no folder in
    // which none of them can be.
    pub(crate) fn below(&self, folder: &[u8], names: &mut Names) -> Result<(), Error>
        requires { 0 < length folder.now }
        ensures kept { Keeps (keys names.old) (keys names.new) }
        ensures asked { BringsAsked (is_asked self.now.asked) (keys names.old) (keys names.new) }
        ensures all { F.is_honest self.now.store.now.files
            → OnOk result (GathersBelow (F.history self.now.store.now.files).tree self.now.base.now
            (is_asked self.now.asked) folder.now (keys names.new)) }
        ensures told { F.is_honest self.now.store.now.files
            → let tree = (F.history self.now.store.now.files).tree in
            KnowsFiles (base_of self.now.store.now) tree names.old.entries
            → OnOk result (KnowsFiles (base_of self.now.store.now) tree names.new.entries) }
        ensures failed { IfErr result (MayStop F.reading_may_fail) }
    {
        let place = joined(self.alloc, self.base, folder)?;
        for name in &self.store.files.list(self.alloc, &place)? {
            let path = joined(self.alloc, folder, name)?;
            if !is_deeper(&path, folder) {
                // No path is so long.
                continue;
            }
            let more = self.put(&path, names)?;
            if more {
                self.below(&path, names)?;
            }
        }
        Ok(())
    }

    // Adds the name of this path, if it is wanted, and returns whether wanted names may be below
    // the path.
    fn put(&self, path: &[u8], names: &mut Names) -> Result<bool, Error>
        ensures kept { Keeps (keys names.old) (keys names.new) }
        ensures asked { BringsAsked (is_asked self.now.asked) (keys names.old) (keys names.new) }
        ensures there { IsTrue (is_full_name path.now) → IsTrue (is_asked self.now.asked path.now)
            → OnOk result (IsTrue (has (keys names.new) path.now)) }
        ensures told { F.is_honest self.now.store.now.files
            → let tree = (F.history self.now.store.now.files).tree in
            KnowsFiles (base_of self.now.store.now) tree names.old.entries
            → OnOk result (KnowsFiles (base_of self.now.store.now) tree names.new.entries) }
        ensures folder { F.is_honest self.now.store.now.files
            → let tree = (F.history self.now.store.now.files).tree in
            IsTrue (leads self.now.asked path.now)
            → IsTrue (is_folder (node_at tree (under self.now.base.now path.now)))
            → IfOk result (λ more. IsTrue more) }
        ensures failed { IfErr result (MayStop ⊥) }
    {
        if !self.asked.may_be_at(self.alloc, path)? {
            return Ok(false);
        }
        match self.asked.name_of(self.alloc, path)? {
            Some(name) => self.keep(path, name, names),
            None => Ok(true),
        }
    }

    // Adds a name that was met at this path, with what its own file says, and returns whether
    // something may be below the path.
    fn keep(&self, path: &[u8], name: FullName, names: &mut Names) -> Result<bool, Error>
        ensures kept { Keeps (keys names.old) (keys names.new) }
        ensures only { (other : List ℕ) → IsTrue (has (keys names.new) other)
            → IsTrue (has (keys names.old) other) ⊎ (other ≡ name) }
        ensures there { OnOk result (IsTrue (has (keys names.new) name)) }
        ensures told { F.is_honest self.now.store.now.files
            → let tree = (F.history self.now.store.now.files).tree in
            KnowsFiles (base_of self.now.store.now) tree names.old.entries
            → OnOk result (KnowsFiles (base_of self.now.store.now) tree names.new.entries) }
        ensures folder { F.is_honest self.now.store.now.files
            → let tree = (F.history self.now.store.now.files).tree in
            IsTrue (is_folder (node_at tree (under self.now.base.now path.now)))
            → IfOk result (λ more. IsTrue more) }
        ensures failed { IfErr result (MayStop ⊥) }
    {
        let own = self.own_file(path, &name)?;
        let more = !own.is_read();
        names.insert(name, own)?;
        Ok(more)
    }

    // What is known of the file of a name that was met at this path. It isn't read if it is at
    // another path, or if the reading failed.
    fn own_file(&self, path: &[u8], name: &FullName) -> Result<OwnFile, Error>
        ensures full { IsTrue (is_full_name name.now) }
        ensures told { F.is_honest self.now.store.now.files
            → let tree = (F.history self.now.store.now.files).tree in
            IfOk result (IsOfText (base_of self.now.store.now).kind
            (loose_text_at (base_of self.now.store.now) tree name.now)) }
        ensures file { F.is_honest self.now.store.now.files
            → let tree = (F.history self.now.store.now.files).tree in
            IfOk result (λ own. IsTrue (is_read own)
            → IsFalse (is_folder (node_at tree (under self.now.base.now path.now)))) }
        ensures failed { IfErr result (MayStop ⊥) }
    {
        let bytes = name.as_bstr().as_bytes();
        if !self.is_own(path, bytes)? {
            return Ok(OwnFile::Unread);
        }
        match self.store.target_in_file(self.alloc, bytes) {
            Ok(Some(target)) => Ok(OwnFile::Holds(target)),
            Ok(None) => Ok(OwnFile::Missing),
            Err(find::Error::ReferenceCreation(reason)) => Ok(OwnFile::Faulty(reason)),
            Err(find::Error::ReadFileContents) => Ok(OwnFile::Unread),
            Err(_) => Err(Error::Memory),
        }
    }

    // Returns whether a name's own file is the one at this path.
    fn is_own(&self, path: &[u8], name: &[u8]) -> Result<bool, AllocError>
        ensures { IfOk result (λ own. IsTrue own
            → place (base_of self.now.store.now) name.now ≡ under self.now.base.now path.now) }
    {
        let own = self.store.home(name).place(self.alloc)?;
        let here = joined(self.alloc, self.base, path)?;
        Ok(own.as_slice() == here.as_slice())
    }

    // Adds the names of the folder that are those of pseudo references.
    pub(crate) fn pseudo(&self, names: &mut Names) -> Result<(), Error>
        ensures kept { Keeps (keys names.old) (keys names.new) }
        ensures asked { BringsAsked is_pseudo (keys names.old) (keys names.new) }
        ensures all { F.is_honest self.now.store.now.files
            → OnOk result (Gathers (F.history self.now.store.now.files).tree self.now.base.now
            is_pseudo (keys names.new)) }
        ensures told { F.is_honest self.now.store.now.files
            → let tree = (F.history self.now.store.now.files).tree in
            KnowsFiles (base_of self.now.store.now) tree names.old.entries
            → OnOk result (KnowsFiles (base_of self.now.store.now) tree names.new.entries) }
        ensures failed { IfErr result (MayStop F.reading_may_fail) }
    {
        for name in &self.store.files.list(self.alloc, self.base)? {
            self.put_pseudo(name, names)?;
        }
        Ok(())
    }

    // Adds the name of this path, if it is that of a pseudo reference.
    fn put_pseudo(&self, path: &[u8], names: &mut Names) -> Result<(), Error>
        ensures kept { Keeps (keys names.old) (keys names.new) }
        ensures asked { BringsAsked is_pseudo (keys names.old) (keys names.new) }
        ensures there { IsTrue (is_full_name path.now) → IsTrue (is_pseudo path.now)
            → OnOk result (IsTrue (has (keys names.new) path.now)) }
        ensures told { F.is_honest self.now.store.now.files
            → let tree = (F.history self.now.store.now.files).tree in
            KnowsFiles (base_of self.now.store.now) tree names.old.entries
            → OnOk result (KnowsFiles (base_of self.now.store.now) tree names.new.entries) }
        ensures failed { IfErr result (MayStop ⊥) }
    {
        if is_capitals(path) && path.ends_with(b"HEAD") {
            return self.put_full(path, names);
        }
        Ok(())
    }

    // Adds the name of this path, if it is a full one.
    fn put_full(&self, path: &[u8], names: &mut Names) -> Result<(), Error>
        ensures kept { Keeps (keys names.old) (keys names.new) }
        ensures only { (other : List ℕ) → IsTrue (has (keys names.new) other)
            → IsTrue (has (keys names.old) other) ⊎ (other ≡ path.now) }
        ensures there { IsTrue (is_full_name path.now)
            → OnOk result (IsTrue (has (keys names.new) path.now)) }
        ensures told { F.is_honest self.now.store.now.files
            → let tree = (F.history self.now.store.now.files).tree in
            KnowsFiles (base_of self.now.store.now) tree names.old.entries
            → OnOk result (KnowsFiles (base_of self.now.store.now) tree names.new.entries) }
        ensures failed { IfErr result (MayStop ⊥) }
    {
        match FullName::new(ByteString::from_slice(self.alloc, path)?) {
            Ok(name) => {
                self.keep(path, name, names)?;
                Ok(())
            }
            Err(_) => Ok(()),
        }
    }
}
