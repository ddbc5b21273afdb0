//! The names that a listing goes over, collected from files, packed records and pseudo references.

ghost use Rattle.std.specs.BTreeMap.{keys};
ghost use Rattle.std.specs.Prelude.{◌≡◌, ◌⊎◌, ℕ, List, IsTrue, IfErr, OnOk};
ghost use Rattle.gix_object_lines.specs.NameTest.{is_full_name};
ghost use Rattle.gix_ref_format.specs.Packed.{record_of};
ghost use Rattle.gix_ref_format.specs.PackedKept.{kept};
ghost use Rattle.gix_ref_store.specs.Asks.{is_asked};
ghost use Rattle.gix_ref_store.specs.Listings.{is_pseudo};
ghost use Rattle.gix_ref_store.specs.OwnFiles.{BringsMissing, KnowsFiles};
ghost use Rattle.gix_ref_store.specs.Stores.{base_of};
ghost use Rattle.gix_ref_store.specs.Walks.{Keeps, BringsAsked, Gathers, GathersPlaces, GathersRecords, MayStop, has};

use crate::store::file::Store;
use crate::store::file::asked::Asked;
use crate::store::file::iter::Error;
use crate::store::file::own::{Names, OwnFile};
use crate::store::file::walk::Walk;
use gix_ref_file::Files;
use gix_ref_format::packed::{Buffer, Reference};
use gix_ref_name::FullName;
use std::alloc::Global;

impl<F: Files> Store<F> {
    // Adds the wanted names that have files of their own.
    pub(crate) fn put_loose(
        &self,
        alloc: Global,
        asked: Asked<'_>,
        names: &mut Names,
    ) -> Result<(), Error>
        ensures kept { Keeps (keys names.old) (keys names.new) }
        ensures asked { BringsAsked (is_asked asked.entry) (keys names.old) (keys names.new) }
        ensures all { F.is_honest self.now.files
            → OnOk result (GathersPlaces (base_of self.now) (F.history self.now.files).tree
            (is_asked asked.entry) (keys names.new)) }
        ensures told { F.is_honest self.now.files
            → let tree = (F.history self.now.files).tree in
            KnowsFiles (base_of self.now) tree names.old.entries
            → OnOk result (KnowsFiles (base_of self.now) tree names.new.entries) }
        ensures failed { IfErr result (MayStop F.reading_may_fail) }
    {
        self.put_below(alloc, self.git_dir(), asked, names)?;
        match &self.common_dir {
            Some(folder) => self.put_below(alloc, folder, asked, names),
            None => Ok(()),
        }
    }

    // The same of those with files below this folder.
    fn put_below(
        &self,
        alloc: Global,
        base: &[u8],
        asked: Asked<'_>,
        names: &mut Names,
    ) -> Result<(), Error>
        ensures kept { Keeps (keys names.old) (keys names.new) }
        ensures asked { BringsAsked (is_asked asked.entry) (keys names.old) (keys names.new) }
        ensures all { F.is_honest self.now.files
            → OnOk result (Gathers (F.history self.now.files).tree base.now
            (is_asked asked.entry) (keys names.new)) }
        ensures told { F.is_honest self.now.files
            → let tree = (F.history self.now.files).tree in
            KnowsFiles (base_of self.now) tree names.old.entries
            → OnOk result (KnowsFiles (base_of self.now) tree names.new.entries) }
        ensures failed { IfErr result (MayStop F.reading_may_fail) }
    {
        let walk = Walk {
            alloc,
            store: self,
            base,
            asked,
        };
        walk.below(asked.folder(), names)
    }

    // Adds the names of pseudo references.
    pub(crate) fn put_pseudo(&self, alloc: Global, names: &mut Names) -> Result<(), Error>
        ensures kept { Keeps (keys names.old) (keys names.new) }
        ensures asked { BringsAsked is_pseudo (keys names.old) (keys names.new) }
        ensures all { F.is_honest self.now.files
            → OnOk result (GathersPlaces (base_of self.now) (F.history self.now.files).tree
            is_pseudo (keys names.new)) }
        ensures told { F.is_honest self.now.files
            → let tree = (F.history self.now.files).tree in
            KnowsFiles (base_of self.now) tree names.old.entries
            → OnOk result (KnowsFiles (base_of self.now) tree names.new.entries) }
        ensures failed { IfErr result (MayStop F.reading_may_fail) }
    {
        let walk = Walk {
            alloc,
            store: self,
            base: self.git_dir(),
            asked: Asked {
                front: b"",
                is_whole: false,
                composes: false,
            },
        };
        walk.pseudo(names)
    }
}

// Adds the wanted names that have a record. Those that are new have no files.
pub(crate) fn put_packed(
    alloc: Global,
    packed: &Buffer,
    asked: Asked<'_>,
    names: &mut Names,
) -> Result<(), Error>
    ensures kept { Keeps (keys names.old) (keys names.new) }
    ensures asked { BringsAsked (is_asked asked.entry) (keys names.old) (keys names.new) }
    ensures all { OnOk result
        (GathersRecords (kept packed.now) (is_asked asked.entry) (keys names.new)) }
    ensures missing { BringsMissing names.old.entries names.new.entries }
    ensures failed { IfErr result (MayStop ⊥) }
{
    let mut records = packed.iter_prefixed(asked.front);
    while let Some(found) = records.next() {
        put_record(alloc, found, asked, names)?;
    }
    Ok(())
}

// Adds the name of a record, if it is wanted.
fn put_record(
    alloc: Global,
    found: Reference<'_>,
    asked: Asked<'_>,
    names: &mut Names,
) -> Result<(), Error>
    ensures kept { Keeps (keys names.old) (keys names.new) }
    ensures asked { BringsAsked (is_asked asked.entry) (keys names.old) (keys names.new) }
    ensures there { let name = (record_of found.entry).name in IsTrue (is_asked asked.entry name)
        → OnOk result (IsTrue (has (keys names.new) name)) }
    ensures missing { BringsMissing names.old.entries names.new.entries }
    ensures failed { IfErr result (MayStop ⊥) }
{
    match asked.name_of(alloc, found.name.as_bstr().as_bytes())? {
        Some(name) => put_recorded(name, names),
        None => Ok(()),
    }
}

// Adds a name that has a record: a new one has no file.
fn put_recorded(name: FullName, names: &mut Names) -> Result<(), Error>
    ensures kept { Keeps (keys names.old) (keys names.new) }
    ensures only { (other : List ℕ) → IsTrue (has (keys names.new) other)
        → IsTrue (has (keys names.old) other) ⊎ (other ≡ name) }
    ensures there { OnOk result (IsTrue (has (keys names.new) name)) }
    ensures missing { IsTrue (is_full_name name)
        → BringsMissing names.old.entries names.new.entries }
    ensures failed { IfErr result (MayStop ⊥) }
{
    if names.contains_key(&name) {
        return Ok(());
    }
    names.insert(name, OwnFile::Missing)?;
    Ok(())
}
