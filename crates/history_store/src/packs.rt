//! Packing of names: all those that aren't packed yet, by one transaction; whether a name is packed.
ghost use Rattle.std.specs.Prelude.{◌≡◌, ◌≢◌, ◌++◌, ◌∷◌, Err, [], List, Some, IfOk, IsErrOf, IsTrue, OnOk, option_map, unwrap_or};
ghost use Rattle.gix_hash.specs.Id.{id_of};
ghost use Rattle.gix_ref_file.specs.Calls.{Finds};
ghost use Rattle.gix_ref_file.specs.declared.files.FileError.TheVariants.{Failed};
ghost use Rattle.gix_ref_format.specs.Packed.{Record, record_of};
ghost use Rattle.gix_ref_format.specs.PackedKept.{kept};
ghost use Rattle.history_model.specs.Repository.{Repository};
ghost use Rattle.history_edits.specs.PackPlans.{AsksPack, AsksToPack, IsPackedSo};
ghost use Rattle.history_store.specs.Calls.{KeepsNames, PacksNamesOf};
ghost use Rattle.history_store.specs.Packing.{KeepsRecords};
ghost use Rattle.history_store.specs.Packed.{AsksPacks, MayPack, record_of_name, records_of};

use crate::faults::{full_name, of_preparing};
use crate::names::Names;
use gix_hash::ObjectId;
use gix_object_lookup::FindInto;
use gix_ref_edit::{Change, LogChange, PreviousValue, RefEdit};
use gix_ref_file::{FileError, Files};
use gix_ref_format::packed::Reference;
use gix_ref_name::{FullName, Target};
use gix_ref_transaction::PackedRefs;
use gix_ref_transaction::transaction::prepare_with;
use gix_ref_way::is_file;
use std::alloc::Global;

/// A name that is packed, and its id.
#[derive(Drop)]
pub struct PackedName {
    pub name: FullName,
    pub id: ObjectId,
    /// The commit that the name leads to, if the id is a tag's.
    pub peeled: Option<ObjectId>,
}

impl<F: Files> Names<F> {
    /// Packs these names, which are all, by one transaction: the lock of `packed-refs` and that of each name are made exclusively,
    /// `packed-refs` is written anew with a record for each, ascending by name, and then the names' own files are removed. A name
    /// that has no file of its own and its record already is left alone, and if all are so, nothing is written. No log changes. The
    /// objects say what tags lead to.
    ///
    /// Returns `Failed` if a call of the files or a lookup failed, or if a name doesn't hold its id or is locked, and `Memory` if
    /// memory ran out. After an error each name reads as before.
    pub fn pack_names<O: FindInto>(
        &mut self,
        alloc: Global,
        objects: &O,
        names: &[PackedName],
    ) -> Result<(), FileError>
        ensures keeps { KeepsNames F.Files (IsErrOf result Failed) self.old self.new }
        ensures packs { (r : Repository)
            → MayPack F.is_honest F.history self.old r (O.is_honest objects.now)
            (O.table objects.now) names.now
            → PacksNamesOf F.Files r (O.may_fail objects.now) self.old self.new result }
        ensures records { (r : Repository)
            → MayPack F.is_honest F.history self.old r (O.is_honest objects.now)
            (O.table objects.now) names.now
            → OnOk result (KeepsRecords self.new (F.history self.new.store.files).tree) }
    {
        let edits = self.edits_to_pack(alloc, names)?;
        if edits.as_slice().is_empty() {
            return Ok(());
        }
        self.pack(alloc, objects, edits)?;
        self.read_anew(alloc, None)
    }

    // Returns the edits that pack those of these names that aren't packed.
    fn edits_to_pack(&self, alloc: Global, names: &[PackedName]) -> Result<Vec<RefEdit>, FileError>
        ensures asks { Finds F.is_honest F.history self.now.store.files
            (λ tree. let records = unwrap_or (option_map kept self.now.packed) [] in
            IfOk result (λ edits. AsksToPack tree records (records_of names.now) edits.items)) }
        ensures failed { IsErrOf result Failed → F.reading_may_fail }
    {
        let mut edits = Vec::new(alloc);
        for named in names {
            self.add_edit(alloc, named, &mut edits)?;
        }
        Ok(edits)
    }

    // Adds the edit that packs the name, unless it is packed. Its lock can be made.
    fn add_edit(
        &self,
        alloc: Global,
        named: &PackedName,
        edits: &mut Vec<RefEdit>,
    ) -> Result<(), FileError>
        ensures asks { Finds F.is_honest F.history self.now.store.files
            (λ tree. let records = unwrap_or (option_map kept self.now.packed) [] in
            let last = record_of_name named.now in OnOk result ((wanted : List Record)
            → AsksToPack tree records wanted edits.old.items
            → AsksToPack tree records (wanted ++ last ∷ []) edits.new.items)) }
        ensures failed { IsErrOf result Failed → F.reading_may_fail }
    {
        if self.is_packed(named)? {
            return Ok(());
        }
        self.test_lock(alloc, named.name.to_path())?;
        let edit = edit_to_pack(alloc, named)?;
        edits.push(edit)?;
        Ok(())
    }

    // Returns whether the name has no file of its own, and this record.
    fn is_packed(&self, named: &PackedName) -> Result<bool, FileError>
        ensures packed { Finds F.is_honest F.history self.now.store.files
            (λ tree. let records = unwrap_or (option_map kept self.now.packed) [] in
            IfOk result (λ packed. IsTrue packed
            → IsPackedSo tree records (record_of_name named.now))) }
        ensures failed { IsErrOf result Failed → F.reading_may_fail }
    {
        if is_file(&self.store.files, named.name.to_path())? {
            return Ok(false);
        }
        Ok(is_record(self.record(named.name.as_ref()), named))
    }

    // Prepares these edits, by which names are packed, and commits them. The records that are kept stay as they were read.
    fn pack<O: FindInto>(
        &mut self,
        alloc: Global,
        objects: &O,
        edits: Vec<RefEdit>,
    ) -> Result<(), FileError>
        ensures keeps { KeepsNames F.Files (IsErrOf result Failed) self.old self.new }
        ensures packs { (r : Repository) (wanted : List Record)
            → AsksPacks F.is_honest F.history self.old r (O.is_honest objects.now)
            (O.table objects.now) wanted edits.items
            → PacksNamesOf F.Files r (O.may_fail objects.now) self.old self.new result }
    {
        let records = self.packed.as_ref();
        let mode = PackedRefs::DeletionsAndNonSymbolicUpdatesRemoveLooseSourceReference(objects);
        match prepare_with(alloc, &mut self.store, records, edits, None, mode) {
            Ok(made) => self.commit_made(alloc, made),
            Err(error) => Err(of_preparing(error)),
        }
    }
}

// Returns whether the record is the one that the name is to have.
fn is_record(found: Option<Reference<'_>>, named: &PackedName) -> bool
    ensures { IsTrue result → option_map record_of found.entry ≡ Some (record_of_name named.now) }
{
    match found {
        Some(record) => {
            record.name.to_path() == named.name.to_path()
                && record.target == named.id
                && are_same_id(record.object, named.peeled)
        }
        None => false,
    }
}

// Returns whether both are one id, or none.
fn are_same_id(one: Option<ObjectId>, other: Option<ObjectId>) -> bool
    ensures { IsTrue result → option_map id_of one ≡ option_map id_of other }
{
    match (one, other) {
        (Some(one), Some(other)) => one == other,
        (None, None) => true,
        (Some(_), None) | (None, Some(_)) => false,
    }
}

// Returns the edit by which the name, if it holds its id, is packed.
fn edit_to_pack(alloc: Global, named: &PackedName) -> Result<RefEdit, FileError>
    ensures asks { IfOk result (AsksPack (record_of_name named.now)) }
    ensures failed { result ≢ Err Failed }
{
    Ok(RefEdit {
        change: Change::Update {
            log: LogChange::new(alloc),
            expected: PreviousValue::MustExistAndMatch(Target::Object(named.id)),
            new: Target::Object(named.id),
        },
        name: full_name(alloc, named.name.as_bstr().as_bytes())?,
        deref: false,
    })
}
