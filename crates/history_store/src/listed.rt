//! The id that one name reads as (`find`), and the names below a folder that read as ids (`list_all`).
ghost use Rattle.std.specs.Prelude.{◌≡◌, ◌++◌, ◌∷◌, [], false, map, option_map, IfOk, OnOk, IsErrOf};
ghost use Rattle.gix_hash.specs.Id.{id_of};
ghost use Rattle.gix_object_lines.specs.NameTest.{begins};
ghost use Rattle.gix_ref_file.specs.Calls.{Finds};
ghost use Rattle.gix_ref_file.specs.declared.files.FileError.TheVariants.{Failed};
ghost use Rattle.gix_ref_name.specs.Targets.{id_in, target_view};
ghost use Rattle.gix_ref_store.specs.Finds.{met_of};
ghost use Rattle.gix_ref_store.specs.Items.{left_in};
ghost use Rattle.gix_ref_store.specs.Listings.{IsListing, is_listed};
ghost use Rattle.gix_ref_store.specs.RefStates.{ref_state};
ghost use Rattle.history_edits.specs.Bridges.{root_base};
ghost use Rattle.history_store.specs.AllNames.{ListsAll, entries_of, name_entry};
ghost use Rattle.history_store.specs.Faults as faults;
ghost use Rattle.history_store.specs.Packing.{KeepsRecords, NameReads};

use crate::faults::full_name;
use crate::names::Names;
use gix_hash::ObjectId;
use gix_ref_file::{FileError, Files};
use gix_ref_name::Target;
use gix_ref_store::Reference;
use gix_ref_store::store::file::iter::LooseThenPacked;
use gix_ref_store::store::file::{find, iter};
use history_texts::is_name;
use std::alloc::{AllocError, Global};

/// A name, and the id that it reads as.
#[derive(Drop)]
pub struct NamedId {
    pub name: Vec<u8>,
    pub id: ObjectId,
}

impl<F: Files> Names<F> {
    /// Returns the id that a name holds, as `gix_ref` reads it: that in its own file, else that in
    /// its record. `None` if it holds none, and if it is no name that a repository may hold.
    ///
    /// Returns `Failed` if a file call failed, and `Memory` if memory ran out.
    pub fn find(&self, alloc: Global, name: &[u8]) -> Result<Option<ObjectId>, FileError>
        ensures found { Finds F.is_honest F.history self.now.store.files
            (λ tree. KeepsRecords self.now tree
            → IfOk result (λ found. NameReads self.now.kind tree name.now found)) }
        ensures failed { IsErrOf result Failed → F.reading_may_fail }
    {
        if !is_name(name) {
            return Ok(None);
        }
        let full = full_name(alloc, name)?;
        match self.store.try_read(alloc, full, self.packed.as_ref()) {
            Ok(Some(Reference { target, .. })) => Ok(id_of_target(target)),
            Ok(None) => Ok(None),
            Err(find::Error::Memory) => Err(FileError::Memory),
            Err(find::Error::ReadFileContents) => Err(FileError::Failed),
            // Its file names no target.
            Err(find::Error::ReferenceCreation(_)) => Ok(None),
            // Records that are given aren't opened.
            Err(find::Error::PackedOpen(_)) => Ok(None),
        }
    }

    /// Returns the names below a folder that read as an id, with these, ascending by the names'
    /// bytes: those that `gix_ref` lists, by their own files and by records. What is no name that a
    /// repository may hold is passed over. The folder is listed, and those below it.
    ///
    /// Returns `Failed` if a file call failed, and `Memory` if memory ran out.
    pub fn list_all(&self, alloc: Global, folder: &[u8]) -> Result<Vec<NamedId>, FileError>
        ensures found { Finds F.is_honest F.history self.now.store.files
            (λ tree. KeepsRecords self.now tree
            → IfOk result (λ names. ListsAll self.now.kind tree folder.now names.items)) }
        ensures failed { IsErrOf result Failed → F.reading_may_fail }
    {
        let mut items = self.below(alloc, folder)?;
        let mut names = Vec::new(alloc);
        while let Some(item) = items.next() {
            match item {
                Ok(found) => push_named(&mut names, found)?,
                Err(error) => pass_over(error)?,
            }
        }
        Ok(names)
    }

    // Returns the references below a folder.
    fn below(&self, alloc: Global, folder: &[u8]) -> Result<LooseThenPacked<'_, '_, F>, FileError>
        ensures store { IfOk result (λ items. items.search.store.now ≡ self.now.store) }
        ensures listed { Finds F.is_honest F.history self.now.store.files
            (λ tree. KeepsRecords self.now tree
            → IfOk result (λ items. IsListing (ref_state (root_base self.now.kind) tree)
            (is_listed false (begins (folder.now ++ 47 ∷ []))) (left_in tree items))) }
        ensures failed { IsErrOf result Failed → F.reading_may_fail }
    {
        let mut front = Vec::from_slice(alloc, folder)?;
        front.push(b'/')?;
        match self
            .store
            .iter_prefixed_packed(alloc, &front, self.packed.as_ref())
        {
            Ok(items) => Ok(items),
            Err(iter::Error::Memory) => Err(FileError::Memory),
            Err(_) => Err(FileError::Failed),
        }
    }
}

// Passes over a file that names no target. Another error ends the listing.
fn pass_over(error: iter::Error) -> Result<(), FileError>
    ensures { result ≡ faults.passing_over error }
{
    match error {
        iter::Error::ReferenceCreation { .. } => Ok(()),
        iter::Error::Memory => Err(FileError::Memory),
        iter::Error::Traversal => Err(FileError::Failed),
        iter::Error::ReadFileContents { .. } => Err(FileError::Failed),
    }
}

// Returns the id of the object that a reference points to; `None` if it points to a name.
fn id_of_target(target: Target) -> Option<ObjectId>
    ensures { option_map id_of result ≡ id_in (target_view target) }
{
    match target {
        Target::Object(id) => Some(id),
        Target::Symbolic(_) => None,
    }
}

// Adds the name of a reference and the id that it points to, if it points to one, and a repository
// may hold the name.
fn push_named(names: &mut Vec<NamedId>, found: Reference) -> Result<(), AllocError>
    ensures { OnOk result (map name_entry names.new.items
        ≡ map name_entry names.old.items ++ entries_of (met_of found ∷ [])) }
{
    let Reference { name, target, .. } = found;
    let Some(id) = id_of_target(target) else {
        return Ok(());
    };
    if !is_name(name.to_path()) {
        return Ok(());
    }
    let name = name.into_inner().into_vec();
    names.push(NamedId { name, id })?;
    Ok(())
}
