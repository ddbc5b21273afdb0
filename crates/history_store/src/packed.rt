//! The records of `packed-refs`: read and kept, read anew after a transaction, and looked up by name.
ghost use Rattle.std.specs.Prelude.{◌≡◌, IfErr, IfOk, MatchResult, None, OnOk, IsErrOf, IsTrue, is_some, option_map};
ghost use Rattle.gix_ref_file.specs.Calls.{Finds};
ghost use Rattle.gix_ref_file.specs.declared.files.FileError.TheVariants.{Failed};
ghost use Rattle.gix_ref_format.specs.Packed.{record_of};
ghost use Rattle.gix_ref_format.specs.PackedBuffer.{FileFault, KeepsFile};
ghost use Rattle.gix_ref_format.specs.PackedKept.{kept};
ghost use Rattle.gix_ref_format.specs.declared.packed.buffer.Error.TheVariants.{Io};
ghost use Rattle.gix_ref_name.specs.Names.{name_of};
ghost use Rattle.history_model.specs.Forms.{is_name};
ghost use Rattle.history_model.specs.Places.{file_at, packed_place};
ghost use Rattle.history_store.specs.Changing.{IsReadable};
ghost use Rattle.history_store.specs.Packing.{KeepsRecords, kept_hit};

use crate::faults::of_opening;
use crate::names::Names;
use gix_ref_file::{FileError, Files};
use gix_ref_format::packed::buffer::Error;
use gix_ref_format::packed::{Buffer, Reference};
use gix_ref_name::FullNameRef;
use std::alloc::Global;

/// The path of the records.
pub const PACKED: &[u8] = b"packed-refs";

impl<F: Files> Names<F> {
    /// Returns what `packed-refs` has in it; `None` if there is no such file.
    ///
    /// Returns `Failed` if the file call failed, and `Memory` if memory ran out.
    pub fn read_packed(&self, alloc: Global) -> Result<Option<Vec<u8>>, FileError>
        ensures found { Finds F.is_honest F.history self.now.store.files
            (λ tree. IfOk result (λ text.
            option_map (λ text. text.items) text ≡ file_at tree packed_place)) }
        ensures failed { IsErrOf result Failed → F.reading_may_fail }
    {
        let mut text = Vec::new(alloc);
        match self.store.files.read(PACKED, &mut text)? {
            Some(_) => Ok(Some(text)),
            None => Ok(None),
        }
    }

    /// Keeps the records of this text of `packed-refs` from then on; none if there is no text.
    ///
    /// Returns `Memory` if memory ran out, and otherwise the fault of the text.
    pub fn keep_packed(&mut self, alloc: Global, text: Option<Vec<u8>>) -> Result<(), Error>
        ensures files { self.new.store.files ≡ self.old.store.files }
        ensures kind { self.new.kind ≡ self.old.kind }
        ensures keeps { OnOk result (KeepsFile self.new.kind
            (option_map (λ text. text.items) text) (option_map kept self.new.packed)) }
        ensures faulty { IfErr result
            (FileFault self.new.kind (option_map (λ text. text.items) text)) }
    {
        self.packed = match text {
            Some(text) => Some(Buffer::from_bytes(alloc, text, self.kind)?),
            None => None,
        };
        Ok(())
    }

    // Reads `packed-refs` anew, from which only this name's record went if one is given.
    pub(crate) fn read_less(&mut self, alloc: Global, gone: Option<&[u8]>) -> Result<(), Error>
        ensures files { self.new.store.files ≡ self.old.store.files }
        ensures kind { self.new.kind ≡ self.old.kind }
        ensures keeps { Finds F.is_honest F.history self.new.store.files
            (λ tree. OnOk result (KeepsRecords self.new tree)) }
        ensures faulty { Finds F.is_honest F.history self.new.store.files
            (λ tree. IfErr result (FileFault self.new.kind (file_at tree packed_place))) }
        ensures failed { IsErrOf result Io → F.reading_may_fail }
    {
        self.packed = self.records_without(alloc, gone)?;
        Ok(())
    }

    // Returns the records of `packed-refs`, by those that were kept but for the name's, which are
    // given up.
    fn records_without(
        &mut self,
        alloc: Global,
        gone: Option<&[u8]>,
    ) -> Result<Option<Buffer>, Error>
        ensures files { self.new.store.files ≡ self.old.store.files }
        ensures kind { self.new.kind ≡ self.old.kind }
        ensures kept { Finds F.is_honest F.history self.new.store.files (λ tree. MatchResult result
            (λ found. KeepsFile self.new.kind (file_at tree packed_place) (option_map kept found))
            (FileFault self.new.kind (file_at tree packed_place))) }
        ensures failed { IsErrOf result Io → F.reading_may_fail }
    {
        let files = &self.store.files;
        let Some(name) = gone else {
            return Buffer::open(alloc, files, PACKED, self.kind);
        };
        match (self.packed.take(), FullNameRef::new(name)) {
            (Some(before), Ok(gone)) => {
                before.open_without(alloc, &self.store.files, PACKED, self.kind, gone)
            }
            _ => Buffer::open(alloc, &self.store.files, PACKED, self.kind),
        }
    }

    // Reads the records anew if the name, which is deleted, had one.
    pub(crate) fn reread(&mut self, alloc: Global, name: &[u8]) -> Result<(), FileError>
        ensures files { self.new.store.files ≡ self.old.store.files }
        ensures kind { self.new.kind ≡ self.old.kind }
        ensures keeps { Finds F.is_honest F.history self.new.store.files (λ tree.
            (kept_hit self.old.packed name.now ≡ None → KeepsRecords self.old tree)
            → IsTrue (is_name name.now) → OnOk result (KeepsRecords self.new tree)) }
        ensures failed { Finds F.is_honest F.history self.new.store.files (λ tree.
            IsReadable self.new.kind tree → IsErrOf result Failed → F.reading_may_fail) }
    {
        if !self.has_record(name) {
            return Ok(());
        }
        self.read_anew(alloc, Some(name))
    }

    // Reads the records anew, from which only this name's went if one is given.
    pub(crate) fn read_anew(&mut self, alloc: Global, gone: Option<&[u8]>) -> Result<(), FileError>
        ensures files { self.new.store.files ≡ self.old.store.files }
        ensures kind { self.new.kind ≡ self.old.kind }
        ensures keeps { Finds F.is_honest F.history self.new.store.files
            (λ tree. OnOk result (KeepsRecords self.new tree)) }
        ensures failed { Finds F.is_honest F.history self.new.store.files (λ tree.
            IsReadable self.new.kind tree → IsErrOf result Failed → F.reading_may_fail) }
    {
        match self.read_less(alloc, gone) {
            Ok(()) => Ok(()),
            Err(error) => Err(of_opening(error)),
        }
    }

    // Returns the name's record.
    pub(crate) fn record(&self, name: FullNameRef<'_>) -> Option<Reference<'_>>
        ensures { option_map record_of result ≡ kept_hit self.now.packed (name_of name.entry) }
    {
        self.packed.as_ref()?.try_find_full_name(name)
    }

    // Returns whether the name has a record.
    pub(crate) fn has_record(&self, name: &[u8]) -> bool
        ensures { IsTrue (is_name name.now) → result ≡ is_some (kept_hit self.now.packed name.now) }
    {
        match FullNameRef::new(name) {
            Ok(full) => self.record(full).is_some(),
            Err(_) => false,
        }
    }
}
