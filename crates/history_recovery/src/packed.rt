//! Whether a file is left over: a lock file, or the log of an absent name, by files and `packed-refs`, read once.
ghost use Rattle.std.specs.Prelude.{◌≡◌, is_none, IfOk, IsErrOf, IsTrue};
ghost use Rattle.gix_ref_format.specs.Lookup.{packed_hit};
ghost use Rattle.gix_ref_format.specs.PackedKept.{kept};
ghost use Rattle.gix_ref_file.specs.Calls.{Finds};
ghost use Rattle.gix_ref_file.specs.declared.files.FileError.TheVariants.{Failed};
ghost use Rattle.std.specs.Str.{is_utf8};
ghost use Rattle.history_model.specs.Forms as forms;
ghost use Rattle.history_model.specs.NameStates as states;
ghost use Rattle.history_recovery.specs.Clearing.{Tells, lacks, is_over};
ghost use Rattle.gix_ref_file.specs.Changes.{is_file_at};
ghost use Rattle.gix_hash.specs.declared.kind.Kind.{Kind};

use gix_hash::Kind;
use gix_object_lines::lines::is_partial_name;
use gix_ref_file::{FileError, Files, Place};
use gix_ref_format::packed::Buffer;
use gix_ref_format::packed::buffer::Error;
use gix_ref_name::FullNameRef;
use history_model::limits::MAX_NAME;
use history_model::names::REFS;
use std::alloc::Global;

const PACKED: &[u8] = b"packed-refs";

/// What `packed-refs` says.
#[derive(Debug, Drop)]
pub(crate) enum Packed {
    /// Nothing: there is no such file.
    Absent,
    /// Its records.
    Records(Buffer),
    /// Nothing that can be read: then no name reads as absent, even if it has no file.
    Faulty,
}

impl Packed {
    /// Reads the file, whose ids are of this kind.
    pub(crate) fn read<F: Files>(alloc: Global, files: &F, kind: Kind) -> Result<Packed, FileError>
        ensures tells { Finds F.is_honest F.history files.now
            (λ tree. IfOk result (Tells kind tree)) }
        ensures failed { IsErrOf result Failed → F.reading_may_fail }
    {
        match Buffer::open(alloc, files, PACKED, kind) {
            Ok(Some(records)) => Ok(Packed::Records(records)),
            Ok(None) => Ok(Packed::Absent),
            Err(Error::Iter { .. }) => Ok(Packed::Faulty),
            Err(Error::HeaderParsing) => Ok(Packed::Faulty),
            Err(Error::Io) => Err(FileError::Failed),
            Err(Error::Memory) => Err(FileError::Memory),
        }
    }

    /// Returns whether a file is left over: a lock file, or a log whose name reads as absent.
    pub(crate) fn is_over<F: Files>(&self, files: &F, path: &[u8]) -> Result<bool, FileError>
        ensures found { (kind : Kind) → Finds F.is_honest F.history files.now
            (λ tree. Tells kind tree self.now
            → IfOk result (λ over. over ≡ is_over kind tree path.now)) }
        ensures failed { IsErrOf result Failed → F.reading_may_fail }
    {
        if path.ends_with(b".lock") {
            return Ok(true);
        }
        if !path.starts_with(b"logs/") {
            return Ok(false);
        }
        self.is_absent(files, &path[5..])
    }

    // Returns whether the name reads as absent, as anything does that is no name.
    fn is_absent<F: Files>(&self, files: &F, name: &[u8]) -> Result<bool, FileError>
        ensures found { (kind : Kind) → Finds F.is_honest F.history files.now
            (λ tree. Tells kind tree self.now → IfOk result
            (λ absent. absent ≡ states.is_absent (states.name_state kind tree name.now))) }
        ensures failed { IsErrOf result Failed → F.reading_may_fail }
    {
        if !is_name(name) {
            return Ok(true);
        }
        if is_file(files, name)? {
            return Ok(false);
        }
        Ok(self.lacks(name))
    }

    // Returns whether there is no record of the name, in a file that is readable or missing.
    fn lacks(&self, name: &[u8]) -> bool
        ensures { IsTrue (forms.is_name name.now) → result ≡ lacks self.now name.now }
    {
        match self {
            Packed::Absent => true,
            Packed::Faulty => false,
            Packed::Records(records) => has_no_record(records, name),
        }
    }
}

// Returns whether there is no record of the name.
fn has_no_record(records: &Buffer, name: &[u8]) -> bool
    ensures { IsTrue (forms.is_name name.now)
        → result ≡ is_none (packed_hit (kept records.now) name.now) }
{
    match FullNameRef::new(name) {
        Ok(full) => records.try_find_full_name(full).is_none(),
        Err(_) => true,
    }
}

fn is_file<F: Files>(files: &F, path: &[u8]) -> Result<bool, FileError>
    ensures found { Finds F.is_honest F.history files.now
        (λ tree. IfOk result (λ found. found ≡ is_file_at tree path.now)) }
    ensures failed { IsErrOf result Failed → F.reading_may_fail }
{
    match files.kind_of(path)? {
        Place::File(_) => Ok(true),
        Place::Folder => Ok(false),
        Place::Absent => Ok(false),
    }
}

// Returns whether a repository, or a single working tree, may hold the name.
fn is_name(name: &[u8]) -> bool
    ensures { result ≡ forms.is_name name.now }
{
    if !is_partial_name(name) {
        return false;
    }
    if !name.starts_with(REFS) {
        return false;
    }
    if !is_utf8(name) {
        return false;
    }
    name.len() <= MAX_NAME
}

fn is_utf8(text: &[u8]) -> bool
    ensures { result ≡ is_utf8 text.now }
{
    str::from_utf8(text).is_ok()
}
