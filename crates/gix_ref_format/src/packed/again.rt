//! Opening `packed-refs` again, or after a name's deletion: known records are kept if the bytes and kinds fit.

ghost use Rattle.std.specs.Prelude.{◌≡◌, ◌++◌, Some, bytes_eq, map, not, option_map, IfErr, IfOk, IfSome, IsErrOf, IsTrue, MatchResult};
ghost use Rattle.std.specs.List.{filter};
ghost use Rattle.gix_hash.specs.Id.{id_of};
ghost use Rattle.gix_ref_file.specs.Tree.{node_at, bytes_of};
ghost use Rattle.gix_ref_format.specs.PackedBuffer.{entry_records, IsInOrder, Keeps, KeepsFile, OpenFault, FileFault};
ghost use Rattle.gix_ref_format.specs.PackedKept.{IsKnownOf, kept, text_of};
ghost use Rattle.gix_ref_format.specs.PackedText.{IsWritten};
ghost use Rattle.gix_ref_format.specs.Written.{AllHaveKind, header_text};
ghost use Rattle.gix_ref_format.specs.declared.packed.buffer.Error.TheVariants.{Io};

use crate::laws::entries_can_stand;
use crate::packed::buffer::{Buffer, Entry, Error, name_of};
use crate::packed::run::Run;
use crate::packed::write::HEADER;
use gix_hash::{Kind, ObjectId};
use gix_object_lines::cut::strip_prefix;
use gix_ref_file::{FileError, Files};
use gix_ref_name::FullNameRef;
use std::alloc::{AllocError, Global};

impl Buffer {
    /// The buffer of the file at this path, as `open` returns it, with its errors. If the file
    /// still has the bytes of `known`, what was read of it before, the records are copied from
    /// there.
    pub fn open_again<F: Files>(
        alloc: Global,
        files: &F,
        path: &[u8],
        kind: Kind,
        known: Option<&Buffer>,
    ) -> Result<Option<Buffer>, Error>
        ensures kept { F.is_honest files.now
            → let file = bytes_of (node_at (F.history files.now).tree path.now) in
            IfSome known.entry (λ buffer. IsKnownOf kind file buffer.now)
            → IfOk result (λ found. KeepsFile kind file (option_map kept found)) }
        ensures faulty { F.is_honest files.now → IfErr result
            (FileFault kind (bytes_of (node_at (F.history files.now).tree path.now))) }
        ensures bytes { F.is_honest files.now → IfOk result
            (λ found. option_map text_of found
            ≡ bytes_of (node_at (F.history files.now).tree path.now)) }
        ensures failed { IsErrOf result Io → F.reading_may_fail }
    {
        let mut bytes = Vec::new(alloc);
        match files.read(path, &mut bytes) {
            Ok(Some(_)) => Ok(Some(again(alloc, bytes, kind, known)?)),
            Ok(None) => Ok(None),
            Err(FileError::Failed) => Err(Error::Io),
            Err(FileError::Memory) => Err(Error::Memory),
        }
    }

    /// The buffer of the file at this path, as `open` returns it, with its errors. If the file has
    /// the text of this one's records but for those of the name, as after its deletion, these are
    /// taken over.
    pub fn open_without<F: Files>(
        self,
        alloc: Global,
        files: &F,
        path: &[u8],
        kind: Kind,
        gone: FullNameRef<'_>,
    ) -> Result<Option<Buffer>, Error>
        ensures kept { F.is_honest files.now
            → let file = bytes_of (node_at (F.history files.now).tree path.now) in
            MatchResult result (λ found. KeepsFile kind file (option_map kept found))
            (FileFault kind file) }
        ensures bytes { F.is_honest files.now → IfOk result
            (λ found. option_map text_of found
            ≡ bytes_of (node_at (F.history files.now).tree path.now)) }
        ensures failed { IsErrOf result Io → F.reading_may_fail }
    {
        let mut bytes = Vec::new(alloc);
        match files.read(path, &mut bytes) {
            Ok(Some(_)) => Ok(Some(self.without(alloc, bytes, kind, gone)?)),
            Ok(None) => Ok(None),
            Err(FileError::Failed) => Err(Error::Io),
            Err(FileError::Memory) => Err(Error::Memory),
        }
    }

    // The buffer of these bytes, by this one's records but for those of the name if they are theirs.
    fn without(
        self,
        alloc: Global,
        bytes: Vec<u8>,
        kind: Kind,
        gone: FullNameRef<'_>,
    ) -> Result<Buffer, Error>
        ensures kept { MatchResult result (λ buffer. Keeps kind bytes.items (kept buffer))
            (OpenFault kind bytes.items) }
        ensures bytes { IfOk result (λ buffer. buffer.bytes ≡ bytes) }
    {
        if !self.has_become(&bytes, gone.to_path()) {
            return Buffer::from_bytes(alloc, bytes, kind);
        }
        let entries = entries_without(self.entries, gone.to_path());
        if !have_kind(&entries, kind) {
            return Buffer::from_bytes(alloc, bytes, kind);
        }
        entries_can_stand(&entries);
        Ok(Buffer {
            bytes,
            entries,
            is_written: true,
        })
    }

    // Returns whether both its bytes and these are what is written of its records, these but for
    // that of the name.
    fn has_become(&self, bytes: &[u8], gone: &[u8]) -> bool
        ensures { IsTrue result
            → IsWritten (filter (λ r. not (bytes_eq r.name gone.now)) (kept self.now)) bytes.now }
    {
        if !self.is_written {
            return false;
        }
        let (front, back) = self.run().around(gone);
        are_joined(bytes, front, back)
    }
}

// The buffer of these bytes, by what is known if they are the same.
fn again(alloc: Global, bytes: Vec<u8>, kind: Kind, known: Option<&Buffer>) -> Result<Buffer, Error>
    ensures kept { IfSome known.entry (λ buffer. IsKnownOf kind (Some bytes.items) buffer.now)
        → IfOk result (λ buffer. Keeps kind bytes.items (kept buffer)) }
    ensures faulty { IfErr result (OpenFault kind bytes.items) }
    ensures bytes { IfOk result (λ buffer. buffer.bytes ≡ bytes) }
{
    if let Some(buffer) = known {
        if buffer.as_ref() == bytes.as_slice() {
            let entries = copied_entries(alloc, &buffer.entries)?;
            let is_written = buffer.is_written;
            return Ok(Buffer {
                bytes,
                entries,
                is_written,
            });
        }
    }
    Buffer::from_bytes(alloc, bytes, kind)
}

fn copied_entries(alloc: Global, entries: &[Entry]) -> Result<Vec<Entry>, AllocError>
    ensures { IfOk result (λ copies. copies.items ≡ entries.now) }
{
    let mut copies = Vec::new(alloc);
    for entry in entries {
        copies.push(Entry {
            name: entry.name.try_clone()?,
            target: entry.target,
            object: entry.object,
        })?;
    }
    Ok(copies)
}

// The entries of other names, in their order.
fn entries_without(mut entries: Vec<Entry>, gone: &[u8]) -> Vec<Entry>
    ensures order { IsInOrder entries.items → IsInOrder result.items }
    ensures others { entry_records result.items
        ≡ filter (λ r. not (bytes_eq r.name gone.now)) (entry_records entries.items) }
{
    entries.retain(|entry| name_of(entry) != gone);
    entries
}

// Returns whether the bytes are a header and the lines of both.
fn are_joined(bytes: &[u8], front: Run<'_>, back: Run<'_>) -> bool
    ensures { IsTrue result
        → bytes.now ≡ header_text ++ (front.entry.text.now ++ back.entry.text.now) }
{
    let Some(lines) = strip_prefix(bytes, HEADER) else {
        return false;
    };
    let Some(rest) = strip_prefix(lines, front.text) else {
        return false;
    };
    rest == back.text
}

// Returns whether all ids are of this kind.
fn have_kind(entries: &[Entry], kind: Kind) -> bool
    ensures { IsTrue result → AllHaveKind kind (entry_records entries.now) }
{
    for entry in entries {
        if entry.target.kind() != kind || !is_peeled_of(entry.object, kind) {
            return false;
        }
    }
    true
}

fn is_peeled_of(peeled: Option<ObjectId>, kind: Kind) -> bool
    ensures { IsTrue result → IfSome peeled (λ id. (id_of id).kind ≡ kind) }
{
    match peeled {
        Some(id) => id.kind() == kind,
        None => true,
    }
}
