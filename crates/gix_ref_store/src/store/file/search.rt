//! The search for what a short name means (tag, branch, remote); the target in a name's file, or its record.

ghost use Rattle.std.specs.Prelude.{◌≡◌, Some, IfOk, IfErr};
ghost use Rattle.gix_ref_format.specs.Lookup.{lookup_names, tag_names, branch_names, remote_names, placed};
ghost use Rattle.gix_ref_format.specs.PackedKept.{kept};
ghost use Rattle.gix_ref_store.specs.RefStates.{loose_text_at};
ghost use Rattle.gix_ref_store.specs.Stores.{base_of};
ghost use Rattle.gix_ref_store.specs.Finds.{records_in, MayTell, TellsFile};
ghost use Rattle.gix_ref_store.specs.Searches.{reads_in, Finds, AnswersFirst, AnswersName, AnswersRecord};

use crate::reference::Reference;
use crate::store::file::Store;
use crate::store::file::find::Error;
use gix_object_lines::ByteString;
use gix_ref_file::{FileError, Files};
use gix_ref_format::lookup::is_complete;
use gix_ref_format::loose;
use gix_ref_format::packed::Buffer;
use gix_ref_name::{FullName, Target};
use std::alloc::{AllocError, Global};

// A store, and the packed references that it is searched with.
#[derive(Drop)]
pub(crate) struct Search<'s, 'p, F: Files> {
    pub(crate) alloc: Global,
    pub(crate) store: &'s Store<F>,
    pub(crate) packed: Option<&'p Buffer>,
}

impl<F: Files> Search<'_, '_, F> {
    // The first reference of the names that a word may mean.
    pub(crate) fn named(&self, word: &[u8]) -> Result<Option<Reference>, Error>
        ensures found { F.is_honest self.now.store.now.files
            → Finds (reads_in (F.history self.now.store.now.files).tree self.now)
            (lookup_names word.now) result }
        ensures failed { IfErr result (MayTell F.reading_may_fail) }
    {
        if is_complete(word) {
            return self.between(b"", word, b"");
        }
        match self.between(b"refs/", word, b"")? {
            Some(found) => Ok(Some(found)),
            None => self.tag(word),
        }
    }

    // The reference of the first name alone.
    pub(crate) fn first(&self, word: &[u8]) -> Result<Option<Reference>, Error>
        ensures found { F.is_honest self.now.store.now.files
            → AnswersFirst (reads_in (F.history self.now.store.now.files).tree self.now)
            (lookup_names word.now) result }
        ensures failed { IfErr result (MayTell F.reading_may_fail) }
    {
        if is_complete(word) {
            self.between(b"", word, b"")
        } else {
            self.between(b"refs/", word, b"")
        }
    }

    // The reference of a word below `refs/tags/`, otherwise that of a branch.
    fn tag(&self, word: &[u8]) -> Result<Option<Reference>, Error>
        ensures found { F.is_honest self.now.store.now.files
            → Finds (reads_in (F.history self.now.store.now.files).tree self.now)
            (tag_names word.now) result }
        ensures failed { IfErr result (MayTell F.reading_may_fail) }
    {
        match self.between(b"refs/tags/", word, b"")? {
            Some(found) => Ok(Some(found)),
            None => self.branch(word),
        }
    }

    // The reference of a word below `refs/heads/`, otherwise that of a remote.
    fn branch(&self, word: &[u8]) -> Result<Option<Reference>, Error>
        ensures found { F.is_honest self.now.store.now.files
            → Finds (reads_in (F.history self.now.store.now.files).tree self.now)
            (branch_names word.now) result }
        ensures failed { IfErr result (MayTell F.reading_may_fail) }
    {
        match self.between(b"refs/heads/", word, b"")? {
            Some(found) => Ok(Some(found)),
            None => self.remote(word),
        }
    }

    // The reference of a word below `refs/remotes/`, otherwise that of its `HEAD`.
    fn remote(&self, word: &[u8]) -> Result<Option<Reference>, Error>
        ensures found { F.is_honest self.now.store.now.files
            → Finds (reads_in (F.history self.now.store.now.files).tree self.now)
            (remote_names word.now) result }
        ensures failed { IfErr result (MayTell F.reading_may_fail) }
    {
        match self.between(b"refs/remotes/", word, b"")? {
            Some(found) => Ok(Some(found)),
            None => self.between(b"refs/remotes/", word, b"/HEAD"),
        }
    }

    // The reference of the name between these texts.
    fn between(&self, front: &[u8], word: &[u8], back: &[u8]) -> Result<Option<Reference>, Error>
        ensures found { F.is_honest self.now.store.now.files
            → AnswersName (reads_in (F.history self.now.store.now.files).tree self.now)
            (placed front.now word.now back.now) result }
        ensures failed { IfErr result (MayTell F.reading_may_fail) }
    {
        let name = joined(self.alloc, front, word, back)?;
        match FullName::new(name) {
            Ok(name) => self.of_full_name(name),
            Err(_) => Ok(None),
        }
    }

    // The reference of a full name.
    pub(crate) fn of_full_name(&self, name: FullName) -> Result<Option<Reference>, Error>
        ensures found { F.is_honest self.now.store.now.files
            → AnswersName (reads_in (F.history self.now.store.now.files).tree self.now)
            name result }
        ensures failed { IfErr result (MayTell F.reading_may_fail) }
    {
        match self
            .store
            .target_in_file(self.alloc, name.as_bstr().as_bytes())?
        {
            Some(target) => Ok(Some(Reference {
                name,
                target,
                peeled: None,
            })),
            None => Ok(self.packed_reference(name)),
        }
    }

    // The reference that a record holds for this name.
    pub(crate) fn packed_reference(&self, name: FullName) -> Option<Reference>
        ensures { AnswersRecord (records_in self.now.packed) name result }
    {
        match self.packed {
            Some(packed) => record_of(packed, name),
            None => None,
        }
    }
}

impl<F: Files> Store<F> {
    // The target in the file of a full name.
    pub(crate) fn target_in_file(&self, alloc: Global, name: &[u8]) -> Result<Option<Target>, Error>
        ensures found { F.is_honest self.now.files
            → TellsFile (base_of self.now).kind
            (loose_text_at (base_of self.now) (F.history self.now.files).tree name.now) result }
        ensures failed { IfErr result (MayTell F.reading_may_fail) }
    {
        let path = self.home(name).place(alloc)?;
        let mut text = Vec::new(alloc);
        match self.files.read(&path, &mut text) {
            Ok(Some(_)) => self.target_of(alloc, &text),
            Ok(None) => Ok(None),
            Err(FileError::Failed) => Err(Error::ReadFileContents),
            Err(FileError::Memory) => Err(Error::Memory),
        }
    }

    // The target that this text names.
    fn target_of(&self, alloc: Global, text: &[u8]) -> Result<Option<Target>, Error>
        ensures found { TellsFile (base_of self.now).kind (Some text.now) result }
        ensures failed { IfErr result (MayTell F.reading_may_fail) }
    {
        match loose::decode(alloc, text, self.options.object_hash) {
            Ok(target) => Ok(Some(target)),
            Err(loose::Error::Memory) => Err(Error::Memory),
            Err(loose::Error::Parse) => Err(Error::ReferenceCreation(loose::Error::Parse)),
            Err(loose::Error::RefnameValidation) => {
                Err(Error::ReferenceCreation(loose::Error::RefnameValidation))
            }
        }
    }
}

// The reference that a record of the buffer holds for this name.
fn record_of(packed: &Buffer, name: FullName) -> Option<Reference>
    ensures { AnswersRecord (kept packed.now) name result }
{
    match packed.try_find_full_name(name.as_ref()) {
        Some(record) => Some(Reference {
            name,
            target: Target::Object(record.target),
            peeled: record.object,
        }),
        None => None,
    }
}

fn joined(alloc: Global, front: &[u8], word: &[u8], back: &[u8]) -> Result<ByteString, AllocError>
    ensures { IfOk result (λ text. text ≡ placed front.now word.now back.now) }
{
    let mut text = front.to_vec(alloc)?;
    text.extend_from_slice(word)?;
    text.extend_from_slice(back)?;
    Ok(ByteString::new(text))
}
