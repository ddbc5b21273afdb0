//! Puts a content as an object of a kind, if it is in written form and all that it names is stored (`put`).
ghost use Rattle.std.specs.Prelude.{◌≡◌, ◌↔◌, ◌<◌, length, map, IfErr, IfOk, IsErrOf, IsTrue, OnOk};
ghost use Rattle.std.specs.List.{All};
ghost use Rattle.gix_object_lookup.specs.declared.find.Error.TheVariants as found;
ghost use Rattle.gix_ref_file.specs.Calls.{HasFault};
ghost use Rattle.history_model.specs.Forms.{max_content};
ghost use Rattle.history_model.specs.Objects.{object_text};
ghost use Rattle.history_model.specs.Places.{object_place};
ghost use Rattle.history_store.specs.ObjectsFace.{files_of_objects, kind_of_objects};
ghost use Rattle.history_store.specs.KnownObjects.{HoldsKnown, KnownExist, KnownFoldersExist, table_of};
ghost use Rattle.history_texts.specs.ObjectTexts.{object_id};
ghost use Rattle.history_store.specs.Puts.{Fits, IsGap, IsRefusal, IsStoredAs, of_find, of_made};
ghost use Rattle.history_store.specs.Calls.{KeepsObjects, PutsContent, RefusesContent, WritesObject};
ghost use Rattle.history_store.specs.Stores.{IsObjectPart};
ghost use Rattle.history_texts.specs.Written.{naming_of};
ghost use Rattle.history_store.specs.declared.put.PutError.TheVariants.{File, Memory, TooLarge};

use crate::objects::{Objects, PutMadeError};
use gix_hash::ObjectId;
use gix_object_lines::Kind as ObjectKind;
use gix_object_lookup::{FindHeader, find};
use gix_ref_file::Files;
use history_model::limits::MAX_CONTENT;
use history_texts::{Named, NewObject, named_by};
use std::alloc::{AllocError, Global};

/// Why a content isn't put as an object. The known ids are then as before.
#[derive(Clone, Copy, PartialEq, Eq, Debug, thiserror::Error)]
pub enum PutError {
    /// The content has more than 16,777,216 bytes. No file is changed.
    #[error("the content is too large")]
    TooLarge,
    /// The content isn't in the written form of a tree, a commit or a tag. No file is changed.
    #[error("the content isn't in written form")]
    Malformed,
    /// The first object that the content names and that isn't stored in the right kind. No file is
    /// changed.
    #[error("an object that is named isn't stored")]
    Missing(ObjectId),
    /// The id is null, or is the empty tree's but the object isn't the empty tree, or has a file of
    /// other bytes at its place. No file is changed.
    #[error("the id is taken")]
    IdTaken(ObjectId),
    /// A call of the files failed. The object's file, its folder or an unfinished file may exist.
    #[error("a call of the files failed")]
    File,
    /// No memory is left. The object's file, its folder or an unfinished file may exist.
    #[error("a growth was refused")]
    Memory,
}

impl From<AllocError> for PutError {
    ghost from_gives = { λ _ given. given ≡ Memory };

    fn from(_: AllocError) -> PutError {
        PutError::Memory
    }
}

impl From<find::Error> for PutError {
    ghost from_gives = { λ error given. given ≡ of_find error };

    fn from(error: find::Error) -> PutError {
        match error {
            find::Error::Failed => PutError::File,
            find::Error::Memory => PutError::Memory,
        }
    }
}

impl From<PutMadeError> for PutError {
    ghost from_gives = { λ error given. given ≡ of_made error };

    fn from(error: PutMadeError) -> PutError {
        match error {
            PutMadeError::IdTaken(id) => PutError::IdTaken(id),
            PutMadeError::File => PutError::File,
            PutMadeError::Memory => PutError::Memory,
        }
    }
}

impl<F: Files> Objects<F> {
    /// Puts a content as an object of this kind, and returns its id. If the object is stored
    /// already, no file is changed.
    ///
    /// The content must be in written form: of a tree in Git's order, each name once, with the
    /// modes of files, programs, links and folders that aren't empty; of a commit or a tag with
    /// whole actors, ids in lower case and nothing further, the tag of a commit, within the limits
    /// that commands have for parents, names, titles and messages. All that it names must be
    /// stored: the tree of a commit and its parents, the blobs and trees of a tree, the commit of a
    /// tag.
    ///
    /// Otherwise the error is the first of `TooLarge`, `Malformed`, `Missing`, `IdTaken` that has
    /// its cause, `File` if a call of the files failed, or `Memory` if no memory is left.
    pub fn put(
        &mut self,
        alloc: Global,
        kind: ObjectKind,
        content: Vec<u8>,
    ) -> Result<ObjectId, PutError>
        ensures keeps { KeepsObjects F.Files (IsErrOf result File) self.old self.new }
        ensures puts { PutsContent F.Files kind content.items self.old self.new result }
        ensures refuses { RefusesContent F.Files kind content.items self.old self.new result }

        // At each moment the object's file is as before, or there whole, and so are all others.
        ensures writes { WritesObject F.Files
            (object_place (object_id (kind_of_objects self.old) kind content.items))
            (object_text kind content.items)
            (files_of_objects self.old) (files_of_objects self.new) result }

        // What is known exists, and which are commits, whatever is returned.
        ensures exist { KnownExist F.is_honest F.history self.old
            → KnownExist F.is_honest F.history self.new }

        // In a part of objects that has the known folders, `File` is returned only if a call of the
        // files failed by itself.
        ensures failed { KnownFoldersExist F.is_honest F.history self.old
            → IsObjectPart (F.history (files_of_objects self.old)).tree → IsErrOf result File
            → HasFault F.failures F.reading_may_fail
            (files_of_objects self.old) (files_of_objects self.new) }
    {
        self.check(alloc, kind, &content)?;
        let object = NewObject::new(self.kind(), kind, content);
        self.put_made(alloc, &object)?;
        Ok(object.id)
    }

    // Returns `Ok` if the content may be put, as `put` says; otherwise an error of its causes.
    fn check(&self, alloc: Global, kind: ObjectKind, content: &[u8]) -> Result<(), PutError>
        ensures fits { HoldsKnown F.is_honest F.history self.now
            → OnOk result (Fits (kind_of_objects self.now) (table_of F.history self.now) kind
            content.now) }
        ensures refused { HoldsKnown F.is_honest F.history self.now
            → IfErr result (IsRefusal (kind_of_objects self.now) (table_of F.history self.now)
            (F.history (files_of_objects self.now)).tree kind content.now) }
        ensures large { IsErrOf result TooLarge ↔ (max_content < length content.now) }
        ensures failed { IsErrOf result File → F.reading_may_fail }
    {
        if content.len() > MAX_CONTENT {
            return Err(PutError::TooLarge);
        }
        match named_by(alloc, self.kind(), kind, content)? {
            Some(named) => self.refuse_missing(&named),
            None => Err(PutError::Malformed),
        }
    }

    // Returns `Ok` if each of these is stored in its kind, and else `Missing` with the first that
    // isn't; or a fault.
    fn refuse_missing(&self, named: &[Named]) -> Result<(), PutError>
        ensures stored { HoldsKnown F.is_honest F.history self.now
            → OnOk result (All (IsStoredAs (table_of F.history self.now))
            (map naming_of named.now)) }
        ensures missing { HoldsKnown F.is_honest F.history self.now
            → IfErr result (IsGap (table_of F.history self.now) (map naming_of named.now)) }
        ensures not_large { ¬ IsErrOf result TooLarge }
        ensures failed { IsErrOf result File → F.reading_may_fail }
    {
        for object in named {
            if !self.is_stored(*object)? {
                return Err(PutError::Missing(object.id));
            }
        }
        Ok(())
    }

    // Returns whether the object is stored, in its kind.
    fn is_stored(&self, object: Named) -> Result<bool, find::Error>
        ensures told { HoldsKnown F.is_honest F.history self.now
            → IfOk result (λ is. IsTrue is
            ↔ IsStoredAs (table_of F.history self.now) (naming_of object)) }
        ensures failed { IsErrOf result found.Failed → F.reading_may_fail }
    {
        match self.try_header(object.id.as_oid())? {
            Some(header) => Ok(header.kind == object.kind),
            None => Ok(false),
        }
    }
}
