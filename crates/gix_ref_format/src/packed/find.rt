//! Looking up a record of `packed-refs`, by full name or by a word that may be a tag, branch or remote.

ghost use Rattle.std.specs.Prelude.{◌≡◌, ◌++◌, ◌∷◌, [], Some, None, IfOk, IsErrOf, option_map};
ghost use Rattle.gix_ref_name.specs.Names.{name_of, part_of};
ghost use Rattle.gix_ref_format.specs.Lookup.{packed_hit, first_hit, lookup_names, word_names, tag_names, branch_names, remote_names};
ghost use Rattle.gix_ref_format.specs.Packed.{record_of};
ghost use Rattle.gix_ref_format.specs.PackedBuffer.{entry_record, hit};
ghost use Rattle.gix_ref_format.specs.PackedKept.{kept};
ghost use Rattle.gix_ref_format.specs.declared.packed.find.FindError.TheVariants.{NotFound};

use crate::lookup::{is_complete, key_of};
use crate::packed::Reference;
use crate::packed::buffer::{Buffer, Entry, name_of};
use gix_ref_name::{FullNameRef, PartialNameRef};
use std::alloc::{AllocError, Global};
use std::cmp::Ordering;
use thiserror::Error;

/// Why no record is found.
#[derive(Debug, Clone, Copy, PartialEq, Eq, Error)]
pub enum FindError {
    /// There is none.
    #[error("there is no packed reference of this name")]
    NotFound,
    /// No memory is left.
    #[error("no memory is left")]
    Memory,
}

impl Buffer {
    /// The record that this name means, as `try_find` returns it; `NotFound` if there is none,
    /// `Memory` if no memory is left.
    pub fn find(&self, alloc: Global, name: PartialNameRef<'_>) -> Result<Reference<'_>, FindError>
        ensures found { IfOk result
            (λ r. first_hit (kept self.now) (lookup_names (part_of name.entry))
            ≡ Some (record_of r)) }
        ensures absent { IsErrOf result NotFound
            → first_hit (kept self.now) (lookup_names (part_of name.entry)) ≡ None }
    {
        match self.try_find(alloc, name) {
            Ok(found) => found.ok_or(FindError::NotFound),
            Err(_) => Err(FindError::Memory),
        }
    }

    /// The record that this name means. A name that begins `refs/`, one of another worktree and one
    /// of capital letters mean their own. Any other means the first of those below `refs/`,
    /// `refs/tags/`, `refs/heads/` and `refs/remotes/`, and of its `HEAD` below the last. Returns
    /// `None` if there is no record, as for names of which each worktree has its own.
    pub fn try_find(
        &self,
        alloc: Global,
        name: PartialNameRef<'_>,
    ) -> Result<Option<Reference<'_>>, AllocError>
        ensures { IfOk result
            (λ found. option_map record_of found
            ≡ first_hit (kept self.now) (lookup_names (part_of name.entry))) }
    {
        let word = name.as_bstr().as_bytes();
        if is_complete(word) {
            return Ok(self.reference_of(word));
        }
        self.reference_of_word(alloc, word)
    }

    // The record of a word below `refs/`, otherwise of a tag.
    fn reference_of_word(
        &self,
        alloc: Global,
        word: &[u8],
    ) -> Result<Option<Reference<'_>>, AllocError>
        ensures { IfOk result
            (λ found. option_map record_of found
            ≡ first_hit (kept self.now) (word_names word.now)) }
    {
        match self.reference_between(alloc, b"refs/", word, b"")? {
            Some(found) => Ok(Some(found)),
            None => self.reference_of_tag(alloc, word),
        }
    }

    // The record of a word below `refs/tags/`, otherwise of a branch.
    fn reference_of_tag(
        &self,
        alloc: Global,
        word: &[u8],
    ) -> Result<Option<Reference<'_>>, AllocError>
        ensures { IfOk result
            (λ found. option_map record_of found
            ≡ first_hit (kept self.now) (tag_names word.now)) }
    {
        match self.reference_between(alloc, b"refs/tags/", word, b"")? {
            Some(found) => Ok(Some(found)),
            None => self.reference_of_branch(alloc, word),
        }
    }

    // The record of a word below `refs/heads/`, otherwise below `refs/remotes/`.
    fn reference_of_branch(
        &self,
        alloc: Global,
        word: &[u8],
    ) -> Result<Option<Reference<'_>>, AllocError>
        ensures { IfOk result
            (λ found. option_map record_of found
            ≡ first_hit (kept self.now) (branch_names word.now)) }
    {
        match self.reference_between(alloc, b"refs/heads/", word, b"")? {
            Some(found) => Ok(Some(found)),
            None => self.reference_of_remote(alloc, word),
        }
    }

    // The record of a word below `refs/remotes/`, otherwise of its `HEAD`.
    fn reference_of_remote(
        &self,
        alloc: Global,
        word: &[u8],
    ) -> Result<Option<Reference<'_>>, AllocError>
        ensures { IfOk result
            (λ found. option_map record_of found
            ≡ first_hit (kept self.now) (remote_names word.now)) }
    {
        match self.reference_between(alloc, b"refs/remotes/", word, b"")? {
            Some(found) => Ok(Some(found)),
            None => self.reference_between(alloc, b"refs/remotes/", word, b"/HEAD"),
        }
    }

    /// The record of this name; the first in the file if several have it. Returns `None` if none
    /// has it, and for names of which each worktree has its own. It takes as many comparisons as
    /// the number of records has binary digits.
    pub fn try_find_full_name(&self, name: FullNameRef<'_>) -> Option<Reference<'_>>
        ensures { option_map record_of result ≡ packed_hit (kept self.now) (name_of name.entry) }
    {
        self.reference_of(name.to_path())
    }

    // The record of these bytes, as a full name.
    fn reference_of(&self, name: &[u8]) -> Option<Reference<'_>>
        ensures { option_map record_of result ≡ packed_hit (kept self.now) name.now }
    {
        let key = key_of(name)?;
        let entry = self.entry_of(key)?;
        Some(entry.as_reference())
    }

    // The record of the name between these texts.
    fn reference_between(
        &self,
        alloc: Global,
        front: &[u8],
        word: &[u8],
        back: &[u8],
    ) -> Result<Option<Reference<'_>>, AllocError>
        ensures { IfOk result
            (λ found. option_map record_of found
            ≡ packed_hit (kept self.now) (front.now ++ (word.now ++ back.now))) }
    {
        let mut name = front.to_vec(alloc)?;
        name.extend_from_slice(word)?;
        name.extend_from_slice(back)?;
        Ok(self.reference_of(&name))
    }

    // The first entry of this name.
    fn entry_of(&self, name: &[u8]) -> Option<&Entry>
        ensures { option_map (λ entry. entry_record entry.now) result
            ≡ hit (kept self.now) name.now }
    {
        let at = self
            .entries
            .partition_point(|entry| name_of(entry).cmp(name) == Ordering::Less);
        let entry = self.entries.get(at)?;
        if name_of(entry) == name {
            Some(entry)
        } else {
            None
        }
    }
}
