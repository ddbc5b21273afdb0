//! Whether a name collides with another, packed or not, that is one of its folders or below it.
ghost use Rattle.std.specs.Prelude.{IfOk, IsErrOf};
ghost use Rattle.gix_ref_file.specs.Calls.{Finds};
ghost use Rattle.gix_ref_file.specs.declared.files.FileError.TheVariants.{Failed};
ghost use Rattle.history_store.specs.AllNames.{TellsHeldAbove, TellsHeldBelow, TellsMeeting};
ghost use Rattle.history_store.specs.Packing.{KeepsRecords};

use crate::names::Names;
use gix_ref_file::{FileError, Files};
use std::alloc::Global;

impl<F: Files> Names<F> {
    /// Returns whether the name collides with another, packed or not: whether one of its folders,
    /// or a name below it, reads as an id. What is no name that a repository may hold doesn't
    /// matter. The name's own folders are read, and the names below it listed.
    ///
    /// Returns `Failed` if a file call failed, and `Memory` if memory ran out.
    pub fn collides_any(&self, alloc: Global, name: &[u8]) -> Result<bool, FileError>
        ensures found { Finds F.is_honest F.history self.now.store.files
            (λ tree. KeepsRecords self.now tree
            → IfOk result (λ found. TellsMeeting self.now.kind name.now tree found)) }
        ensures failed { IsErrOf result Failed → F.reading_may_fail }
    {
        if self.is_held_above(alloc, name)? {
            return Ok(true);
        }
        self.is_held_below(alloc, name)
    }

    // Returns whether a name that reads as an id is one of this name's folders.
    fn is_held_above(&self, alloc: Global, name: &[u8]) -> Result<bool, FileError>
        ensures found { Finds F.is_honest F.history self.now.store.files
            (λ tree. KeepsRecords self.now tree
            → IfOk result (λ found. TellsHeldAbove self.now.kind name.now tree found)) }
        ensures failed { IsErrOf result Failed → F.reading_may_fail }
    {
        for (end, byte) in name.iter().enumerate() {
            if *byte == b'/' {
                if self.find(alloc, &name[..end])?.is_some() {
                    return Ok(true);
                }
            }
        }
        Ok(false)
    }

    // Returns whether a name that reads as an id is below this one.
    fn is_held_below(&self, alloc: Global, name: &[u8]) -> Result<bool, FileError>
        ensures found { Finds F.is_honest F.history self.now.store.files
            (λ tree. KeepsRecords self.now tree
            → IfOk result (λ found. TellsHeldBelow self.now.kind name.now tree found)) }
        ensures failed { IsErrOf result Failed → F.reading_may_fail }
    {
        let below = self.list_all(alloc, name)?;
        Ok(!below.as_slice().is_empty())
    }
}
