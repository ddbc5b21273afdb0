//! Opening a store's packed references (`open_packed_buffer`), cached or refreshed.

ghost use Rattle.std.specs.Prelude.{IfOk, IsErrOf, MatchResult};
ghost use Rattle.gix_ref_format.specs.declared.packed.buffer.Error.TheVariants.{Io};
ghost use Rattle.gix_ref_store.specs.Opened.{KeepsPacked, HasPackedText, PackedUnread, CanOpenPacked};

use crate::store::file::Store;
use gix_ref_file::Files;
use gix_ref_format::packed::{Buffer, buffer};
use std::alloc::Global;

impl<F: Files> Store<F> {
    /// The packed references; `None` if there is no file of them. Returns `Iter` or `HeaderParsing`
    /// if a line can't be read, `Io` if the file can't.
    pub fn open_packed_buffer(&self, alloc: Global) -> Result<Option<Buffer>, buffer::Error>
        ensures kept { F.is_honest self.now.files → let tree = (F.history self.now.files).tree in
            MatchResult result (KeepsPacked self.now tree) (PackedUnread self.now tree) }
        ensures text { F.is_honest self.now.files →
            IfOk result (HasPackedText self.now (F.history self.now.files).tree) }
        ensures failed { IsErrOf result Io → F.reading_may_fail }
    {
        let path = self.packed_refs_path(alloc)?;
        Buffer::open(alloc, &self.files, &path, self.options.object_hash)
    }

    /// The packed references as they are now: a buffer of its own for each call. The errors are
    /// those of `open_packed_buffer`.
    pub fn cached_packed_buffer(&self, alloc: Global) -> Result<Option<Buffer>, buffer::Error>
        ensures kept { F.is_honest self.now.files → let tree = (F.history self.now.files).tree in
            MatchResult result (KeepsPacked self.now tree) (PackedUnread self.now tree) }
        ensures text { F.is_honest self.now.files →
            IfOk result (HasPackedText self.now (F.history self.now.files).tree) }
        ensures failed { IsErrOf result Io → F.reading_may_fail }
    {
        self.open_packed_buffer(alloc)
    }

    /// Tries to open the packed references, with the errors of `open_packed_buffer`. It keeps
    /// nothing of them, since no call uses what an earlier one opened.
    pub fn force_refresh_packed_buffer(&self, alloc: Global) -> Result<(), buffer::Error>
        ensures opened { F.is_honest self.now.files → let tree = (F.history self.now.files).tree in
            MatchResult result (λ _. CanOpenPacked self.now tree) (PackedUnread self.now tree) }
        ensures failed { IsErrOf result Io → F.reading_may_fail }
    {
        self.open_packed_buffer(alloc)?;
        Ok(())
    }
}
