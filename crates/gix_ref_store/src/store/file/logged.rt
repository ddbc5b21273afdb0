//! One reference's log with its buffer (`LogPlatform`), read from either end: `all`, `rev`.

ghost use Rattle.std.specs.Prelude.{IfErr, IfOk, IfSome, option_map};
ghost use Rattle.gix_ref_name.specs.Names.{name_of};
ghost use Rattle.gix_ref_log.specs.LogForward.{lines_of};
ghost use Rattle.gix_ref_log.specs.LogReverse.{stand_of};
ghost use Rattle.gix_ref_store.specs.Logs.{ReadsForward, ReadsBackward, BackFault, MayTell, log_text};
ghost use Rattle.gix_ref_store.specs.LogReaders.{IsBegun, IsOfLog};

use crate::store::file::Store;
use crate::store::file::log::{Error, LogFile};
use gix_ref_file::Files;
use gix_ref_log::iter::{Forward, Reverse};
use gix_ref_name::FullNameRef;
use std::alloc::Global;

// How many bytes of a log are read at once from its end.
const BUFFER_SIZE: usize = 4096;

/// The log of a reference, and a buffer to read it with from either end.
#[derive(Drop)]
pub struct Platform<'s, 'n, F: Files> {
    pub(crate) store: &'s Store<F>,
    pub(crate) name: FullNameRef<'n>,
    pub(crate) buffer: Vec<u8>,
}

impl<'s, F: Files> Platform<'s, '_, F> {
    /// The lines from the beginning, as `Store::reflog_iter` returns them, with its errors. The log
    /// may be read again afterwards.
    pub fn all(&mut self, alloc: Global) -> Result<Option<Forward<'_>>, Error>
        ensures lines { F.is_honest self.old.store.now.files
            → let tree = (F.history self.old.store.now.files).tree in
            let text = log_text self.old.store.now tree (name_of self.old.name) in
            IfOk result (λ found. ReadsForward text (option_map lines_of found)) }
        ensures failed { IfErr result (MayTell F.reading_may_fail) }
    {
        self.store.reflog_iter(alloc, self.name, &mut self.buffer)
    }

    /// The lines from the end, as `Store::reflog_iter_rev` returns them with a buffer of 4,096
    /// bytes. Fails as that does.
    pub fn rev(&mut self, alloc: Global) -> Result<Option<Reverse<'_, LogFile<'s, F>>>, Error>
        ensures lines { F.is_honest self.old.store.now.files
            → let tree = (F.history self.old.store.now.files).tree in
            let text = log_text self.old.store.now tree (name_of self.old.name) in
            IfOk result (λ found. ReadsBackward text (option_map stand_of found)) }
        ensures file { F.is_honest self.old.store.now.files
            → IfOk result (λ found. IfSome found
            (IsOfLog self.old.store.now (name_of self.old.name))) }
        ensures begun { IfOk result (λ found. IfSome found (IsBegun 4096)) }
        ensures failed { IfErr result
            (BackFault F.reading_may_fail (¬ F.is_honest self.old.store.now.files) ⊥) }
    {
        self.buffer.clear();
        self.buffer.resize(BUFFER_SIZE, 0)?;
        self.store
            .reflog_iter_rev(alloc, self.name, self.buffer.as_mut_slice())
    }
}
