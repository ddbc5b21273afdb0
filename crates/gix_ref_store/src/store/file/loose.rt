//! Methods of loose references for their logs (`LogExt`).

ghost use Rattle.std.specs.Prelude.{◌≡◌, [], ℕ, List, None, is_some, length, IfErr, IfOk, IfSome, IsSome, IsErrOf, option_map};
ghost use Rattle.gix_ref_log.specs.LogForward.{lines_of};
ghost use Rattle.gix_ref_log.specs.LogReverse.{stand_of};
ghost use Rattle.gix_ref_store.specs.Logs.{ReadsForward, ReadsBackward, BackFault, MayTell, log_text};
ghost use Rattle.gix_ref_store.specs.LogReaders.{IsBegun, IsOfLog};
ghost use Rattle.gix_ref_store.specs.declared.store.file.log.Error.TheVariants.{Io};
ghost use Rattle.gix_ref_log.specs.declared.iter.error.IoError.TheVariants.{NoBuffer};

use crate::store::file::Store;
use crate::store::file::log::{Error, LogFile};
use gix_ref_file::Files;
use gix_ref_format::loose::Reference;
use gix_ref_log::iter::{Forward, Reverse};
use std::alloc::Global;

/// The log of a loose reference, with its store.
pub trait LogExt {
    /// The reference's name.
    ghost named: { Self → List ℕ };

    /// Returns whether the reference has a log, and `Io` if a reading failed.
    fn log_exists<F: Files>(&self, alloc: Global, store: &Store<F>) -> Result<bool, Error>
        ensures exists { F.is_honest store.now.files
            → let text = log_text store.now (F.history store.now.files).tree (named self.now) in
            IfOk result (λ found. found ≡ is_some text) }
        ensures failed { IfErr result (MayTell F.reading_may_fail) };

    /// Reads the reference's log from its end, as `Store::reflog_iter_rev` does; `None` if it has
    /// none. The error for an empty buffer is `NoBuffer`.
    fn log_iter_rev<'s, 'b, F: Files>(
        &self,
        alloc: Global,
        store: &'s Store<F>,
        buffer: &'b mut [u8],
    ) -> Result<Option<Reverse<'b, LogFile<'s, F>>>, Error>
        ensures lines { F.is_honest store.now.files
            → let text = log_text store.now (F.history store.now.files).tree (named self.now) in
            IfOk result (λ found. ReadsBackward text (option_map stand_of found)) }
        ensures file { F.is_honest store.now.files
            → IfOk result (λ found. IfSome found (IsOfLog store.now (named self.now))) }
        ensures begun { IfOk result (λ found. IfSome found (IsBegun (length buffer.old))) }
        ensures empty { buffer.old ≡ [] → IfOk result (λ found. found ≡ None) }
        ensures unbuffered { F.is_honest store.now.files → IsErrOf result (Io NoBuffer)
            → IsSome (log_text store.now (F.history store.now.files).tree (named self.now)) }
        ensures failed { IfErr result (BackFault F.reading_may_fail (¬ F.is_honest store.now.files)
            (buffer.old ≡ [])) };

    /// Reads the reference's log from its beginning, as `Store::reflog_iter` does; `None` if it has
    /// none.
    fn log_iter<'b, F: Files>(
        &self,
        alloc: Global,
        store: &Store<F>,
        buffer: &'b mut Vec<u8>,
    ) -> Result<Option<Forward<'b>>, Error>
        ensures lines { F.is_honest store.now.files
            → let text = log_text store.now (F.history store.now.files).tree (named self.now) in
            IfOk result (λ found. ReadsForward text (option_map lines_of found)) }
        ensures failed { IfErr result (MayTell F.reading_may_fail) };
}

impl LogExt for Reference {
    ghost named = { λ r. r.name };

    fn log_exists<F: Files>(&self, alloc: Global, store: &Store<F>) -> Result<bool, Error> {
        store.reflog_exists(alloc, self.name.as_ref())
    }

    fn log_iter_rev<'s, 'b, F: Files>(
        &self,
        alloc: Global,
        store: &'s Store<F>,
        buffer: &'b mut [u8],
    ) -> Result<Option<Reverse<'b, LogFile<'s, F>>>, Error> {
        store.reflog_iter_rev(alloc, self.name.as_ref(), buffer)
    }

    fn log_iter<'b, F: Files>(
        &self,
        alloc: Global,
        store: &Store<F>,
        buffer: &'b mut Vec<u8>,
    ) -> Result<Option<Forward<'b>>, Error> {
        store.reflog_iter(alloc, self.name.as_ref(), buffer)
    }
}
