//! Transactions' errors as file calls', `Memory` or else `Failed`; and the full name (`FullName`) of some bytes.
ghost use Rattle.std.specs.Prelude.{◌≡◌, ◌≢◌, Err, IfOk, IsTrue};
ghost use Rattle.gix_object_lines.specs.NameTest.{is_full_name};
ghost use Rattle.gix_ref_file.specs.declared.files.FileError.TheVariants.{Failed};
ghost use Rattle.history_store.specs.Faults as faults;

use gix_object_lookup::find as lookup;
use gix_ref_edit::{PreProcessError, SplitError, TwiceError};
use gix_ref_file::FileError;
use gix_ref_format::packed::buffer;
use gix_ref_lock::{CommitError, packed};
use gix_ref_name::FullName;
use gix_ref_name::name::Error as NameError;
use gix_ref_store::store::file::{find, follow, peel};
use gix_ref_transaction::PrepareError;
use std::alloc::Global;

// The error of a call that opened `packed-refs`.
pub(crate) fn of_opening(error: buffer::Error) -> FileError
    ensures { result ≡ faults.of_opening error }
{
    match error {
        buffer::Error::Memory => FileError::Memory,
        buffer::Error::Io => FileError::Failed,
        buffer::Error::HeaderParsing => FileError::Failed,
        buffer::Error::Iter { .. } => FileError::Failed,
    }
}

fn of_finding(error: find::Error) -> FileError
    ensures { result ≡ faults.of_finding error }
{
    match error {
        find::Error::Memory => FileError::Memory,
        find::Error::ReadFileContents => FileError::Failed,
        find::Error::ReferenceCreation(_) => FileError::Failed,
        find::Error::PackedOpen(error) => of_opening(error),
    }
}

fn of_following(error: follow::Error) -> FileError
    ensures { result ≡ faults.of_following error }
{
    match error {
        follow::Error::Memory => FileError::Memory,
        follow::Error::Cycle => FileError::Failed,
        follow::Error::DepthLimitExceeded => FileError::Failed,
        follow::Error::Follow(find::ExistingError::NotFound) => FileError::Failed,
        follow::Error::Follow(find::ExistingError::Find(error)) => of_finding(error),
    }
}

fn of_peeling(error: peel::Error) -> FileError
    ensures { result ≡ faults.of_peeling error }
{
    match error {
        peel::Error::Memory => FileError::Memory,
        peel::Error::NotFound { .. } => FileError::Failed,
        peel::Error::Find(lookup::Error::Memory) => FileError::Memory,
        peel::Error::Find(lookup::Error::Failed) => FileError::Failed,
        peel::Error::FollowToObject(error) => of_following(error),
    }
}

fn of_splitting(error: PreProcessError) -> FileError
    ensures { result ≡ faults.of_splitting error }
{
    match error {
        PreProcessError::Split(SplitError::Memory) => FileError::Memory,
        PreProcessError::Split(SplitError::Find) => FileError::Failed,
        PreProcessError::Split(SplitError::Cycle) => FileError::Failed,
        PreProcessError::Twice(TwiceError::Memory) => FileError::Memory,
        PreProcessError::Twice(TwiceError::Name(_)) => FileError::Failed,
    }
}

// The error of edits that aren't prepared.
pub(crate) fn of_preparing(error: PrepareError) -> FileError
    ensures { result ≡ faults.of_preparing error }
{
    match error {
        PrepareError::Memory => FileError::Memory,
        PrepareError::Packed(error) => of_opening(error),
        PrepareError::ReferenceDecode(error) => of_finding(error),
        PrepareError::PreprocessingFailed(error) => of_splitting(error),
        PrepareError::PackedTransactionAcquire(_) => FileError::Failed,
        PrepareError::PackedTransactionPrepare(_) => FileError::Failed,
        PrepareError::SamePlace => FileError::Failed,
        PrepareError::Uncomposed => FileError::Failed,
        PrepareError::LockAcquire => FileError::Failed,
        PrepareError::Io => FileError::Failed,
        PrepareError::Refused(_) => FileError::Failed,
        PrepareError::CreateOrUpdateRefLog(_) => FileError::Failed,
        PrepareError::Resolve(error) => of_peeling(error),
    }
}

// The error of edits that aren't committed.
pub(crate) fn of_committing(error: CommitError) -> FileError
    ensures { result ≡ faults.of_committing error }
{
    match error {
        CommitError::Memory => FileError::Memory,
        CommitError::PackedTransactionCommit(packed::CommitError::Memory) => FileError::Memory,
        CommitError::PackedTransactionCommit(packed::CommitError::Commit) => FileError::Failed,
        CommitError::LockCommit => FileError::Failed,
        CommitError::DeleteReference => FileError::Failed,
        CommitError::DeleteReflog => FileError::Failed,
        CommitError::CreateOrUpdateRefLog(_) => FileError::Failed,
    }
}

// Returns the name of these bytes; `Failed` if they are none.
pub(crate) fn full_name(alloc: Global, name: &[u8]) -> Result<FullName, FileError>
    ensures same { IfOk result (λ full. full ≡ name.now) }
    ensures failed { IsTrue (is_full_name name.now) → result ≢ Err Failed }
{
    match FullName::from_bytes(alloc, name) {
        Ok(full) => Ok(full),
        Err(NameError::Invalid) => Err(FileError::Failed),
        Err(NameError::Memory) => Err(FileError::Memory),
    }
}
