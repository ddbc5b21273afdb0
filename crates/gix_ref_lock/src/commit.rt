//! Commits of all moves and of `packed-refs`, and giving all locks back (`commit`, `give_back_all`).

ghost use Rattle.std.specs.Prelude.{◌≡◌, ◌≢◌, ◌⊎◌, Err};
ghost use Rattle.std.specs.List.{AllByRecursion};
ghost use Rattle.gix_ref_file.specs.Calls.{Achieves, HasFault, Passes};
ghost use Rattle.gix_ref_file.specs.History.{HasRisen};
ghost use Rattle.gix_ref_lock.specs.declared.lock.GivenBack.TheVariants as given;
ghost use Rattle.gix_ref_lock.specs.declared.packed.CommitError.TheVariants as packed_case;
ghost use Rattle.gix_ref_way.specs.Ways.{FoldersOnlyOf};
ghost use Rattle.gix_ref_lock.specs.Calls.{FailsByFault, EndsQuietly, KeepsFolders, StaysHonest};
ghost use Rattle.gix_ref_lock.specs.Committing.{AreUnlocked, IsCommitted, IsShowing, KeepsPacked, LocksAlone, MayReplace, NoneLocked, OnTheWay, Replaces, commit_paths, shown};
ghost use Rattle.gix_ref_lock.specs.Moments.{SameButLocks};
ghost use Rattle.gix_ref_lock.specs.Moves.{AllHave, AllMay, LocksHeld, Once, all_paths, lock_paths};
ghost use Rattle.gix_ref_lock.specs.Needs.{AreBeside, CanCommit, CanMove, CanReplace, IsOutOfMemory, PackedLocked, log_paths};
ghost use Rattle.gix_ref_lock.specs.PackedErrors.{IsUncommitted};

use crate::act::{CommitError, Move};
use crate::lock::GivenBack;
use crate::packed::{self, Transaction};
use crate::steps::{Step, make_all};
use gix_ref_file::Files;
use std::alloc::Global;

/// Makes moves, and replaces the packed records whose transaction is prepared. First all updates:
/// each log gets its line, and then the lock is put in the place of the file. Then the logs of what
/// is removed go, then packed records are replaced, and at last the files go. So at each moment,
/// and also after a stop, each file is as before or as in the end, with its log as in the end if
/// the file is; and nothing is removed before all updates show.
///
/// The errors name the call of the files that failed. After one, no lock exists, as far as giving
/// them back succeeds; the error is `LockCommit` if a removal of one failed.
pub fn commit<F: Files>(
    alloc: Global,
    files: &mut F,
    moves: &[Move],
    packed: Option<Transaction>,
) -> Result<(), CommitError>
    ensures keeps { StaysHonest F.Files (EndsQuietly IsOutOfMemory result) files.old files.new }
    ensures moments { Once (commit_paths packed moves.now)
        → Passes F.is_honest F.history files.old files.new (OnTheWay packed moves.now) }
    ensures done { Once (commit_paths packed moves.now)
        → Achieves F.is_honest F.history files.old files.new result
        (IsCommitted packed moves.now) }
    ensures folders { Once (commit_paths packed moves.now)
        → Passes F.is_honest F.history files.old files.new (FoldersOnlyOf (log_paths moves.now)) }
    ensures failed { Once (commit_paths packed moves.now) → F.is_honest files.old
        → CanCommit packed moves.now (F.history files.old).tree
        → FailsByFault F.Files IsOutOfMemory files.old files.new result }
{
    match make(alloc, files, moves, packed) {
        Ok(()) => Ok(()),
        Err(error) => Err(after(error, give_back_all(alloc, files, moves))),
    }
}

/// Gives the locks back of all moves; also if one can't be given back, then the others. A lock that
/// isn't there any more is passed over. Returns the worst that came of one: `Failed` if a removal
/// failed, else `Memory` if memory was wanting.
pub fn give_back_all<F: Files>(alloc: Global, files: &mut F, moves: &[Move]) -> GivenBack
    ensures keeps { KeepsFolders F.Files (result ≢ given.Failed) files.old files.new }
    ensures locks { Passes F.is_honest F.history files.old files.new SameButLocks }
    ensures moments { Once (all_paths moves.now)
        → Passes F.is_honest F.history files.old files.new (AllMay LocksAlone moves.now) }
    ensures failed { F.is_honest files.old → result ≡ given.Failed
        → HasFault F.failures F.reading_may_fail files.old files.new }
    ensures held { Once (lock_paths moves.now) → F.is_honest files.old
        → LocksHeld moves.now (F.history files.old).tree
        → result ≡ given.Failed → HasRisen (F.failures files.old) (F.failures files.new) }
    ensures gone { Once (all_paths moves.now) → F.is_honest files.old → result ≡ given.Done
        → NoneLocked moves.now (F.history files.old).tree (F.history files.new).tree }
    ensures rolled_back { F.is_honest files.old → result ≡ given.Done
        → AreUnlocked moves.now (F.history files.old).tree (F.history files.new).tree }
{
    let mut outcome = GivenBack::Done;
    let mut rest = moves;
    'moves: while let Some((first, others)) = rest.split_first() {
        outcome = outcome.or_worse(first.lock.withdraw(alloc, files));
        rest = others;
    }
    outcome
}

// Returns why a commit failed, whose locks were then given back.
fn after(error: CommitError, locks: GivenBack) -> CommitError
    ensures told { (result ≡ error) ⊎ (locks ≡ given.Failed) }
    ensures kept { IsOutOfMemory result → (result ≡ error) × (locks ≢ given.Failed) }
{
    match locks {
        GivenBack::Failed => CommitError::LockCommit,
        GivenBack::Done | GivenBack::Memory => error,
    }
}

// Makes all steps, one after another.
fn make<F: Files>(
    alloc: Global,
    files: &mut F,
    moves: &[Move],
    packed: Option<Transaction>,
) -> Result<(), CommitError>
    ensures keeps { StaysHonest F.Files (EndsQuietly IsOutOfMemory result) files.old files.new }
    ensures moments { Once (commit_paths packed moves.now)
        → Passes F.is_honest F.history files.old files.new (OnTheWay packed moves.now) }
    ensures done { Once (commit_paths packed moves.now)
        → Achieves F.is_honest F.history files.old files.new result
        (IsCommitted packed moves.now) }
    ensures folders { Once (commit_paths packed moves.now)
        → Passes F.is_honest F.history files.old files.new (FoldersOnlyOf (log_paths moves.now)) }
    ensures failed { Once (commit_paths packed moves.now) → F.is_honest files.old
        → CanCommit packed moves.now (F.history files.old).tree
        → FailsByFault F.Files IsOutOfMemory files.old files.new result }
{
    match show_updates(alloc, files, moves) {
        Ok(()) => {
            replace_packed(alloc, files, packed)?;
            make_all(alloc, files, Step::Remove, moves)
        }
        Err(error) => Err(after(error, drop_packed(alloc, files, packed))),
    }
}

// Makes all updates, and lets the logs go of what is removed.
fn show_updates<F: Files>(alloc: Global, files: &mut F, moves: &[Move]) -> Result<(), CommitError>
    ensures keeps { StaysHonest F.Files (EndsQuietly IsOutOfMemory result) files.old files.new }
    ensures moments { Once (all_paths moves.now)
        → Passes F.is_honest F.history files.old files.new (IsShowing moves.now) }
    ensures shown { Once (all_paths moves.now)
        → Achieves F.is_honest F.history files.old files.new result (AllHave shown moves.now) }
    ensures folders { Once (all_paths moves.now)
        → Passes F.is_honest F.history files.old files.new (FoldersOnlyOf (log_paths moves.now)) }
    ensures failed { Once (all_paths moves.now) → AreBeside (all_paths moves.now)
        → F.is_honest files.old
        → AllByRecursion (λ m. CanMove m (F.history files.old).tree) moves.now
        → FailsByFault F.Files IsOutOfMemory files.old files.new result }
{
    make_all(alloc, files, Step::Update, moves)?;
    make_all(alloc, files, Step::Forget, moves)
}

// Puts the packed records in their place, if there are new ones.
fn replace_packed<F: Files>(
    alloc: Global,
    files: &mut F,
    packed: Option<Transaction>,
) -> Result<(), CommitError>
    ensures keeps { KeepsFolders F.Files (EndsQuietly IsOutOfMemory result) files.old files.new }
    ensures moments { Passes F.is_honest F.history files.old files.new (MayReplace packed) }
    ensures replaced { Achieves F.is_honest F.history files.old files.new result
        (Replaces packed) }
    ensures failed { F.is_honest files.old → CanReplace packed (F.history files.old).tree
        → FailsByFault F.Files IsOutOfMemory files.old files.new result }
{
    match packed {
        Some(packed) => match packed.commit(alloc, files) {
            Ok(()) => Ok(()),
            Err(error) => Err(CommitError::PackedTransactionCommit(error)),
        },
        None => Ok(()),
    }
}

// Gives the lock of packed records back.
fn drop_packed<F: Files>(alloc: Global, files: &mut F, packed: Option<Transaction>) -> GivenBack
    ensures keeps { KeepsFolders F.Files (result ≢ given.Failed) files.old files.new }
    ensures moments { Passes F.is_honest F.history files.old files.new (KeepsPacked packed) }
    ensures failed { F.is_honest files.old → PackedLocked packed (F.history files.old).tree
        → result ≡ given.Failed → HasRisen (F.failures files.old) (F.failures files.new) }
{
    match packed {
        Some(packed) => dropped(packed.rollback(alloc, files)),
        None => GivenBack::Done,
    }
}

// Returns what came of giving the lock of packed records back.
fn dropped(outcome: Result<(), packed::CommitError>) -> GivenBack
    ensures failed { result ≡ given.Failed → outcome ≡ Err packed_case.Commit }
    ensures others { result ≢ given.Failed → EndsQuietly IsUncommitted outcome }
{
    match outcome {
        Ok(()) => GivenBack::Done,
        Err(packed::CommitError::Commit) => GivenBack::Failed,
        Err(packed::CommitError::Memory) => GivenBack::Memory,
    }
}
