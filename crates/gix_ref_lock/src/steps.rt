//! The steps in which moves are made: first all updates, then removals of logs, then of files and locks.

ghost use Rattle.std.specs.Prelude.{IsTrue};
ghost use Rattle.std.specs.List.{AllByRecursion};
ghost use Rattle.gix_ref_file.specs.Changes.{is_file_at};
ghost use Rattle.gix_ref_file.specs.Calls.{Achieves, Passes};
ghost use Rattle.gix_ref_way.specs.Ways.{FoldersOnlyOf};
ghost use Rattle.gix_ref_lock.specs.Calls.{FailsByFault, EndsQuietly, KeepsFolders, StaysHonest};
ghost use Rattle.gix_ref_lock.specs.Contents.{contents, forgotten, gone, lock_path_of, removed, updated};
ghost use Rattle.gix_ref_lock.specs.Moments.{AreApart, Has, IsForgetting, IsGoing, IsGone, IsMaking, IsRemoving, IsUpdating, MayGo, MayMove, made_by};
ghost use Rattle.gix_ref_lock.specs.Moves.{AllHave, AllMay, Once, all_paths, paths_of};
ghost use Rattle.gix_ref_lock.specs.Needs.{AreBeside, CanMove, IsOutOfMemory, KeepsLock, Needs, log_paths, logs_of};

use crate::act::{Act, CommitError, Move, outcome_of_call};
use crate::notes::note;
use gix_ref_file::{FileError, Files, Place};
use std::alloc::Global;

#[derive(Debug, Clone, Copy, PartialEq, Eq)]
pub(crate) enum Step {
    // Appends lines to logs, and renames locks to their places.
    Update,
    // Removes the logs of what is removed.
    Forget,
    // Removes the files of what is removed or packed, and their locks.
    Remove,
}

// Makes a step of each move, one after another.
pub(crate) fn make_all<F: Files>(
    alloc: Global,
    files: &mut F,
    step: Step,
    moves: &[Move],
) -> Result<(), CommitError>
    ensures keeps { StaysHonest F.Files (EndsQuietly IsOutOfMemory result) files.old files.new }
    ensures moments { Once (all_paths moves.now)
        → Passes F.is_honest F.history files.old files.new (AllMay (IsMaking step) moves.now) }
    ensures made { Once (all_paths moves.now)
        → Achieves F.is_honest F.history files.old files.new result
        (AllHave (made_by step) moves.now) }
    ensures folders { Once (all_paths moves.now)
        → Passes F.is_honest F.history files.old files.new (FoldersOnlyOf (log_paths moves.now)) }
    ensures failed { Once (all_paths moves.now) → AreBeside (all_paths moves.now)
        → F.is_honest files.old
        → AllByRecursion (λ m. Needs step m (F.history files.old).tree) moves.now
        → FailsByFault F.Files IsOutOfMemory files.old files.new result }
{
    let mut rest = moves;
    'moves: while let Some((first, others)) = rest.split_first() {
        make(alloc, files, step, first)?;
        rest = others;
    }
    Ok(())
}

fn make<F: Files>(alloc: Global, files: &mut F, step: Step, made: &Move) -> Result<(), CommitError>
    ensures keeps { StaysHonest F.Files (EndsQuietly IsOutOfMemory result) files.old files.new }
    ensures moments { AreApart made.now
        → Passes F.is_honest F.history files.old files.new (MayMove (IsMaking step) made.now) }
    ensures made { AreApart made.now
        → Achieves F.is_honest F.history files.old files.new result (Has (made_by step) made.now) }
    ensures folders { Passes F.is_honest F.history files.old files.new
        (FoldersOnlyOf (logs_of made.now)) }
    ensures failed { AreApart made.now → AreBeside (paths_of made.now) → F.is_honest files.old
        → Needs step made.now (F.history files.old).tree
        → FailsByFault F.Files IsOutOfMemory files.old files.new result }
{
    match step {
        Step::Update => update(alloc, files, made),
        Step::Forget => forget(alloc, files, made),
        Step::Remove => remove(alloc, files, made),
    }
}

fn update<F: Files>(alloc: Global, files: &mut F, made: &Move) -> Result<(), CommitError>
    ensures keeps { StaysHonest F.Files (EndsQuietly IsOutOfMemory result) files.old files.new }
    ensures moments { AreApart made.now
        → Passes F.is_honest F.history files.old files.new (MayMove IsUpdating made.now) }
    ensures made { AreApart made.now
        → Achieves F.is_honest F.history files.old files.new result (Has updated made.now) }
    ensures folders { Passes F.is_honest F.history files.old files.new
        (FoldersOnlyOf (logs_of made.now)) }
    ensures failed { AreApart made.now → AreBeside (paths_of made.now) → F.is_honest files.old
        → CanMove made.now (F.history files.old).tree
        → FailsByFault F.Files IsOutOfMemory files.old files.new result }
{
    match &made.act {
        Act::Put(line) => {
            note(alloc, files, &made.log, line)?;
            outcome_of_call(made.lock.put(alloc, files), CommitError::LockCommit)
        }
        Act::Note(line) => {
            note(alloc, files, &made.log, line)?;
            outcome_of_call(made.lock.give_back(alloc, files), CommitError::LockCommit)
        }
        Act::Pack(line) => note(alloc, files, &made.log, line),
        Act::Remove | Act::Forget => Ok(()),
    }
}

fn forget<F: Files>(alloc: Global, files: &mut F, made: &Move) -> Result<(), CommitError>
    ensures keeps { KeepsFolders F.Files (EndsQuietly IsOutOfMemory result) files.old files.new }
    ensures moments { AreApart made.now
        → Passes F.is_honest F.history files.old files.new (MayMove IsForgetting made.now) }
    ensures made { AreApart made.now
        → Achieves F.is_honest F.history files.old files.new result (Has forgotten made.now) }
    ensures failed { F.is_honest files.old
        → FailsByFault F.Files IsOutOfMemory files.old files.new result }
{
    match &made.act {
        Act::Put(_) | Act::Note(_) | Act::Pack(_) => Ok(()),
        Act::Remove | Act::Forget => {
            remove_file(alloc, files, &made.log, CommitError::DeleteReflog)
        }
    }
}

fn remove<F: Files>(alloc: Global, files: &mut F, made: &Move) -> Result<(), CommitError>
    ensures keeps { KeepsFolders F.Files (EndsQuietly IsOutOfMemory result) files.old files.new }
    ensures moments { AreApart made.now
        → Passes F.is_honest F.history files.old files.new (MayMove IsRemoving made.now) }
    ensures made { AreApart made.now
        → Achieves F.is_honest F.history files.old files.new result (Has removed made.now) }
    ensures failed { AreApart made.now → F.is_honest files.old
        → KeepsLock made.now.act (contents made.now (F.history files.old).tree)
        → FailsByFault F.Files IsOutOfMemory files.old files.new result }
{
    match &made.act {
        Act::Put(_) | Act::Note(_) => Ok(()),
        Act::Pack(_) => remove_locked(alloc, files, made),
        Act::Remove => remove_locked(alloc, files, made),
        Act::Forget => outcome_of_call(made.lock.give_back(alloc, files), CommitError::LockCommit),
    }
}

// Removes the file, if it exists, and then gives its lock back.
fn remove_locked<F: Files>(alloc: Global, files: &mut F, made: &Move) -> Result<(), CommitError>
    ensures keeps { KeepsFolders F.Files (EndsQuietly IsOutOfMemory result) files.old files.new }
    ensures moments { AreApart made.now
        → Passes F.is_honest F.history files.old files.new (MayMove IsGoing made.now) }
    ensures made { AreApart made.now
        → Achieves F.is_honest F.history files.old files.new result (Has gone made.now) }
    ensures failed { AreApart made.now → F.is_honest files.old
        → IsTrue (is_file_at (F.history files.old).tree (lock_path_of made.now))
        → FailsByFault F.Files IsOutOfMemory files.old files.new result }
{
    remove_file(alloc, files, &made.lock.place, CommitError::DeleteReference)?;
    outcome_of_call(made.lock.give_back(alloc, files), CommitError::LockCommit)
}

// Removes a file, if it exists.
fn remove_file<F: Files>(
    alloc: Global,
    files: &mut F,
    path: &[u8],
    why: CommitError,
) -> Result<(), CommitError>
    ensures keeps { KeepsFolders F.Files
        (EndsQuietly (λ error. (¬ IsOutOfMemory why) × IsOutOfMemory error) result) files.old files.new }
    ensures moments { Passes F.is_honest F.history files.old files.new (MayGo path.now) }
    ensures gone { Achieves F.is_honest F.history files.old files.new result (IsGone path.now) }
    ensures failed { F.is_honest files.old
        → FailsByFault F.Files IsOutOfMemory files.old files.new result }
{
    match files.kind_of(path) {
        Ok(Place::File(_)) => outcome_of_call(files.remove_file(alloc, path), why),
        Ok(Place::Absent) | Ok(Place::Folder) => Ok(()),
        Err(FileError::Failed) => Err(why),
        Err(FileError::Memory) => Err(CommitError::Memory),
    }
}
