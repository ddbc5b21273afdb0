//! Appending a line to a log, whose folders are made first.

ghost use Rattle.std.specs.Prelude.{[], ◌∷◌, Some};
ghost use Rattle.gix_ref_file.specs.Calls.{Achieves, Passes};
ghost use Rattle.gix_ref_way.specs.Ways.{FoldersOnlyOf};
ghost use Rattle.gix_ref_lock.specs.Calls.{FailsByFault, EndsQuietly, StaysHonest};
ghost use Rattle.gix_ref_lock.specs.Contents.{noted};
ghost use Rattle.gix_ref_lock.specs.Moments.{MayNote, NotesLog};
ghost use Rattle.gix_ref_lock.specs.Needs.{CanNote, IsOutOfMemory, noted_logs};

use crate::act::{CommitError, LogError, outcome_of_call};
use gix_ref_file::Files;
use gix_ref_way::make_way;
use std::alloc::Global;

// Appends the line, if there is one, to the log.
pub(crate) fn note<F: Files>(
    alloc: Global,
    files: &mut F,
    log: &[u8],
    line: &Option<Vec<u8>>,
) -> Result<(), CommitError>
    ensures keeps { StaysHonest F.Files (EndsQuietly IsOutOfMemory result) files.old files.new }
    ensures moments { Passes F.is_honest F.history files.old files.new (MayNote line.now log.now) }
    ensures noted { Achieves F.is_honest F.history files.old files.new result
        (NotesLog line.now log.now) }
    ensures folders { Passes F.is_honest F.history files.old files.new
        (FoldersOnlyOf (noted_logs line.now log.now)) }
    ensures failed { F.is_honest files.old → CanNote line.now log.now (F.history files.old).tree
        → FailsByFault F.Files IsOutOfMemory files.old files.new result }
{
    match line {
        Some(line) => append(alloc, files, log, line),
        None => Ok(()),
    }
}

fn append<F: Files>(
    alloc: Global,
    files: &mut F,
    log: &[u8],
    line: &Vec<u8>,
) -> Result<(), CommitError>
    ensures keeps { StaysHonest F.Files (EndsQuietly IsOutOfMemory result) files.old files.new }
    ensures moments { Passes F.is_honest F.history files.old files.new
        (MayNote (Some line.now) log.now) }
    ensures noted { Achieves F.is_honest F.history files.old files.new result
        (NotesLog (Some line.now) log.now) }
    ensures folders { Passes F.is_honest F.history files.old files.new
        (FoldersOnlyOf (log.now ∷ [])) }
    ensures failed { F.is_honest files.old
        → CanNote (Some line.now) log.now (F.history files.old).tree
        → FailsByFault F.Files IsOutOfMemory files.old files.new result }
{
    outcome_of_call(
        make_way(alloc, files, log),
        CommitError::CreateOrUpdateRefLog(LogError::CreateLeadingDirectories),
    )?;
    outcome_of_call(
        files.append(alloc, log, line),
        CommitError::CreateOrUpdateRefLog(LogError::Append),
    )
}
