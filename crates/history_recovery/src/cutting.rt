//! Cuts logs after their last line feeds, in place: finds the last one, and shortens the file.
ghost use Rattle.std.specs.Prelude.{◌≡◌, length, take, IfOk, IsErrOf, IsTrue};
ghost use Rattle.gix_ref_file.specs.Calls.{Achieves, Finds, HasFault, Passes};
ghost use Rattle.gix_ref_file.specs.Tree.{bytes_at};
ghost use Rattle.gix_ref_file.specs.declared.files.FileError.TheVariants.{Failed, Memory};
ghost use Rattle.history_model.specs.Places.{is_log_place};
ghost use Rattle.history_model.specs.Logs as logs;
ghost use Rattle.gix_hash.specs.declared.kind.Kind.{Kind};
ghost use Rattle.history_recovery.specs.Clearing.{AreCutBelow, Cuts, IsCut, IsLogFolder};
ghost use Rattle.history_recovery.specs.Recovering.{NamesAlike};
ghost use Rattle.history_recovery.specs.Changes.{ChangesHonestly};

use crate::pieces::{MAX_PIECE, piece_at};
use gix_ref_file::paths::{is_deeper, joined};
use gix_ref_file::{FileError, Files, Place};
use std::alloc::Global;

/// Cuts the logs below a folder of logs.
pub(crate) fn cut_below<F: Files>(
    alloc: Global,
    files: &mut F,
    folder: &[u8],
) -> Result<(), FileError>
    ensures keeps { ChangesHonestly F.Files Memory files.old files.new result }
    ensures alike { (kind : Kind) → IsLogFolder folder.now
        → Passes F.is_honest F.history files.old files.new (NamesAlike kind) }
    ensures cuts { IsLogFolder folder.now
        → Achieves F.is_honest F.history files.old files.new result Cuts }
    ensures cut { IsLogFolder folder.now
        → Achieves F.is_honest F.history files.old files.new result
        (λ _ new. AreCutBelow folder.now new) }
    ensures failed { F.is_honest files.old → IsErrOf result Failed
        → HasFault F.failures F.reading_may_fail files.old files.new }
{
    for name in &files.list(alloc, folder)? {
        let path = joined(alloc, folder, name)?;
        if is_deeper(&path, folder) {
            cut_log(alloc, files, &path)?;
            cut_below(alloc, files, &path)?;
        }
    }
    Ok(())
}

// Cuts the log at a path, if there is a file.
fn cut_log<F: Files>(alloc: Global, files: &mut F, log: &[u8]) -> Result<(), FileError>
    ensures keeps { ChangesHonestly F.Files Memory files.old files.new result }
    ensures alike { (kind : Kind) → IsTrue (is_log_place log.now)
        → Passes F.is_honest F.history files.old files.new (NamesAlike kind) }
    ensures cuts { IsTrue (is_log_place log.now)
        → Achieves F.is_honest F.history files.old files.new result Cuts }
    ensures cut { IsTrue (is_log_place log.now)
        → Achieves F.is_honest F.history files.old files.new result
        (λ _ new. IsCut new log.now) }
    ensures failed { F.is_honest files.old → IsErrOf result Failed
        → HasFault F.failures F.reading_may_fail files.old files.new }
{
    let Place::File(len) = files.kind_of(log)? else {
        return Ok(());
    };
    let end = end_of_lines(alloc, &*files, log, len)?;
    if end >= len {
        return Ok(());
    }
    files.shorten(alloc, log, end)
}

// Returns where the last line feed of a file of so many bytes ends, 0 if it has none. The file is
// read in pieces, the last one first.
fn end_of_lines<F: Files>(alloc: Global, files: &F, path: &[u8], len: u64) -> Result<u64, FileError>
    requires size { Finds F.is_honest F.history files.now
        (λ tree. len ≡ length (bytes_at tree path.now)) }
    ensures found { Finds F.is_honest F.history files.now
        (λ tree. IfOk result (λ end. take end (bytes_at tree path.now)
        ≡ logs.whole_lines (bytes_at tree path.now))) }
    ensures failed { IsErrOf result Failed → F.reading_may_fail }
{
    let mut end = len;
    'pieces: while end > 0 {
        let start = end.saturating_sub(MAX_PIECE);
        let piece = piece_at(alloc, files, path, start, end - start)?;
        let whole = whole_lines(&piece);
        if !whole.is_empty() {
            return Ok(start + whole.len() as u64);
        }
        end = start;
    }
    Ok(0)
}

// Returns the text up to its last line feed.
fn whole_lines(text: &[u8]) -> &[u8]
    ensures { result.now ≡ logs.whole_lines text.now }
{
    let mut end = text.len();
    while end > 0 && text[end - 1] != b'\n' {
        end -= 1;
    }
    &text[..end]
}
