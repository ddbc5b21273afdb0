//! Causes in a `commit` itself: bad paths, bad titles, contents over the limit; its actors' times (`read_times`).

ghost use Rattle.std.specs.Prelude.{◌≡◌, IsFalse, IsTrue, List, MatchResult, None};
ghost use Rattle.std.specs.List.{list_any, flat_map};
ghost use Rattle.history_model.specs.Forms.{max_content, max_path};
ghost use Rattle.history_model.specs.Causes.{is_bad_title, is_bad_path};
ghost use Rattle.history_model.specs.Bytes.{Bytes};
ghost use Rattle.history_model.specs.CommandParts.{contents_in, edit_paths, put_contents, source_paths};
ghost use Rattle.history_model.specs.declared.Cause.TheVariants.{BadPath};
ghost use Rattle.history_model.specs.Commands.{Commit, EditLine};
ghost use Rattle.history_word.specs.Commands.{AreEdits, IsActor, IsEdit};
ghost use Rattle.history_word.specs.Fields.{Keeps};
ghost use Rattle.history_plans.specs.CommitCauses.{AreTimes, first_among, is_long, path_causes};
ghost use Rattle.history_model.specs.Repository as plain;
ghost use Rattle.history_model.specs.Commands as model;

use crate::actors::{has_good_names, time_of};
use gix_object::lines::Time;
use history_model::Cause;
use history_model::limits::MAX_TITLE;
use history_repository::{is_bad_path, is_too_long, kept};
use history_store::title;
use history_word::{ActorLine, Edit, Field};

/// When the two actors of a commit acted.
#[derive(Clone, Copy)]
pub(crate) struct Times {
    pub(crate) author: Time,
    pub(crate) committer: Time,
}

/// Returns whether a title is empty, over its limit, or holds a byte that can't be in a log's line.
pub(crate) fn is_bad_title(title: &[u8]) -> bool
    ensures { result ≡ is_bad_title title.now }
{
    title.is_empty()
        || title.len() > MAX_TITLE
        || title
            .iter()
            .any(|byte| matches!(byte, b'\0' | b'\t' | b'\r'))
}

fn has_bad_path(edit: &Edit) -> bool
    ensures { (line : EditLine) → IsEdit edit.now line
        → result ≡ list_any is_bad_path (edit_paths line) }
{
    match edit {
        Edit::Put(put) => is_bad_path(&put.path),
        Edit::Remove(path) => is_bad_path(path),
        Edit::RemoveFile(path) => is_bad_path(path),
        Edit::Graft(graft) => is_bad_path(&graft.path) || is_bad_source(&graft.source),
    }
}

/// Returns whether a graft's source is an invalid path; that of all files isn't tested.
fn is_bad_source(source: &Field) -> bool
    ensures { (bytes : Bytes) → Keeps max_path source.now bytes
        → result ≡ list_any is_bad_path (source_paths bytes) }
{
    !kept(source).is_empty() && is_bad_path(source)
}

fn has_long_content(edit: &Edit) -> bool
    ensures { (line : EditLine) → IsEdit edit.now line
        → result ≡ list_any is_long (put_contents line) }
{
    match edit {
        Edit::Put(put) => is_too_long(&put.content),
        Edit::Remove(_) => false,
        Edit::RemoveFile(_) => false,
        Edit::Graft(_) => false,
    }
}

fn have_bad_path(edits: &[Edit]) -> bool
    ensures { (lines : List EditLine) → AreEdits edits.now lines
        → result ≡ list_any is_bad_path (flat_map edit_paths lines) }
{
    edits.iter().any(|edit| has_bad_path(edit))
}

/// Returns whether a content that is put is over its limit.
pub(crate) fn have_long_content(edits: &[Edit]) -> bool
    ensures { (lines : List EditLine) → AreEdits edits.now lines
        → result ≡ list_any is_long (flat_map put_contents lines) }
{
    edits.iter().any(|edit| has_long_content(edit))
}

/// Tests that no path is bad. Otherwise returns `BadPath`.
pub(crate) fn test_paths(edits: &[Edit]) -> Result<(), Cause>
    ensures { (lines : List EditLine) → AreEdits edits.now lines → MatchResult result
        (λ _. IsFalse (list_any is_bad_path (flat_map edit_paths lines)))
        (λ cause. (cause ≡ BadPath) × IsTrue (list_any is_bad_path (flat_map edit_paths lines))) }
{
    if have_bad_path(edits) {
        return Err(Cause::BadPath);
    }
    Ok(())
}

/// Tests what the command says by itself after its paths, in the order of the causes, and returns
/// the times. Otherwise returns the first cause that holds: `BadActor`, `BadTime`, `BadMessage` or
/// `TooLarge`.
pub(crate) fn read_times(
    author: &ActorLine,
    committer: &ActorLine,
    message: &Field,
    has_long_content: bool,
) -> Result<Times, Cause>
    ensures { (r : plain.Repository) (sent : model.CommitCommand)
        → IsActor author.now sent.author → IsActor committer.now sent.committer
        → Keeps max_content message.now sent.message
        → has_long_content ≡ list_any is_long (contents_in (Commit sent))
        → first_among path_causes r (Commit sent) ≡ None
        → AreTimes r sent result }
{
    if !has_good_names(author) || !has_good_names(committer) {
        return Err(Cause::BadActor);
    }
    let author = time_of(author).ok_or(Cause::BadTime)?;
    let committer = time_of(committer).ok_or(Cause::BadTime)?;
    if is_bad_title(title(kept(message))) {
        return Err(Cause::BadMessage);
    }
    if is_too_long(message) || has_long_content {
        return Err(Cause::TooLarge);
    }
    Ok(Times { author, committer })
}
