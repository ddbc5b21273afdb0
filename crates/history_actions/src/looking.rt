//! Whether a folder is a repository's, before it is recovered: HEAD names a branch; paths that files may have.
ghost use Rattle.std.specs.Prelude.{◌≡◌, ◌&&◌, IfErr, OnOk};
ghost use Rattle.std.specs.List.{list_all};
ghost use Rattle.gix_ref_file.specs.Calls.{Finds};
ghost use Rattle.history_model.specs.Bytes.{Bytes};
ghost use Rattle.history_model.specs.Forms.{is_branch, is_name};
ghost use Rattle.history_model.specs.Places.{is_log_place, is_lower_hex, log_name};
ghost use Rattle.history_check_names.specs.Parts.{NamesBranch};
ghost use Rattle.history_repository.specs.Opened.{trees_of};
ghost use Rattle.history_actions.specs.Looking.{AreOwnBelow, IsForeign, IsHeadless, IsRecoverable, IsStrayed, TellsHead, is_lock_of_place, is_names_place, is_object_place, may_have_file};

use gix_hash::Kind;
use gix_object_lines::cut::{strip_prefix, strip_suffix};
use gix_ref_file::paths::{is_deeper, joined};
use gix_ref_file::{Files, Place};
use history_check_names::{MAX_LOOSE, test_long_packed};
use history_model::names::{HEAD, HEADS};
use history_texts::{OpenError, Part, is_name};
use std::alloc::Global;

/// Tests that a folder's two parts are a repository's of this kind, as a stopped run leaves it:
/// HEAD names a branch, and each file is at a place of a repository, or is one that was to be
/// renamed to such a place. Of the files' contents HEAD's is read, if it isn't too long, and that
/// of a long `packed-refs` in pieces: recovery reads it whole.
///
/// Otherwise returns why not: `NoHead` if there is no file HEAD, `BadHead` if it names no branch,
/// `Stray` with the path of another file, `BadPacked` with a line of a long `packed-refs` that is
/// none; or `File` if a call of the files failed, and `Memory` if memory ran out.
pub(crate) fn look<F: Files>(
    alloc: Global,
    objects: &F,
    names: &F,
    kind: Kind,
) -> Result<(), OpenError>
    ensures own { F.is_honest objects.now → F.is_honest names.now → OnOk result
        (IsRecoverable kind (trees_of F.history objects.now names.now)) }
    ensures foreign { F.is_honest objects.now → F.is_honest names.now → IfErr result (λ cause.
        IsForeign F.reading_may_fail kind (trees_of F.history objects.now names.now) cause) }
{
    look_at_head(alloc, names)?;
    look_below(alloc, objects, Part::Objects, kind, b"")?;
    look_below(alloc, names, Part::Names, kind, b"")?;
    test_long_packed(alloc, names, kind)?;
    Ok(())
}

// Tests that HEAD names a branch.
fn look_at_head<F: Files>(alloc: Global, names: &F) -> Result<(), OpenError>
    ensures named { Finds F.is_honest F.history names.now
        (λ tree. OnOk result ((branch : Bytes) × NamesBranch tree branch)) }
    ensures wrong { Finds F.is_honest F.history names.now
        (λ tree. IfErr result (IsHeadless F.reading_may_fail tree)) }
{
    let Place::File(len) = names.kind_of(HEAD)? else {
        return Err(OpenError::NoHead);
    };
    if len > MAX_LOOSE {
        return Err(OpenError::BadHead);
    }
    let mut text = Vec::new(alloc);
    names.read(HEAD, &mut text)?;
    if !names_branch(&text) {
        return Err(OpenError::BadHead);
    }
    Ok(())
}

// Returns whether a text is `ref: `, the name of a branch and a line feed.
fn names_branch(text: &[u8]) -> bool
    ensures { TellsHead text.now result }
{
    let Some(line) = strip_prefix(text, b"ref: ") else {
        return false;
    };
    let Some(branch) = strip_suffix(line, b"\n") else {
        return false;
    };
    is_branch(branch)
}

fn is_branch(name: &[u8]) -> bool
    ensures { result ≡ is_branch name.now }
{
    is_name(name) && name.starts_with(HEADS)
}

// Tests that each file below a folder is one that a repository may have.
fn look_below<F: Files>(
    alloc: Global,
    files: &F,
    part: Part,
    kind: Kind,
    folder: &[u8],
) -> Result<(), OpenError>
    ensures own { Finds F.is_honest F.history files.now
        (λ tree. OnOk result (AreOwnBelow part kind folder.now tree)) }
    ensures stray { Finds F.is_honest F.history files.now
        (λ tree. IfErr result (IsStrayed F.reading_may_fail part kind tree)) }
{
    for name in &files.list(alloc, folder)? {
        let path = joined(alloc, folder, name)?;
        match files.kind_of(&path)? {
            Place::Folder if is_deeper(&path, folder) => {
                look_below(alloc, files, part, kind, &path)?;
            }
            Place::File(_) if may_have_file(part, kind, &path) => {}
            // The last two are no path, and a name of nothing: the folder changed while it was
            // read.
            Place::File(_) => return Err(OpenError::Stray(path)),
            Place::Folder => return Err(OpenError::Stray(path)),
            Place::Absent => return Err(OpenError::Stray(path)),
        }
    }
    Ok(())
}

// Returns whether a repository of this kind may have a file at this path of the part, whole or
// unfinished.
fn may_have_file(part: Part, kind: Kind, path: &[u8]) -> bool
    ensures { result ≡ may_have_file part kind path.now }
{
    match part {
        Part::Objects => is_object_place(kind, path) || path == b"objects/unfinished".as_slice(),
        Part::Names => is_names_place(path) || is_lock_of_place(path),
    }
}

// Returns whether it is the place of an object with an id of this kind.
pub(crate) fn is_object_place(kind: Kind, path: &[u8]) -> bool
    ensures { result ≡ is_object_place kind path.now }
{
    if path.len() != kind.len_in_hex() + 9 {
        return false;
    }
    Part::Objects.may_hold_folder(&path[..10]) && path[10] == b'/' && is_lower_hex(&path[11..])
}

fn is_lower_hex(digits: &[u8]) -> bool
    ensures { result ≡ list_all is_lower_hex digits.now }
{
    digits
        .iter()
        .all(|digit| matches!(*digit, b'0'..=b'9' | b'a'..=b'f'))
}

// Returns whether it is the place of HEAD, of packed names, of a name or of its log.
fn is_names_place(path: &[u8]) -> bool
    ensures { result ≡ is_names_place path.now }
{
    path == HEAD || path == b"packed-refs".as_slice() || is_name(path) || is_log_of_name(path)
}

fn is_log_of_name(path: &[u8]) -> bool
    ensures { result ≡ (is_log_place path.now && is_name (log_name path.now)) }
{
    if !path.starts_with(b"logs/") {
        return false;
    }
    is_name(&path[5..])
}

// Returns whether a file of this path is written before it is renamed to such a place.
fn is_lock_of_place(path: &[u8]) -> bool
    ensures { result ≡ is_lock_of_place path.now }
{
    path.ends_with(b".lock") && is_names_place(&path[..path.len().saturating_sub(5)])
}
