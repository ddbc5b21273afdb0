//! Tests one file, a name's or a log's: private names, collisions, stored ids; which names and files exist.

ghost use Rattle.std.specs.Prelude.{◌≡◌, IfErr, IfOk, IsErrOf, IsFalse, IsTrue, OnOk, length, option_map};
ghost use Rattle.gix_hash.specs.Id.{id_of};
ghost use Rattle.gix_ref_file.specs.Calls.{Finds};
ghost use Rattle.gix_ref_file.specs.Changes.{is_file_at};
ghost use Rattle.gix_ref_file.specs.Tree.{bytes_at};
ghost use Rattle.gix_ref_file.specs.declared.files.FileError.TheVariants.{Failed};
ghost use Rattle.history_model.specs.Bytes.{begins};
ghost use Rattle.history_model.specs.Forms.{is_private, refs_front};
ghost use Rattle.history_model.specs.Places.{file_at, is_lock_file, is_log_place, log_name};
ghost use Rattle.history_check_names.specs.Causes.{Excuses, IsCollision, IsCollisionOf, IsUnheld, log_error};
ghost use Rattle.history_check_names.specs.Packed.{has_name};
ghost use Rattle.history_check_names.specs.PackedRead.{ReadsPacked};
ghost use Rattle.history_check_names.specs.Sound.{IsApart, Sounds};
ghost use Rattle.history_check_names.specs.Stored.{may_be_held};
ghost use Rattle.history_check_objects.specs.Stored.{Facts, facts_in, kind_in};

use crate::log::{LogFault, log_fault};
use crate::loose::{Loose, MAX_LOOSE, read_loose};
use crate::packed::Packed;
use gix_hash::{Kind, ObjectId};
use gix_object_lines::Kind as ObjectKind;
use gix_ref_file::{FileError, Files, Place};
use history_check_objects::Stored;
use history_model::names::{HEAD, REFS};
use history_store::PACKED;
use history_texts::{NamedBy, OpenError, is_name};
use std::alloc::Global;

/// How the path of a log begins.
const LOGS: &[u8] = b"logs/";

/// How the path of a file that is to be renamed to its place ends.
const LOCK_END: &[u8] = b".lock";

/// Tests that the file at this path is one that a repository has there: a name's, which holds a
/// stored commit or tag, or the log of an existing name. The file has so many bytes. HEAD isn't
/// read, nor is a name's file that is too long to hold anything. Otherwise returns a cause that
/// holds.
pub(crate) fn test_file<F: Files>(
    alloc: Global,
    files: &F,
    kind: Kind,
    stored: &Stored,
    packed: &Packed<'_>,
    path: Vec<u8>,
    len: u64,
) -> Result<(), OpenError>
    requires packed { Finds F.is_honest F.history files.now (ReadsPacked kind packed.now) }
    requires size { Finds F.is_honest F.history files.now
        (λ tree. len ≡ length (bytes_at tree path.items)) }
    ensures sound { Finds F.is_honest F.history files.now
        (Sounds kind (facts_in stored.now) path.items result) }
    ensures wrong { Finds F.is_honest F.history files.now
        (Excuses F.reading_may_fail kind (facts_in stored.now) path.items result) }
{
    if path.as_slice() == HEAD {
        return Ok(());
    }
    if path.as_slice() == PACKED {
        return Ok(());
    }
    if path.ends_with(LOCK_END) {
        return Err(OpenError::Unfinished(path));
    }
    if path.starts_with(REFS) {
        return test_name(alloc, files, kind, stored, packed, path, len);
    }
    if path.starts_with(LOGS) {
        return test_log_file(alloc, files, kind, packed, path, len);
    }
    Err(OpenError::Stray(path))
}

// Tests the file of a name.
fn test_name<F: Files>(
    alloc: Global,
    files: &F,
    kind: Kind,
    stored: &Stored,
    packed: &Packed<'_>,
    name: Vec<u8>,
    len: u64,
) -> Result<(), OpenError>
    requires packed { Finds F.is_honest F.history files.now (ReadsPacked kind packed.now) }
    requires size { Finds F.is_honest F.history files.now
        (λ tree. len ≡ length (bytes_at tree name.items)) }
    requires below { IsTrue (begins refs_front name.items) }
    requires finished { IsFalse (is_lock_file name.items) }
    ensures sound { Finds F.is_honest F.history files.now
        (Sounds kind (facts_in stored.now) name.items result) }
    ensures wrong { Finds F.is_honest F.history files.now
        (Excuses F.reading_may_fail kind (facts_in stored.now) name.items result) }
{
    if !is_name(&name) {
        return Err(OpenError::BadName(name));
    }
    if is_private(&name) {
        return Err(OpenError::PrivateName(name));
    }
    test_apart(alloc, files, packed, &name)?;
    if len > MAX_LOOSE {
        return Err(OpenError::BadName(name));
    }
    let text = text_at(alloc, files, &name)?;
    match read_loose(kind, &text) {
        Loose::Holds(id) => test_held(stored, id, name),
        Loose::Symbolic => Err(OpenError::Symbolic(name)),
        Loose::Faulty => Err(OpenError::BadName(name)),
    }
}

/// Tests that a commit or a tag is stored under the id that a name holds. Otherwise returns
/// `Missing` or `WrongKind`.
pub(crate) fn test_held(stored: &Stored, id: ObjectId, name: Vec<u8>) -> Result<(), OpenError>
    ensures held { OnOk result (IsTrue (may_be_held (kind_in (facts_in stored.now) (id_of id)))) }
    ensures unheld { IfErr result (IsUnheld (kind_in (facts_in stored.now) (id_of id)) id name) }
{
    let Some(kind) = stored.kind_of(&id) else {
        return Err(OpenError::Missing(id, NamedBy::Name(name)));
    };
    match kind {
        ObjectKind::Commit | ObjectKind::Tag => Ok(()),
        ObjectKind::Tree | ObjectKind::Blob => Err(OpenError::WrongKind(id, NamedBy::Name(name))),
    }
}

/// Returns whether the name belongs to one working tree.
pub(crate) fn is_private(name: &[u8]) -> bool
    ensures { result ≡ is_private name.now }
{
    name.starts_with(b"refs/bisect/")
        || name.starts_with(b"refs/worktree/")
        || name.starts_with(b"refs/rewritten/")
}

// Tests the file of a log.
fn test_log_file<F: Files>(
    alloc: Global,
    files: &F,
    kind: Kind,
    packed: &Packed<'_>,
    path: Vec<u8>,
    len: u64,
) -> Result<(), OpenError>
    requires packed { Finds F.is_honest F.history files.now (ReadsPacked kind packed.now) }
    requires size { Finds F.is_honest F.history files.now
        (λ tree. len ≡ length (bytes_at tree path.items)) }
    requires place { IsTrue (is_log_place path.items) }
    ensures sound { (facts : Facts) → Finds F.is_honest F.history files.now
        (Sounds kind facts path.items result) }
    ensures wrong { (facts : Facts) → Finds F.is_honest F.history files.now
        (Excuses F.reading_may_fail kind facts path.items result) }
{
    if !name_exists(files, packed, log_name(&path))? {
        return Err(OpenError::LogWithoutName(path));
    }
    match log_fault(alloc, files, kind, &path, len)? {
        None => Ok(()),
        Some(fault) => Err(log_error(path, fault)),
    }
}

// Returns the error of a log at this path.
fn log_error(path: Vec<u8>, fault: LogFault) -> OpenError
    ensures { result ≡ log_error path fault }
{
    match fault {
        LogFault::Bad(line) => OpenError::BadLog(path, line),
        LogFault::Long(line) => OpenError::LongLogLine(path, line),
        LogFault::Memory => OpenError::Memory,
    }
}

// Returns the name that a log belongs to.
fn log_name(path: &[u8]) -> &[u8]
    requires { IsTrue (is_log_place path.now) }
    ensures { result.now ≡ log_name path.now }
{
    &path[LOGS.len()..]
}

// Tests that no existing name is a folder of this one. Otherwise returns `Collides`.
pub(crate) fn test_apart<F: Files>(
    alloc: Global,
    files: &F,
    packed: &Packed<'_>,
    name: &[u8],
) -> Result<(), OpenError>
    ensures apart { (kind : Kind) → Finds F.is_honest F.history files.now
        (λ tree. ReadsPacked kind packed.now tree → OnOk result (IsApart kind tree name.now)) }
    ensures collides { (kind : Kind) → Finds F.is_honest F.history files.now
        (λ tree. ReadsPacked kind packed.now tree
        → IfErr result (IsCollision F.reading_may_fail kind tree name.now)) }
{
    for (end, byte) in name.iter().enumerate() {
        if *byte == b'/' {
            if name_exists(files, packed, &name[..end])? {
                return Err(collision(alloc, &name[..end], name));
            }
        }
    }
    Ok(())
}

// Returns the error of two names that collide.
fn collision(alloc: Global, folder: &[u8], name: &[u8]) -> OpenError
    ensures { IsCollisionOf folder.now name.now result }
{
    match (Vec::from_slice(alloc, folder), Vec::from_slice(alloc, name)) {
        (Ok(folder), Ok(name)) => OpenError::Collides(folder, name),
        _ => OpenError::Memory,
    }
}

// Returns whether a name exists, in a file of its own or in a record.
fn name_exists<F: Files>(files: &F, packed: &Packed<'_>, name: &[u8]) -> Result<bool, FileError>
    ensures found { (kind : Kind) → Finds F.is_honest F.history files.now
        (λ tree. ReadsPacked kind packed.now tree
        → IfOk result (λ stands. stands ≡ has_name kind tree name.now)) }
    ensures failed { IsErrOf result Failed → F.reading_may_fail }
{
    if !is_name(name) {
        return Ok(false);
    }
    if packed.has(name) {
        return Ok(true);
    }
    is_file(files, name)
}

/// Returns whether there is a file at the path.
pub(crate) fn is_file<F: Files>(files: &F, path: &[u8]) -> Result<bool, FileError>
    ensures found { Finds F.is_honest F.history files.now
        (λ tree. IfOk result (λ found. found ≡ is_file_at tree path.now)) }
    ensures failed { IsErrOf result Failed → F.reading_may_fail }
{
    Ok(file_len(files, path)?.is_some())
}

/// Returns how many bytes the file at the path has; `None` if there is none.
pub(crate) fn file_len<F: Files>(files: &F, path: &[u8]) -> Result<Option<u64>, FileError>
    ensures found { Finds F.is_honest F.history files.now
        (λ tree. IfOk result (λ len. len ≡ option_map length (file_at tree path.now))) }
    ensures failed { IsErrOf result Failed → F.reading_may_fail }
{
    match files.kind_of(path)? {
        Place::File(len) => Ok(Some(len)),
        Place::Folder => Ok(None),
        Place::Absent => Ok(None),
    }
}

// Returns what a file has in it; nothing if there is no file.
fn text_at<F: Files>(alloc: Global, files: &F, path: &[u8]) -> Result<Vec<u8>, FileError>
    ensures found { Finds F.is_honest F.history files.now
        (λ tree. IfOk result (λ text. text.items ≡ bytes_at tree path.now)) }
    ensures failed { IsErrOf result Failed → F.reading_may_fail }
{
    let mut text = Vec::new(alloc);
    files.read(path, &mut text)?;
    Ok(text)
}
