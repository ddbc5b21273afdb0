//! All files below a root: a walk records entries, and those of files are listed; why such a walk ends early.

ghost use Rattle.std.specs.Prelude.{◌≡◌, map, filter_map, ◌++◌, IfOk, IfErr, IsErrOf, OnOk, option_map, option_to_list};
ghost use Rattle.std.specs.FinMap.{entries};
ghost use Rattle.gix_hash.specs.Id.{Id, id_of};
ghost use Rattle.history_model.specs.Bytes.{Bytes};
ghost use Rattle.gix_object_tree.specs.Mode.{kind_of};
ghost use Rattle.gix_traverse_tree.specs.Recorder.{recorded_of};
ghost use Rattle.history_model.specs.Answers.{file_line};
ghost use Rattle.history_files.specs.Reading.{OfFiles, OwnFault, StopsBelow, line_of, line_named, line_recorded, as_walked};
ghost use Rattle.history_files.specs.declared.error.ReadError.TheVariants.{Failed};

use crate::error::ReadError;
use gix_hash::ObjectId;
use gix_object_lookup::FindInto;
use gix_object_tree::tree::{EntryKind, EntryMode};
use gix_traverse_tree::Recorder;
use gix_traverse_tree::depthfirst::{self, State, depthfirst};
use gix_traverse_tree::recorder::Entry;
use history_model::FileKind;
use std::alloc::{AllocError, Global};

/// A file below a root.
#[derive(Drop)]
pub struct File {
    /// What the file is.
    pub kind: FileKind,
    /// The id of its bytes.
    pub id: ObjectId,
    /// Its path.
    pub path: Vec<u8>,
}

/// Returns all files below a root, which is the id of a tree, ascending by the bytes of their
/// paths.
///
/// Returns `Failed` if a lookup failed; `Broken` with the id of the root or of a tree below it if
/// that is missing, or with the root's if a tree can't be read or is below itself; and `Memory` if
/// no memory is left.
pub fn files<S: FindInto>(alloc: Global, store: &S, root: &ObjectId) -> Result<Vec<File>, ReadError>
    ensures files { OfFiles (S.is_honest store.now) (S.table store.now) (id_of root.now)
        (λ kind files. IfOk result (λ found.
        map line_of found.items ≡ map (file_line kind) (entries files))) }
    ensures refused { OfFiles (S.is_honest store.now) (S.table store.now) (id_of root.now)
        (λ kind files. IfErr result (OwnFault (S.may_fail store.now))) }
    ensures stopped { IfErr result
        (StopsBelow (S.is_honest store.now) (S.may_fail store.now) (S.table store.now) root.now) }
    ensures failed { IsErrOf result Failed → S.may_fail store.now }
{
    let recorder = recorded(alloc, store, root)?;
    Ok(files_among(alloc, recorder.records.as_slice())?)
}

// Returns all entries below a root, recorded with their paths.
fn recorded<S: FindInto>(alloc: Global, store: &S, root: &ObjectId) -> Result<Recorder, ReadError>
    ensures files { OfFiles (S.is_honest store.now) (S.table store.now) (id_of root.now)
        (λ kind files. IfOk result (λ recorder.
        filter_map line_recorded (map recorded_of recorder.records.items)
        ≡ map (file_line kind) (entries files))) }
    ensures refused { OfFiles (S.is_honest store.now) (S.table store.now) (id_of root.now)
        (λ kind files. IfErr result (OwnFault (S.may_fail store.now))) }
    ensures stopped { IfErr result
        (StopsBelow (S.is_honest store.now) (S.may_fail store.now) (S.table store.now) root.now) }
    ensures failed { IsErrOf result Failed → S.may_fail store.now }
{
    let mut recorder = Recorder::new(alloc);
    let mut state = State::new(alloc);
    match depthfirst(*root, &mut state, store, &mut recorder) {
        Ok(()) => Ok(recorder),
        Err(error) => Err(read_error(error, *root)),
    }
}

/// Returns why a walk from this root ended early.
pub(crate) fn read_error(error: depthfirst::Error, root: ObjectId) -> ReadError
    ensures { result ≡ as_walked root error }
{
    match error {
        depthfirst::Error::Find(error) => ReadError::from(error),
        depthfirst::Error::Memory => ReadError::Memory,
        _ => ReadError::Broken { oid: root },
    }
}

// Returns the files among recorded entries.
fn files_among(alloc: Global, records: &[Entry]) -> Result<Vec<File>, AllocError>
    ensures { IfOk result (λ files.
        map line_of files.items ≡ filter_map line_recorded (map recorded_of records.now)) }
{
    let mut files = Vec::new(alloc);
    for entry in records {
        add_file(&mut files, alloc, entry)?;
    }
    Ok(files)
}

// Adds the file that an entry names, if it names one.
fn add_file(files: &mut Vec<File>, alloc: Global, entry: &Entry) -> Result<(), AllocError>
    ensures { OnOk result (map line_of files.new.items
        ≡ map line_of files.old.items ++ option_to_list (line_recorded (recorded_of entry.now))) }
{
    if let Some(kind) = file_kind(entry.mode) {
        files.push(file_of(alloc, kind, entry)?)?;
    }
    Ok(())
}

fn file_of(alloc: Global, kind: FileKind, entry: &Entry) -> Result<File, AllocError>
    ensures { let told = recorded_of entry.now in IfOk result (λ file.
        line_of file ≡ record { kind = kind; id = told.id; path = told.path }) }
{
    Ok(File {
        kind,
        id: entry.oid,
        path: Vec::from_slice(alloc, entry.filepath.as_bytes())?,
    })
}

// Returns what a file of this mode is; `None` for what is no file.
fn file_kind(mode: EntryMode) -> Option<FileKind>
    ensures { (id : Id) (path : Bytes)
        → option_map (λ kind. record { kind = kind; id = id; path = path }) result
        ≡ line_named (kind_of mode.value) id path }
{
    match mode.kind() {
        EntryKind::Blob => Some(FileKind::File),
        EntryKind::BlobExecutable => Some(FileKind::Exec),
        EntryKind::Link => Some(FileKind::Link),
        EntryKind::Tree | EntryKind::Commit => None,
    }
}
