//! The two parts of a folder: which folders each may hold, and the first stray file or folder in one.
ghost use Rattle.std.specs.Prelude.{◌≡◌, IfOk, IsErrOf, MatchOption, codes};
ghost use Rattle.std.specs.List.{list_all};
ghost use Rattle.gix_ref_file.specs.Calls.{Finds};
ghost use Rattle.gix_ref_file.specs.declared.files.FileError.TheVariants.{Failed};
ghost use Rattle.history_model.specs.FileMap.{is_within};
ghost use Rattle.history_model.specs.Places.{is_lower_hex, is_object_folder, is_name_folder};
ghost use Rattle.history_texts.specs.Parts.{may_hold_folder, IsClear, IsClearBelow, IsStray};

use gix_ref_file::paths::{is_deeper, joined};
use gix_ref_file::{FileError, Files, Place};
use std::alloc::Global;

/// One of the two parts that a repository is kept in.
#[derive(Clone, Copy)]
pub enum Part {
    /// `objects` and all below it.
    Objects,
    /// All else: `HEAD`, names, logs.
    Names,
}

impl Part {
    /// Returns whether a folder of this part may have this path: `objects` and `objects/xx`, or
    /// `refs`, `logs` and those below these two whose paths don't end with `.lock`.
    pub fn may_hold_folder(self, path: &[u8]) -> bool
        ensures { result ≡ may_hold_folder self path.now }
    {
        match self {
            Part::Objects => is_object_folder(path),
            Part::Names => is_name_folder(path),
        }
    }
}

/// Something that doesn't belong in a part that holds no names and no objects: the path of a file
/// or a folder.
#[derive(Drop)]
pub enum Stray {
    File(Vec<u8>),
    Folder(Vec<u8>),
}

/// Returns the first thing in a part that is neither a permitted folder nor the file of this path;
/// `None` if there is none. What a folder lists but doesn't hold counts as a file.
pub fn survey<F: Files>(
    alloc: Global,
    files: &F,
    part: Part,
    permitted: &[u8],
) -> Result<Option<Stray>, FileError>
    ensures found { Finds F.is_honest F.history files.now (λ tree. IfOk result (λ found.
        MatchOption found (IsClear part permitted.now tree) (IsStray part permitted.now tree))) }
    ensures failed { IsErrOf result Failed → F.reading_may_fail }
{
    survey_folder(alloc, files, part, permitted, b"")
}

fn survey_folder<F: Files>(
    alloc: Global,
    files: &F,
    part: Part,
    permitted: &[u8],
    folder: &[u8],
) -> Result<Option<Stray>, FileError>
    ensures found { Finds F.is_honest F.history files.now (λ tree. IfOk result (λ found.
        MatchOption found (IsClearBelow part permitted.now folder.now tree)
        (IsStray part permitted.now tree))) }
    ensures failed { IsErrOf result Failed → F.reading_may_fail }
{
    for name in &files.list(alloc, folder)? {
        let path = joined(alloc, folder, name)?;
        match files.kind_of(&path)? {
            Place::Folder if part.may_hold_folder(&path) && is_deeper(&path, folder) => {
                let stray = survey_folder(alloc, files, part, permitted, &path)?;
                if stray.is_some() {
                    return Ok(stray);
                }
            }
            Place::Folder => return Ok(Some(Stray::Folder(path))),
            Place::File(_) if *path == *permitted => {}
            Place::File(_) => return Ok(Some(Stray::File(path))),
            // A name without a file: the folder changed while it was read.
            Place::Absent => return Ok(Some(Stray::File(path))),
        }
    }
    Ok(None)
}

fn is_object_folder(path: &[u8]) -> bool
    ensures { result ≡ is_object_folder path.now }
{
    path == b"objects".as_slice()
        || (path.starts_with(b"objects/") && path.len() == 10 && is_all_lower_hex(&path[8..]))
}

fn is_all_lower_hex(bytes: &[u8]) -> bool
    ensures { result ≡ list_all is_lower_hex bytes.now }
{
    bytes.iter().all(|byte| is_lower_hex(*byte))
}

fn is_lower_hex(byte: u8) -> bool
    ensures { result ≡ is_lower_hex byte }
{
    matches!(byte, b'0'..=b'9' | b'a'..=b'f')
}

fn is_name_folder(path: &[u8]) -> bool
    ensures { result ≡ is_name_folder path.now }
{
    (is_refs_folder(path) || is_logs_folder(path)) && !path.ends_with(b".lock")
}

// `refs`, and what lies below it.
fn is_refs_folder(path: &[u8]) -> bool
    ensures { result ≡ is_within (codes "refs") path.now }
{
    b"refs".as_slice() == path || path.starts_with(b"refs/")
}

// `logs`, and what lies below it.
fn is_logs_folder(path: &[u8]) -> bool
    ensures { result ≡ is_within (codes "logs") path.now }
{
    b"logs".as_slice() == path || path.starts_with(b"logs/")
}
