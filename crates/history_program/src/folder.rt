//! Performs the action of the program's words on a real folder, under its lock; writes help and errors.

use crate::lock::lock_folder;
use crate::notes::{note_cause, note_refusal};
use crate::replies::Replies;
use gix_ref_folder::{Disk, Folder, LastCall, Part};
use history::in_memory::Patient;
use history::{Broken, OpenError, Stream};
use history_actions::command_line::{AskError, Asked, read_words};
use history_actions::{Failure, perform, report};
use history_word::write_all;
use std::alloc::AllocError;
use std::io::{self, ErrorKind};
use std::rc::Rc;

/// The status of a line that isn't the program's.
const BAD_LINE: u8 = 2;

/// Performs the action of the words, and returns the program's status.
pub fn act_on_words(rt: &HostRuntime, words: &[String]) -> u8 {
    match read_words(rt.alloc(), words) {
        Ok(asked) => act_under_lock(rt, &asked).unwrap_or_else(|_| write_memory_fault(rt)),
        Err(AskError::Help(text)) => write_help(rt, text.as_str()),
        Err(AskError::Line(text)) => write_error(rt, text.as_bytes(), BAD_LINE),
        Err(AskError::Memory) => write_memory_fault(rt),
    }
}

/// Reports why there are no words, and returns the program's status.
pub fn refuse(rt: &HostRuntime, error: &io::Error) -> u8 {
    match error.kind() {
        ErrorKind::OutOfMemory => write_memory_fault(rt),
        _ => write_error(rt, b"error: a word isn't UTF-8\n", BAD_LINE),
    }
}

// Acts on the folder that is named, while no other process does.
fn act_under_lock(rt: &HostRuntime, asked: &Asked) -> Result<u8, AllocError> {
    // The lock goes with the file, at the end.
    let _held = match lock_folder(rt, asked) {
        Ok(held) => held,
        Err(refusal) => {
            let status = write_error(rt, b"fault File\n", 1);
            note_refusal(rt, asked.folder.as_str(), &refusal);
            return Ok(status);
        }
    };
    act_on_folder(rt, asked)
}

// Acts on the two parts of the folder.
fn act_on_folder(rt: &HostRuntime, asked: &Asked) -> Result<u8, AllocError> {
    let folder = asked.folder.as_str();
    let call = Rc::new(rt.alloc(), LastCall::new(rt.alloc()))?;
    let objects = part_of_folder(rt, asked, Part::Objects, &call)?;
    let names = part_of_folder(rt, asked, Part::Names, &call)?;
    // Each reply is written by one call, so no stream needs a buffer of its own.
    let mut reader = Stream::new(Patient::new(rt.stdin()));
    let mut writer = Stream::new(Replies::new(rt, folder, &call));
    let mut errors = Stream::new(rt.stderr());
    let performed = perform(rt.alloc(), asked, objects, names, &mut reader, &mut writer);
    let status = report(asked.kind, &performed.answer, &mut errors);
    if let Err(Failure::File | Failure::Unopened(OpenError::File)) = performed.answer {
        note_cause(rt, folder, &call);
    }
    Ok(status)
}

// Returns a part of the folder, whose calls are kept in `call`.
fn part_of_folder<'a>(
    rt: &'a HostRuntime,
    asked: &Asked,
    part: Part,
    call: &Rc<LastCall>,
) -> Result<Folder<Disk<&'a HostRuntime>>, AllocError> {
    let root = String::from_str(rt.alloc(), asked.folder.as_str())?;
    let mut shown = Folder::new(rt.alloc(), Disk::new(rt), root, part);
    shown.share(call.clone()?);
    Ok(shown)
}

// Writes a text to standard error, and returns the status. If that fails, nothing else can be
// reported.
fn write_error(rt: &HostRuntime, text: &[u8], status: u8) -> u8 {
    let _ = write_all(&mut Stream::new(rt.stderr()), text);
    status
}

fn write_memory_fault(rt: &HostRuntime) -> u8 {
    write_error(rt, b"fault Memory\n", 1)
}

// Writes help to standard output, and returns the status.
fn write_help(rt: &HostRuntime, text: &str) -> u8 {
    match write_all(&mut Stream::new(rt.stdout()), text.as_bytes()) {
        Ok(()) => 0,
        Err(Broken) => write_error(rt, b"fault Write\n", 1),
    }
}
