//! Notes on standard error after a fault or a refused lock: which file or folder, and why.

use crate::causes::{text_of_cause, with_reason};
use crate::lock::Refusal;
use gix_ref_folder::LastCall;
use history::Stream;
use history_word::write_all;
use std::alloc::{AllocError, Global};
use std::io;

/// Notes why a folder isn't acted on.
pub fn note_refusal(rt: &HostRuntime, folder: &str, refusal: &Refusal) {
    note(rt, text_of(rt.alloc(), folder, refusal));
}

/// Notes what led to a fault in a folder.
pub fn note_cause(rt: &HostRuntime, folder: &str, call: &LastCall) {
    note(rt, text_of_cause(rt, folder, call));
}

// Writes a note to standard error. If memory runs out for it, or that fails, nothing else can be
// reported.
fn note(rt: &HostRuntime, text: Result<Vec<u8>, AllocError>) {
    let Ok(text) = text else {
        return;
    };
    if let Ok(line) = line_of(rt.alloc(), &text) {
        let _ = write_all(&mut Stream::new(rt.stderr()), &line);
    }
}

fn line_of(alloc: Global, text: &[u8]) -> Result<Vec<u8>, AllocError> {
    let mut line = Vec::from_slice(alloc, b"note: ")?;
    line.extend_from_slice(text)?;
    line.push(b'\n')?;
    Ok(line)
}

// Returns the folder, and why it isn't acted on.
fn text_of(alloc: Global, folder: &str, refusal: &Refusal) -> Result<Vec<u8>, AllocError> {
    // A path without bytes is written as a shell takes it.
    let shown = if folder.is_empty() { "''" } else { folder };
    match refusal {
        Refusal::Busy => with_reason(alloc, shown.as_bytes(), b"another process works there"),
        Refusal::File(error) => {
            let reason = reason(alloc, error)?;
            with_reason(alloc, shown.as_bytes(), reason.as_bytes())
        }
    }
}

// Returns the system's words for an error, without its number.
fn reason(alloc: Global, error: &io::Error) -> Result<String, AllocError> {
    let words = format!(in alloc; "{error}")?;
    match words.split_once(" (os error ") {
        Some((reason, _)) => String::from_str(alloc, reason),
        None => Ok(words),
    }
}
