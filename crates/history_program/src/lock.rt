//! The system's lock on a folder, so that one process at a time works there; the folder is made and opened.

use gix_ref_folder::LONGEST_ROOT;
use history_actions::command_line::{Action, Asked};
use std::fs::{self, File, TryLockError};
use std::io::{self, ErrorKind};

/// Why a folder isn't acted on.
#[derive(Drop)]
pub enum Refusal {
    /// Another process is working there.
    Busy,
    /// It doesn't exist, has too long a path, can't be opened, or can't be locked.
    File(io::Error),
}

/// Takes the system's lock on the folder, which is held as long as the file that is returned:
/// `check` shares it with every other `check`, and any other action has it alone. It makes no file.
/// `create` first makes the folder if it doesn't exist, but not its parents.
///
/// Returns `Busy` if another process has the lock, and `File` if the folder's path is too long, or
/// it can't be made, opened or locked.
pub fn lock_folder(rt: &HostRuntime, asked: &Asked) -> Result<File, Refusal> {
    let held = match folder_of(rt, asked) {
        Ok(held) => held,
        Err(error) => return Err(Refusal::File(error)),
    };
    let locked = match asked.action {
        Action::Check => held.try_lock_shared(),
        Action::Create | Action::Run | Action::Recover => held.try_lock(),
    };
    match locked {
        Ok(()) => Ok(held),
        Err(TryLockError::WouldBlock) => Err(Refusal::Busy),
        Err(TryLockError::Error(error)) => Err(Refusal::File(error)),
    }
}

// Returns the folder, opened.
fn folder_of(rt: &HostRuntime, asked: &Asked) -> io::Result<File> {
    let folder = asked.folder.as_str();
    if folder.len() > LONGEST_ROOT {
        return Err(io::Error::new(ErrorKind::InvalidFilename, "File name too long"));
    }
    if asked.action == Action::Create {
        make_folder(rt, folder)?;
    }
    // Opening a pipe would wait.
    if !fs::metadata(rt, folder)?.is_dir() {
        return Err(io::Error::other("not a folder"));
    }
    fs::open(rt, folder)
}

fn make_folder(rt: &HostRuntime, folder: &str) -> io::Result<()> {
    match fs::create_dir(rt, folder) {
        Err(error) if error.kind() == ErrorKind::AlreadyExists => Ok(()),
        made => made,
    }
}
