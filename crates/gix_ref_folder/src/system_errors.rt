//! What an error of the system means: no memory, nothing at a path, or a file there already.
ghost use Rattle.std.specs.Prelude.{◌≡◌};
ghost use Rattle.std.specs.IoError.{error_kind};
ghost use Rattle.gix_ref_folder.specs.Errors.{fault_of, means_absent, IsNew};

use gix_ref_file::FileError;
use std::io::{self, ErrorKind};

/// Returns `Memory` if memory was refused, else `Failed`.
pub fn fault(error: &io::Error) -> FileError
    ensures { result ≡ fault_of (error_kind error.now) }
{
    match error.kind() {
        ErrorKind::OutOfMemory => FileError::Memory,
        _ => FileError::Failed,
    }
}

/// Returns whether the error says that nothing exists at a path. Nothing does at a path that is too
/// long for the system; a refused permission says nothing of it.
pub fn is_missing(error: &io::Error) -> bool
    ensures { result ≡ means_absent (error_kind error.now) }
{
    matches!(
        error.kind(),
        ErrorKind::NotFound | ErrorKind::NotADirectory | ErrorKind::InvalidFilename,
    )
}

/// Returns whether a file was made: false if something is there already. Any other error is
/// returned.
pub fn is_new(made: io::Result<()>) -> io::Result<bool>
    ensures { IsNew made result }
{
    match made {
        Ok(()) => Ok(true),
        Err(error) if error.kind() == ErrorKind::AlreadyExists => Ok(false),
        Err(error) => Err(error),
    }
}
