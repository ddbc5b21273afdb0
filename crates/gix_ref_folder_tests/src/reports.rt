//! What files return, as a system returns it.
ghost use Rattle.std.specs.Prelude.{◌≡◌, true, false, Ok, IfErr, OnOk};
ghost use Rattle.std.specs.IoError.{error_kind};
ghost use Rattle.std.specs.declared.io.ErrorKind.TheVariants.{AlreadyExists};
ghost use Rattle.gix_ref_folder_tests.specs.Reports.{kind_for, IsReport};

use gix_ref_file::FileError;
use std::io::{self, ErrorKind};

// The kind is `OutOfMemory` or `Other`: neither says anything of what exists.
fn error_of(why: FileError) -> io::Error
    ensures { error_kind result ≡ kind_for why }
{
    match why {
        FileError::Memory => io::Error::new(ErrorKind::OutOfMemory, "no memory"),
        FileError::Failed => io::Error::new(ErrorKind::Other, "the files failed"),
    }
}

// Returns what a call of files returned, as a system's result.
pub fn reported<T>(done: Result<T, FileError>) -> io::Result<T>
    ensures { IsReport done result }
{
    match done {
        Ok(value) => Ok(value),
        Err(why) => Err(error_of(why)),
    }
}

// Returns the system's result of the making of a file: `AlreadyExists` if something was there.
pub fn newly(made: Result<bool, FileError>) -> io::Result<()>
    ensures ok { OnOk result (made ≡ Ok true) }
    ensures taken { IfErr result (λ error. error_kind error ≡ AlreadyExists → made ≡ Ok false) }
{
    match reported(made) {
        Ok(true) => Ok(()),
        Ok(false) => Err(io::Error::new(ErrorKind::AlreadyExists, "something is there")),
        Err(error) => Err(error),
    }
}
