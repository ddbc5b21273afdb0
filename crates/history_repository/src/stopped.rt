//! Why a command has no result (`Stopped`): refused for a cause or failed with a fault, from all other errors.

ghost use Rattle.std.specs.Prelude.{◌≡◌};
ghost use Rattle.history_model.specs.declared.Fault.TheVariants.{Memory};
ghost use Rattle.history_repository.specs.Faults.{file_fault, fault_of_put, find_fault, read_fault, rows_fault, walk_fault};
ghost use Rattle.history_repository.specs.declared.stopped.Stopped.TheVariants as why;

use gix_object::find;
use gix_ref_file::FileError;
use gix_traverse_graph::RowsError;
use history_files::ReadError;
use history_model::{Cause, Fault};
use history_store::PutMadeError;
use history_walks::WalkError;
use std::alloc::{AllocError, AllocFailed};

/// Why a command isn't done.
#[derive(Clone, Copy)]
pub enum Stopped {
    Refused(Cause),
    Fault(Fault),
}

impl From<Cause> for Stopped {
    ghost from_gives = { λ cause stopped. stopped ≡ why.Refused cause };

    fn from(cause: Cause) -> Stopped {
        Stopped::Refused(cause)
    }
}

impl From<Fault> for Stopped {
    ghost from_gives = { λ fault stopped. stopped ≡ why.Fault fault };

    fn from(fault: Fault) -> Stopped {
        Stopped::Fault(fault)
    }
}

impl From<AllocError> for Stopped {
    ghost from_gives = { λ _ stopped. stopped ≡ why.Fault Memory };

    fn from(_: AllocError) -> Stopped {
        Stopped::Fault(Fault::Memory)
    }
}

impl<T: Drop> From<AllocFailed<T>> for Stopped {
    ghost from_gives = { λ _ stopped. stopped ≡ why.Fault Memory };

    fn from(_: AllocFailed<T>) -> Stopped {
        Stopped::Fault(Fault::Memory)
    }
}

impl From<FileError> for Stopped {
    ghost from_gives = { λ error stopped. stopped ≡ why.Fault (file_fault error) };

    fn from(error: FileError) -> Stopped {
        Stopped::Fault(match error {
            FileError::Failed => Fault::File,
            FileError::Memory => Fault::Memory,
        })
    }
}

impl From<ReadError> for Stopped {
    ghost from_gives = { λ error stopped. stopped ≡ why.Fault (read_fault error) };

    fn from(error: ReadError) -> Stopped {
        Stopped::Fault(match error {
            ReadError::Failed | ReadError::Broken { .. } => Fault::File,
            ReadError::Memory => Fault::Memory,
        })
    }
}

impl From<WalkError> for Stopped {
    ghost from_gives = { λ error stopped. stopped ≡ why.Fault (walk_fault error) };

    fn from(error: WalkError) -> Stopped {
        Stopped::Fault(match error {
            WalkError::Failed | WalkError::Broken => Fault::File,
            WalkError::Memory => Fault::Memory,
        })
    }
}

// The rows of a whole repository make a graph.
impl From<RowsError> for Stopped {
    ghost from_gives = { λ error stopped. stopped ≡ why.Fault (rows_fault error) };

    fn from(error: RowsError) -> Stopped {
        Stopped::Fault(match error {
            RowsError::Memory => Fault::Memory,
            RowsError::Twice(_) | RowsError::MissingParent(..) | RowsError::BadGeneration(_) => {
                Fault::File
            }
        })
    }
}

impl From<find::Error> for Stopped {
    ghost from_gives = { λ error stopped. stopped ≡ why.Fault (find_fault error) };

    fn from(error: find::Error) -> Stopped {
        Stopped::Fault(match error {
            find::Error::Failed => Fault::File,
            find::Error::Memory => Fault::Memory,
        })
    }
}

impl From<PutMadeError> for Stopped {
    ghost from_gives = { λ error stopped. stopped ≡ why.Fault (fault_of_put error) };

    fn from(error: PutMadeError) -> Stopped {
        Stopped::Fault(match error {
            PutMadeError::IdTaken(_) => Fault::IdTaken,
            PutMadeError::File => Fault::File,
            PutMadeError::Memory => Fault::Memory,
        })
    }
}
