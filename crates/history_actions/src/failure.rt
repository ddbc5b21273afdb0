//! Why an action isn't done (`Failure`), also made of the errors of creation, of recovery and of a writer.
ghost use Rattle.std.specs.Prelude.{◌≡◌};
ghost use Rattle.history_actions.specs.Failures.{create_failure, recover_failure};

use history::{CreateError, End, OpenError, RecoverError};
use history_word::Broken;
use thiserror::Error;

/// Why an action isn't done.
#[derive(Debug, Drop, Error)]
pub enum Failure {
    /// The folder that was to be made a repository holds this.
    #[error("not empty: {0:?}")]
    NotEmpty(Vec<u8>),
    /// The folder isn't opened.
    #[error("the folder isn't opened")]
    Unopened(OpenError),
    /// A call of the files failed.
    #[error("a call of the files failed")]
    File,
    /// Memory ran out.
    #[error("a growth was refused")]
    Memory,
    /// The reader of a run has failed.
    #[error("the reader has failed")]
    Read,
    /// The writer has failed.
    #[error("the writer has failed")]
    Write,
    /// The run ended before its input did.
    #[error("the run ended before its input")]
    Ended(End),
}

impl From<CreateError> for Failure {
    ghost from_gives = { λ error failure. failure ≡ create_failure error };

    fn from(error: CreateError) -> Failure {
        match error {
            CreateError::NotEmpty(path) => Failure::NotEmpty(path),
            CreateError::File => Failure::File,
            CreateError::Memory => Failure::Memory,
        }
    }
}

impl From<RecoverError> for Failure {
    ghost from_gives = { λ error failure. failure ≡ recover_failure error };

    fn from(error: RecoverError) -> Failure {
        match error {
            RecoverError::File => Failure::File,
            RecoverError::Memory => Failure::Memory,
        }
    }
}

/// The error of an action's writer.
impl From<Broken> for Failure {
    ghost use Rattle.history_actions.specs.declared.failure.Failure.TheVariants.{Write};

    ghost from_gives = { λ _ failure. failure ≡ Write };

    fn from(_: Broken) -> Failure {
        Failure::Write
    }
}
