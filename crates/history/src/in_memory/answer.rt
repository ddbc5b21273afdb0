//! A stream of commands run over a new repository in memory (`answer_stream`): its end, and what it wrote.

ghost use Rattle.std.specs.Prelude.{◌≡◌, IfOk};
ghost use Rattle.history_model.specs.Bytes as model;
ghost use Rattle.history.specs.Answered.{Answers, AreOrTellFault, IsMeant};
ghost use Rattle.history.specs.declared.in_memory.answer.AnswerError.TheVariants as why;

use crate::in_memory::opened::{NewError, new_repository};
use crate::running::{RunError, run};
use gix_hash::Kind;
use history_model::End;
use history_word::{Bytes, Collected, Sink};
use std::alloc::Global;
use thiserror::Error;

/// How a run over a stream ended, and what it wrote.
#[derive(Drop)]
pub struct Answer {
    pub end: End,
    pub written: Collected,
}

/// Why there is no answer to a stream.
#[derive(Debug, Drop, Error)]
pub enum AnswerError {
    /// No repository was made.
    #[error("no repository")]
    New(NewError),
    /// The run over the stream was cut off.
    #[error("the run was cut off")]
    Run(RunError),
}

impl From<NewError> for AnswerError {
    ghost from_gives = { λ error given. given ≡ why.New error };

    fn from(error: NewError) -> AnswerError {
        AnswerError::New(error)
    }
}

impl From<RunError> for AnswerError {
    ghost from_gives = { λ error given. given ≡ why.Run error };

    fn from(error: RunError) -> AnswerError {
        AnswerError::Run(error)
    }
}

/// Runs a stream of commands over a new repository in memory, with ids of this kind.
///
/// Returns how the run ended, and what it wrote: the replies to the commands at the front of the
/// input, and the answer to a rest that is no command. The repository goes with the call. Returns
/// `New` if no repository was made, and `Run` if the run was cut off.
pub fn answer_stream(alloc: Global, kind: Kind, input: &[u8]) -> Result<Answer, AnswerError>
    ensures answers { IfOk result (λ answer.
        Answers kind input.now (⟦<Collected as Sink>⟧.contents answer.written) answer.end) }
    // What the plain repository replies to the whole input is written; or the run reported a fault.
    ensures meant { (output : model.Bytes) → IsMeant kind input.now output
        → IfOk result (λ answer. AreOrTellFault kind input.now
        (⟦<Collected as Sink>⟧.contents answer.written) answer.end output) }
{
    let mut repository = new_repository(alloc, kind)?;
    let mut reader = Bytes::new(input);
    let mut written = Collected::new(alloc);
    let end = run(alloc, &mut reader, &mut written, &mut repository)?;
    Ok(Answer { end, written })
}
