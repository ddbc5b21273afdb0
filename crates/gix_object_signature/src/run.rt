//! Programs that sign and verify, as a runner starts them.
//!
//! A runner is a closure, which may be called again and again. It gets the words of a command line
//! and the bytes of a standard input, runs the program that the first word names until it ends, and
//! returns what the program did, or why there is no answer. One may start a process for each call,
//! or reply from a table.

ghost use Rattle.gix_object_signature.specs.Run.{Answers, request_of};

use bstr::BStr;
use gix_object_lines::ByteString;
use thiserror::Error;

/// A word of a program's command line.
#[derive(Debug, Clone, Copy, PartialEq, Eq)]
pub enum Word<'a> {
    /// These bytes.
    Text(BStr<'a>),
    /// The path of a temporary file that holds these bytes.
    FileWith(BStr<'a>),
    /// The path of a temporary file that holds these bytes. The program writes into the file whose
    /// name is this one's with `.sig` at its end.
    FileToSign(BStr<'a>),
}

/// What a program did.
#[derive(Debug, Drop, PartialEq, Eq)]
pub struct Answer {
    /// Whether its status was 0 in the end.
    pub succeeded: bool,
    /// What it wrote to its standard output. If one of its words is a file to sign: what the `.sig`
    /// file holds, and nothing if there is none.
    pub output: ByteString,
    /// What it wrote to its standard error.
    pub errors: ByteString,
}

/// Why a program gave no answer.
#[derive(Debug, Clone, Copy, PartialEq, Eq, Error)]
pub enum RunError {
    /// A temporary file wasn't written, or not read again.
    #[error("a temporary file failed")]
    TemporaryFile,
    /// The program wasn't started.
    #[error("the program wasn't started")]
    Spawn,
    /// Its input wasn't written, or what it wrote wasn't read.
    #[error("the program didn't communicate")]
    Communicate,
    /// No memory is left.
    #[error("out of memory")]
    Memory,
}

/// Runs the program that the first word names, with this standard input, by the runner: see the
/// module.
pub(crate) fn run<F: FnMut(&[Word<'_>], &[u8]) -> Result<Answer, RunError>>(
    words: &[Word<'_>],
    input: &[u8],
    runner: &mut F,
) -> Result<Answer, RunError>
    requires { F.IsAlwaysCallable runner.old }
    ensures asked { Answers F.FnMut runner.old (request_of words.now input.now) result runner.new }
    ensures callable { F.IsAlwaysCallable runner.new }
{
    runner(words, input)
}
