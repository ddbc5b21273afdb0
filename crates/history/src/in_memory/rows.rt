//! Worked streams, run in memory: a commit without files, and one with a file.

ghost use Rattle.std.specs.Prelude.{IfOk};
ghost use Rattle.history_model.specs.laws.Rows.{first_stream, first_output, hello_stream, hello_output};
ghost use Rattle.gix_hash.specs.declared.kind.Kind.TheVariants.{Sha1};
ghost use Rattle.history.specs.Answered.{Answers, AreOrTellFault};

use crate::in_memory::answer::{Answer, AnswerError, answer_stream};
use gix_hash::Kind;
use history_word::{Collected, Sink};
use std::alloc::Global;

const FIRST: &[u8] = b"commit refs/heads/main new
author 1 3 1 +0000
A
a@b
committer 1 3 1 +0000
A
a@b
message 3
one
end
files main
show main
";

const HELLO: &[u8] = b"commit refs/heads/main new
put file 1 5
a
hello
author 1 3 1 +0000
A
a@b
committer 1 3 1 +0000
A
a@b
message 3
one
end
files main
show main path 1
a
";

/// Runs the worked stream of a commit without files; its files and the commit are shown. Fails as
/// `answer_stream` does.
pub fn first_commit(alloc: Global) -> Result<Answer, AnswerError>
    ensures answers { IfOk result (λ answer.
        Answers Sha1 first_stream (⟦<Collected as Sink>⟧.contents answer.written) answer.end) }
    ensures meant { IfOk result (λ answer. AreOrTellFault Sha1 first_stream
        (⟦<Collected as Sink>⟧.contents answer.written) answer.end first_output) }
{
    history_model::rows::first_commit();
    answer_stream(alloc, Kind::Sha1, FIRST)
}

/// Runs the worked stream of a commit of the file `a` with the content `hello`; its files and the
/// content are shown. Fails as `answer_stream` does.
pub fn hello_file(alloc: Global) -> Result<Answer, AnswerError>
    ensures answers { IfOk result (λ answer.
        Answers Sha1 hello_stream (⟦<Collected as Sink>⟧.contents answer.written) answer.end) }
    ensures meant { IfOk result (λ answer. AreOrTellFault Sha1 hello_stream
        (⟦<Collected as Sink>⟧.contents answer.written) answer.end hello_output) }
{
    history_model::rows::hello_file();
    answer_stream(alloc, Kind::Sha1, HELLO)
}
