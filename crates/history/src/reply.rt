//! The reply to a command (`Reply`): an accepted one's text, or the text of a refusal's cause or of a fault.

ghost use Rattle.std.specs.Prelude.{◌≡◌};
ghost use Rattle.history_model.specs.Replies.{reply_text, RefusedFor, Faulted};

use history_model::{Cause, Fault};

/// The reply to a command.
#[derive(Drop)]
pub enum Reply {
    /// The whole text of the reply to an accepted command, made before a byte of it is written.
    Text(Vec<u8>),
    /// The first cause that holds.
    Refused(Cause),
    /// Why a command fails that isn't refused.
    Fault(Fault),
}

/// Returns the text of a refusal, which needs no memory.
fn refusal_text(cause: Cause) -> &'static [u8]
    ensures { result.now ≡ reply_text (RefusedFor cause) }
{
    match cause {
        Cause::Syntax => b"refused Syntax\n",
        Cause::Truncated => b"refused Truncated\n",
        Cause::LineTooLong => b"refused LineTooLong\n",
        Cause::BadName => b"refused BadName\n",
        Cause::PrivateName => b"refused PrivateName\n",
        Cause::NameTwice => b"refused NameTwice\n",
        Cause::UnknownWord => b"refused UnknownWord\n",
        Cause::AmbiguousWord => b"refused AmbiguousWord\n",
        Cause::UnbornHead => b"refused UnbornHead\n",
        Cause::NotACommit => b"refused NotACommit\n",
        Cause::NoSuchName => b"refused NoSuchName\n",
        Cause::Taken => b"refused Taken\n",
        Cause::NotExpected => b"refused NotExpected\n",
        Cause::Collides => b"refused Collides\n",
        Cause::HoldsTag => b"refused HoldsTag\n",
        Cause::TooManyParents => b"refused TooManyParents\n",
        Cause::DuplicateParent => b"refused DuplicateParent\n",
        Cause::BadPath => b"refused BadPath\n",
        Cause::IsFolder => b"refused IsFolder\n",
        Cause::NoSuchPath => b"refused NoSuchPath\n",
        Cause::BadActor => b"refused BadActor\n",
        Cause::BadTime => b"refused BadTime\n",
        Cause::BadMessage => b"refused BadMessage\n",
        Cause::TooLarge => b"refused TooLarge\n",
        Cause::NothingMoves => b"refused NothingMoves\n",
        Cause::OrderWithParents => b"refused OrderWithParents\n",
    }
}

/// Returns the text of a fault, which needs no memory.
fn fault_text(fault: Fault) -> &'static [u8]
    ensures { result.now ≡ reply_text (Faulted fault) }
{
    match fault {
        Fault::Memory => b"fault Memory\n",
        Fault::File => b"fault File\n",
        Fault::IdTaken => b"fault IdTaken\n",
    }
}

impl Reply {
    ghost use Rattle.history.specs.Replies.{text_of, is_fault};

    /// Returns the whole text, with its line feeds.
    pub fn text(&self) -> &[u8]
        ensures { result.now ≡ text_of self.now }
    {
        match self {
            Reply::Text(text) => text,
            Reply::Refused(cause) => refusal_text(*cause),
            Reply::Fault(fault) => fault_text(*fault),
        }
    }

    /// Returns whether the reply is a fault.
    pub fn is_fault(&self) -> bool
        ensures { result ≡ is_fault self.now }
    {
        matches!(self, Reply::Fault(_))
    }
}
