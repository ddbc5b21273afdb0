//! The report of an action that isn't done: its word, its values, a note; and the program's status.
ghost use Rattle.std.specs.Prelude.{◌≡◌, []};
ghost use Rattle.history_actions.specs.Told.{Took, Writes, cause_note, cause_word, failure_line, failure_note, failure_text, failure_values, failure_word, status, stray_note, told, values_text};

use crate::failure::Failure;
use crate::looking::is_object_place;
use crate::values::{write_cause_values, write_value};
use gix_hash::Kind;
use history::{Broken, OpenError, Sink};
use history_word::write_all;

/// Writes why an action isn't done to `errors`, in a line: `refused`, the cause and its values, or
/// `fault` and the cause, separated by spaces. If a stray file would be an object's of the other
/// hash function than `kind`, a second line notes that. Returns the program's status: 0 if the
/// action is done, else 1.
///
/// Nothing is written if the action is done, or if a run ended before its input did. If `errors`
/// fails, a beginning of the lines was written, and the status is the same. It takes no memory.
pub fn report<E: Sink>(kind: Kind, answer: &Result<(), Failure>, errors: &mut E) -> u8
    ensures status { result ≡ status answer.now }
    ensures told { Took (E.contents errors.old) (E.contents errors.new) (E.has_failed errors.new)
        (told kind answer.now) }
    ensures silent { told kind answer.now ≡ [] → errors.new ≡ errors.old }
{
    let Err(failure) = answer else {
        return 0;
    };
    if let Failure::Ended(_) = failure {
        return 1;
    }
    let _ = write_failure(kind, failure, errors);
    1
}

// Writes the line of a failure, and its note.
fn write_failure<E: Sink>(kind: Kind, failure: &Failure, errors: &mut E) -> Result<(), Broken>
    ensures { Writes (E.contents errors.old) (E.contents errors.new) (E.has_failed errors.new)
        (failure_text kind failure.now) result }
{
    write_failure_line(failure, errors)?;
    write_all(errors, note_of(kind, failure))
}

// Writes the line of a failure.
fn write_failure_line<E: Sink>(failure: &Failure, errors: &mut E) -> Result<(), Broken>
    ensures { Writes (E.contents errors.old) (E.contents errors.new) (E.has_failed errors.new)
        (failure_line failure.now) result }
{
    write_all(errors, word_of(failure))?;
    write_values(failure, errors)?;
    write_all(errors, b"\n")
}

// Returns the note if the folder may be one of the other hash function.
fn note_of(kind: Kind, failure: &Failure) -> &'static [u8]
    ensures { result.now ≡ failure_note kind failure.now }
{
    let Failure::Unopened(cause) = failure else {
        return b"";
    };
    note_of_cause(kind, cause)
}

fn note_of_cause(kind: Kind, cause: &OpenError) -> &'static [u8]
    ensures { result.now ≡ cause_note kind cause.now }
{
    let OpenError::Stray(path) = cause else {
        return b"";
    };
    note_of_stray(kind, path)
}

// Returns the note on a stray file that would be an object's of the other hash function.
fn note_of_stray(kind: Kind, path: &[u8]) -> &'static [u8]
    ensures { result.now ≡ stray_note kind path.now }
{
    match kind {
        Kind::Sha1 => {
            if is_object_place(Kind::Sha256, path) {
                b"note: is this a SHA-256 repository? (--sha256)\n"
            } else {
                b""
            }
        }
        Kind::Sha256 => {
            if is_object_place(Kind::Sha1, path) {
                b"note: is this a SHA-1 repository? (no --sha256)\n"
            } else {
                b""
            }
        }
    }
}

fn word_of(failure: &Failure) -> &'static [u8]
    ensures { result.now ≡ failure_word failure.now }
{
    match failure {
        Failure::NotEmpty(_) => b"refused NotEmpty",
        Failure::Unopened(cause) => word_of_cause(cause),
        Failure::File => b"fault File",
        Failure::Memory => b"fault Memory",
        Failure::Read => b"fault Read",
        Failure::Write => b"fault Write",
        Failure::Ended(_) => b"",
    }
}

fn word_of_cause(cause: &OpenError) -> &'static [u8]
    ensures { result.now ≡ cause_word cause.now }
{
    match cause {
        OpenError::NoHead => b"refused NoHead",
        OpenError::BadHead => b"refused BadHead",
        OpenError::Stray(_) => b"refused Stray",
        OpenError::Unfinished(_) => b"refused Unfinished",
        OpenError::BadObject(_) => b"refused BadObject",
        OpenError::WrongId(_) => b"refused WrongId",
        OpenError::TooLarge(_) => b"refused TooLarge",
        OpenError::BadTree(_) => b"refused BadTree",
        OpenError::BadTime(_) => b"refused BadTime",
        OpenError::BadTag(_) => b"refused BadTag",
        OpenError::Missing(..) => b"refused Missing",
        OpenError::WrongKind(..) => b"refused WrongKind",
        OpenError::Cycle(_) => b"refused Cycle",
        OpenError::IdReserved => b"refused IdReserved",
        OpenError::BadName(_) => b"refused BadName",
        OpenError::PrivateName(_) => b"refused PrivateName",
        OpenError::Symbolic(_) => b"refused Symbolic",
        OpenError::BadPacked(_) => b"refused BadPacked",
        OpenError::BadPeeled(_) => b"refused BadPeeled",
        OpenError::Collides(..) => b"refused Collides",
        OpenError::BadLog(..) => b"refused BadLog",
        OpenError::LongLogLine(..) => b"refused LongLogLine",
        OpenError::LogWithoutName(_) => b"refused LogWithoutName",
        OpenError::File => b"fault File",
        OpenError::Memory => b"fault Memory",
    }
}

// Writes the values of a failure.
fn write_values<E: Sink>(failure: &Failure, errors: &mut E) -> Result<(), Broken>
    ensures { Writes (E.contents errors.old) (E.contents errors.new) (E.has_failed errors.new)
        (values_text (failure_values failure.now)) result }
{
    match failure {
        Failure::NotEmpty(path) => write_value(errors, path),
        Failure::Unopened(cause) => write_cause_values(errors, cause),
        Failure::File | Failure::Memory | Failure::Read | Failure::Write | Failure::Ended(_) => {
            Ok(())
        }
    }
}
