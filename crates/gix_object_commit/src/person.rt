//! Lines for those who made and committed a change.

ghost use Rattle.std.specs.Prelude.{ℕ, List, ◌≡◌, ◌++◌, IfOk, IfErr, IsOkAnd};
ghost use Rattle.gix_object_lines.specs.Person.{Person, actor_line, person_of};
ghost use Rattle.gix_object_commit.specs.Commit.{line, IsPerson};
ghost use Rattle.gix_object_commit.specs.Faults.{PersonFault};

use gix_object_lines::cut::{split_once, strip_word};
use gix_object_lines::decode::Error;
use gix_object_lines::lines::{ActorRef, read_actor};

/// The actor of a line of this word that begins the input, and what follows the line. Returns
/// `FieldName` if the word doesn't begin the input, `LineEnd` if the line has no end, and otherwise
/// the error of `read_actor`.
pub fn read_person<'a>(input: &'a [u8], word: &[u8]) -> Result<(ActorRef<'a>, &'a [u8]), Error>
    ensures read { IfOk result
        (λ read. (input.now ≡ line word.now (actor_line (person_of read.0)) ++ read.1.now)
        × IsPerson (person_of read.0)) }
    ensures every { (person : Person) (rest : List ℕ) → IsPerson person
        → input.now ≡ line word.now (actor_line person) ++ rest
        → IsOkAnd result (λ read. (person_of read.0 ≡ person) × (read.1.now ≡ rest)) }
    ensures refused { IfErr result (λ error. PersonFault word.now input.now error) }
{
    let text = strip_word(input, word).ok_or(Error::FieldName)?;
    let (text, rest) = split_once(text, b'\n').ok_or(Error::LineEnd)?;
    let actor = read_actor(text)?;
    Ok((actor, rest))
}
