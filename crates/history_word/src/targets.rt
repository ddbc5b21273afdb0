//! Parses what is expected of a name (`any`, `new`, `at`), and what follows `tag` and `to`.

ghost use Rattle.std.specs.Prelude.{◌≡◌, IfSome};
ghost use Rattle.history_model.specs.Commands as model;
ghost use Rattle.history_model.specs.Lines.{TagHeading, ToHeading};
ghost use Rattle.history_word.specs.Commands.{IsExpect, IsTo};
ghost use Rattle.history_word.specs.LineTable.{target_of_words};
ghost use Rattle.history_word.specs.Drafts.{Says, SaysExpect, SaysTarget};
ghost use Rattle.history_word.specs.Words.{left};

use crate::command::{Expect, To};
use crate::heading::{Heading, Opening, kept};
use crate::words::Words;
use std::alloc::Global;

/// Takes `any`, `new` or `at <word>`. Returns `Some(None)` if memory ran out for the word, and
/// `None` if the words begin with none of these.
pub(crate) fn expect(alloc: Global, words: &mut Words) -> Option<Option<Expect>>
    ensures { SaysExpect result (left words.old) (left words.new) }
{
    let first = words.next()?;
    if first == b"any".as_slice() {
        Some(Some(Expect::Any))
    } else if first == b"new".as_slice() {
        Some(Some(Expect::New))
    } else if first == b"at".as_slice() {
        let word = words.next()?;
        Some(kept(alloc, word).map(Expect::At))
    } else {
        None
    }
}

/// Reads what follows `to`.
pub(crate) fn to(alloc: Global, words: &mut Words) -> Option<Heading>
    ensures { Says result (target_of_words ToHeading (left words.old)) }
{
    Some(Heading::To(target(alloc, words)?))
}

/// Reads what follows `tag`.
pub(crate) fn tag(alloc: Global, words: &mut Words) -> Option<Heading>
    ensures { Says result (target_of_words TagHeading (left words.old)) }
{
    Some(Heading::Opening(Opening::Tag(target(alloc, words)?)))
}

/// Takes the rest of a line, `<name> <expect> <word>`. Returns `Some(None)` if memory ran out for
/// one of them, and `None` for any other rest.
fn target(alloc: Global, words: &mut Words) -> Option<Option<To>>
    ensures { SaysTarget result (left words.old) }
{
    let name = words.next()?;
    let expect = expect(alloc, words)?;
    let word = words.last()?;
    let own_name = kept(alloc, name);
    let own_word = kept(alloc, word);
    Some(to_line(own_name, expect, own_word))
}

/// Returns a name to move, if there was memory for each of its parts.
fn to_line(name: Option<Vec<u8>>, expect: Option<Expect>, word: Option<Vec<u8>>) -> Option<To>
    ensures { (line : model.To) → IfSome name (λ x. x.items ≡ line.name)
        → IfSome expect (λ x. IsExpect x line.expect) → IfSome word (λ x. x.items ≡ line.word)
        → IfSome result (λ to. IsTo to line) }
{
    Some(To {
        name: name?,
        expect: expect?,
        word: word?,
    })
}
