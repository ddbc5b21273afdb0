//! The words of a line, one after another, and a word as a number or as a file's kind.

ghost use Rattle.std.specs.Prelude.{◌≡◌, ◌↔◌, ◌≤◌, ◌+◌, ℕ, [], ◌∷◌, length, Bool, true, IsTrue, MatchOption, IfSome, IfNone};
ghost use Rattle.std.specs.Option.{option_copied};
ghost use Rattle.history_model.specs.Bytes.{Bytes};
ghost use Rattle.history_model.specs.Spelling.{max_line};
ghost use Rattle.history_word.specs.LineTable.{number_of, kind_of};
ghost use Rattle.history_word.specs.Lines.{IsCut, split_words, are_nonempty, words_left, words_size};

use gix_object_lines::decimal::read_unsigned;
use history_model::FileKind;

/// The words of a line that are still to come, separated by one space. The line has at most 4,096
/// bytes.
#[derive(Drop)]
pub(crate) struct Words<'a> {
    rest: Option<&'a [u8]>,
    ghost short: { words_size (words_left (option_copied rest)) ≤ max_line + 1 },
}

impl<'a> Words<'a> {
    ghost use Rattle.history_word.specs.Words.{left};

    /// Returns all words of a line, which is given without its line feed.
    pub(crate) fn new(line: &'a [u8]) -> Self
        requires { length line.now ≤ max_line }
        ensures { left result ≡ split_words line.now }
    {
        Words { rest: Some(line) }
    }

    /// Takes the next word, if there is one.
    pub(crate) fn next(&mut self) -> Option<&'a [u8]>
        ensures found { IfSome result (λ word. left self.old ≡ word.now ∷ left self.new) }
        ensures none { IfNone result ((left self.old ≡ []) × (left self.new ≡ [])) }
    {
        let line = self.rest?;
        let (word, rest) = first_word(line);
        self.rest = rest;
        Some(word)
    }

    /// Returns whether no word is left.
    pub(crate) fn is_done(&self) -> bool
        ensures { IsTrue result ↔ (left self.now ≡ []) }
    {
        self.rest.is_none()
    }

    /// Takes the next word, if it is the last.
    pub(crate) fn last(&mut self) -> Option<&'a [u8]>
        ensures found { IfSome result (λ word. left self.old ≡ word.now ∷ []) }
        ensures none { IfNone result ((word : Bytes) → left self.old ≡ word ∷ [] → ⊥) }
    {
        let word = self.next()?;
        if self.is_done() { Some(word) } else { None }
    }
}

/// Returns the word up to the first space, and what follows the space.
fn first_word(line: &[u8]) -> (&[u8], Option<&[u8]>)
    ensures { IsCut line.now result.0.now (option_copied result.1) }
{
    for (i, byte) in line.iter().enumerate() {
        if *byte == b' ' {
            return (&line[..i], Some(&line[i + 1..]));
        }
    }
    (line, None)
}

/// Returns whether no word of the line is empty.
pub(crate) fn are_words(line: &[u8]) -> bool
    requires { length line.now ≤ max_line }
    ensures { result ≡ are_nonempty (split_words line.now) }
{
    let mut words = Words::new(line);
    while let Some(word) = words.next() {
        if word.is_empty() {
            return false;
        }
    }
    true
}

/// Returns the number below 2^64 that the word spells in digits, without a leading zero, if it
/// spells one.
pub(crate) fn number(word: &[u8]) -> Option<u64>
    ensures { result ≡ number_of word.now }
{
    let number = read_unsigned(word)?;
    Some(number)
}

/// Returns the kind of file that the word names, if it names one.
pub(crate) fn file_kind(word: &[u8]) -> Option<FileKind>
    ensures { result ≡ kind_of word.now }
{
    if word == b"file".as_slice() {
        Some(FileKind::File)
    } else if word == b"exec".as_slice() {
        Some(FileKind::Exec)
    } else if word == b"link".as_slice() {
        Some(FileKind::Link)
    } else {
        None
    }
}
