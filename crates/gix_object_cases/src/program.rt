//! A program that signs or verifies, whose answers are in a table.

use case_words::Page;
use gix_object_lines::ByteString;
use gix_object_signature::run::{Answer, RunError, Word};
use std::alloc::Global;

/// Returns its answers to requests one after the other, or always the first; if none is left, it
/// can't be started. It notes its requests.
#[derive(Drop)]
pub struct Program<'a> {
    alloc: Global,
    // of each answer the status, the standard output and the standard error
    answers: &'a [Vec<u8>],
    is_repeating: bool,
    notes: Page,
}

impl<'a> Program<'a> {
    /// Returns a program with these answers, of which each or always the first is returned.
    pub fn new(alloc: Global, answers: &'a [Vec<u8>], is_repeating: bool) -> Program<'a> {
        Program {
            alloc,
            answers,
            is_repeating,
            notes: Page::new(alloc),
        }
    }

    /// Adds its requests to a page.
    pub fn tell(&self, page: &mut Page) {
        page.add(&self.notes);
    }

    /// Returns the answer to a request.
    pub fn answer(&mut self, words: &[Word<'_>], input: &[u8]) -> Result<Answer, RunError> {
        self.note(words, input);
        let [status, output, errors, rest @ ..] = self.answers else {
            return Err(RunError::Spawn);
        };
        if !self.is_repeating {
            self.answers = rest;
        }
        answer_of(
            self.alloc,
            status.as_slice(),
            output.as_slice(),
            errors.as_slice(),
        )
    }

    // Notes a request: its words, and its standard input.
    fn note(&mut self, words: &[Word<'_>], input: &[u8]) {
        self.notes.text(if self.is_repeating {
            "asked "
        } else {
            "; asked "
        });
        for word in words {
            note_word(word, &mut self.notes);
        }
        self.notes.between("input ", input, "");
        self.notes.text(if self.is_repeating { "; " } else { "" });
    }
}

fn note_word(word: &Word<'_>, notes: &mut Page) {
    match word {
        Word::Text(text) => notes.between("", text.as_bytes(), " "),
        Word::FileWith(text) => notes.between("(file ", text.as_bytes(), ") "),
        Word::FileToSign(text) => notes.between("(to sign ", text.as_bytes(), ") "),
    }
}

// It succeeded if the status is `0`.
fn answer_of(
    alloc: Global,
    status: &[u8],
    output: &[u8],
    errors: &[u8],
) -> Result<Answer, RunError> {
    let Ok(output) = ByteString::from_slice(alloc, output) else {
        return Err(RunError::Memory);
    };
    let Ok(errors) = ByteString::from_slice(alloc, errors) else {
        return Err(RunError::Memory);
    };
    Ok(Answer {
        succeeded: status == b"0".as_slice(),
        output,
        errors,
    })
}
