//! Cases of `gix_object_signature`.

mod verifying;

use crate::program::Program;
use bstr::BStr;
use case_words::{Page, Texts};
use gix_object_signature::Format;
use gix_object_signature::run::Word;
use gix_object_signature::sign::{Options, sign};
use std::alloc::Global;

/// Adds what the operation of the line gives. `None` if the line is no case or no memory is left.
pub fn put_answer(alloc: Global, line: &str, page: &mut Page) -> Option<()> {
    let (operation, words) = line.split_once(' ')?;
    put_of_texts(alloc, operation, &Texts::read(alloc, words)?, page)
}

fn put_of_texts(alloc: Global, operation: &str, case: &Texts, page: &mut Page) -> Option<()> {
    match operation {
        "sign-openpgp" => put_signature(alloc, Format::OpenPgp, case, page),
        "sign-x509" => put_signature(alloc, Format::X509, case, page),
        "sign-ssh" => put_signature(alloc, Format::Ssh, case, page),
        _ => verifying::put_answer(alloc, operation, case, page)?,
    }
    Some(())
}

// The signature of a content: the program, the key, the content and the program's answers.
fn put_signature(alloc: Global, format: Format, case: &Texts, page: &mut Page) {
    let options = Options {
        format,
        program: BStr::new(case.text(0)),
        signing_key: Some(BStr::new(case.text(1))),
    };
    let mut program = Program::new(alloc, case.behind(3), false);
    match sign(
        alloc,
        case.text(2),
        &options,
        &mut |words: &[Word<'_>], input: &[u8]| { program.answer(words, input) },
    ) {
        Ok(signature) => page.between("signature ", signature.as_bytes(), ""),
        Err(error) => page.refused(error),
    }
    program.tell(page);
}
