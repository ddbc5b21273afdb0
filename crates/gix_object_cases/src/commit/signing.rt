//! Signatures of commits, found and made.

use crate::program::Program;
use crate::written::show_written;
use bstr::BStr;
use case_words::{Case, Page};
use gix_object_commit::ref_iter::CommitSignature;
use gix_object_commit::{Commit, CommitRef, CommitRefIter};
use gix_object_signature::Format;
use gix_object_signature::run::Word;
use gix_object_signature::sign::Options;
use std::alloc::Global;

fn show_signature(alloc: Global, found: CommitSignature<'_>, page: &mut Page) {
    page.between("header ", found.header.name.as_bytes(), "|");
    page.between("", found.header.value.as_bytes(), "; ");
    match found.header.unfolded(alloc) {
        Ok(value) => page.between("signature ", value.as_bytes(), "; "),
        Err(error) => page.name(error),
    }
    page.between("before ", found.signed_data.before.as_bytes(), "; ");
    page.between("behind ", found.signed_data.behind.as_bytes(), "; ");
    match found.signed_data.to_bstring(alloc) {
        Ok(signed) => page.between("signed ", signed.as_bytes(), ""),
        Err(error) => page.name(error),
    }
}

/// The signature of a commit and what it signs.
pub fn signature(alloc: Global, case: &Case, page: &mut Page) {
    match CommitRefIter::signature(case.text(0), case.kind) {
        Ok(Some(found)) => show_signature(alloc, found, page),
        Ok(None) => page.text("none"),
        Err(error) => page.refused(error),
    }
}

fn options(key: &[u8]) -> Options<'_> {
    Options {
        format: Format::OpenPgp,
        program: BStr::new(b"gpg"),
        signing_key: Some(BStr::new(key)),
    }
}

// What is written of a commit that owns its parts, after another call to sign it.
fn sign_own(
    alloc: Global,
    mut own: Commit,
    options: &Options<'_>,
    program: &mut Program<'_>,
    page: &mut Page,
) {
    page.text("; own ");
    match own.sign(
        options,
        &mut |words: &[Word<'_>], input: &[u8]| { program.answer(words, input) },
    ) {
        Ok(()) => {}
        Err(error) => {
            page.refused(error);
            page.text(", is ");
        }
    }
    show_written(alloc, &own, page);
}

// Signs a commit that is lent.
fn sign_lent(
    alloc: Global,
    commit: CommitRef<'_>,
    options: &Options<'_>,
    program: &mut Program<'_>,
    page: &mut Page,
) {
    match commit.sign(
        options,
        &mut |words: &[Word<'_>], input: &[u8]| { program.answer(words, input) },
    ) {
        Ok(signed) => {
            show_written(alloc, &signed, page);
            sign_own(alloc, signed, options, program, page);
        }
        Err(error) => page.refused(error),
    }
}

/// Signs a commit, the signed commit again, and a copy of the commit, with a program's answers: the
/// commit, the user's key, the program's status, its standard output and its standard error.
pub fn sign(alloc: Global, commit: CommitRef<'_>, case: &Case, page: &mut Page) {
    let options = options(case.text(1));
    let mut program = Program::new(alloc, case.behind(2), true);
    let copy = commit.to_owned();
    sign_lent(alloc, commit, &options, &mut program, page);
    match copy {
        Ok(own) => sign_own(alloc, own, &options, &mut program, page),
        Err(error) => {
            page.text("; not owned ");
            page.name(error);
        }
    }
    page.text("; ");
    program.tell(page);
}
