//! Signatures of tags, found and made.

use crate::program::Program;
use crate::tag::whole::show_signature;
use crate::written::show_written;
use bstr::BStr;
use case_words::{Case, Page};
use gix_object_signature::run::Word;
use gix_object_signature::sign::Options;
use gix_object_signature::{Format, SignatureRef, SignedData};
use gix_object_tag::{TagRef, TagRefIter};
use std::alloc::Global;

fn show_found(alloc: Global, found: SignatureRef<'_>, data: SignedData<'_>, page: &mut Page) {
    show_signature(Some(found), page);
    page.between("; before ", data.before.as_bytes(), "; ");
    page.between("behind ", data.behind.as_bytes(), "; ");
    match data.to_bstring(alloc) {
        Ok(signed) => page.between("signed ", signed.as_bytes(), ""),
        Err(error) => page.name(error),
    }
}

/// The signature of a tag and what it signs.
pub fn signature(alloc: Global, case: &Case, page: &mut Page) {
    match TagRefIter::signature(case.text(0), case.kind) {
        Ok(Some((found, data))) => show_found(alloc, found, data, page),
        Ok(None) => page.text("none"),
        Err(error) => page.refused(error),
    }
}

fn options(key: &[u8]) -> Options<'_> {
    Options {
        format: Format::OpenPgp,
        program: BStr::new(b"signer"),
        signing_key: Some(BStr::new(key)),
    }
}

// Signs a tag that owns its parts.
fn sign_own(
    alloc: Global,
    tag: TagRef<'_>,
    options: &Options<'_>,
    program: &mut Program<'_>,
    page: &mut Page,
) {
    let mut own = match tag.into_owned(alloc) {
        Ok(own) => own,
        Err(error) => return page.name(error),
    };
    page.text("own ");
    match own.sign(
        options,
        &mut |words: &[Word<'_>], input: &[u8]| { program.answer(words, input) },
    ) {
        Ok(()) => {}
        Err(error) => {
            page.refused(error);
            page.text(", is ");
        }
    }
    show_written(alloc, &own, page);
}

// Signs a tag that is lent.
fn sign_lent(
    alloc: Global,
    tag: TagRef<'_>,
    options: &Options<'_>,
    program: &mut Program<'_>,
    page: &mut Page,
) {
    match tag.sign(
        alloc,
        options,
        &mut |words: &[Word<'_>], input: &[u8]| { program.answer(words, input) },
    ) {
        Ok(signed) => show_written(alloc, &signed, page),
        Err(error) => page.refused(error),
    }
    page.text("; ");
}

/// Signs a tag, lent and owned, with a program's answers: the tag, the signature in the place of
/// its own if that isn't empty, the user's key, the program's status, its standard output and its
/// standard error.
pub fn sign<'a>(alloc: Global, mut tag: TagRef<'a>, case: &'a Case, page: &mut Page) {
    let signature = case.text(1);
    if !signature.is_empty() {
        tag.pgp_signature = Some(BStr::new(signature));
    }
    let options = options(case.text(2));
    let mut program = Program::new(alloc, case.behind(3), true);
    sign_lent(alloc, tag, &options, &mut program, page);
    sign_own(alloc, tag, &options, &mut program, page);
    page.text("; ");
    program.tell(page);
}
