//! Signatures verified.

use crate::program::Program;
use bstr::BStr;
use case_words::{Page, Texts};
use gix_object_signature::SignedData;
use gix_object_signature::run::Word;
use gix_object_signature::verify::{Options, Outcome, TrustLevel};
use std::alloc::Global;

// The words of a line from its least trust on.
#[derive(Clone, Copy)]
struct Signed<'a> {
    minimum_trust: TrustLevel,
    data: SignedData<'a>,
    signature: &'a [u8],
    answers: &'a [Vec<u8>],
}

fn read_signed(words: &[Vec<u8>]) -> Option<Signed<'_>> {
    let [trust, before, behind, signature, answers @ ..] = words else {
        return None;
    };
    Some(Signed {
        minimum_trust: TrustLevel::from_bytes(trust.as_slice())?,
        data: SignedData {
            before: BStr::new(before.as_slice()),
            behind: BStr::new(behind.as_slice()),
        },
        signature: signature.as_slice(),
        answers,
    })
}

fn show_outcome(outcome: &Outcome, page: &mut Page) {
    page.text(if outcome.is_valid() {
        "valid "
    } else {
        "invalid "
    });
    page.name(outcome.status);
    page.text(" ");
    page.name(outcome.trust);
    page.text(" of ");
    page.name(outcome.minimum_trust);
    page.text(if outcome.has_signer {
        " signer"
    } else {
        " no signer"
    });
    page.text(if outcome.answer.succeeded {
        " ended"
    } else {
        " failed"
    });
    page.between(" output ", outcome.answer.output.as_bytes(), "");
    page.between(" errors ", outcome.answer.errors.as_bytes(), "");
}

fn verify(alloc: Global, signed: &Signed<'_>, options: &Options<'_>, page: &mut Page) {
    let mut program = Program::new(alloc, signed.answers, false);
    match signed.data.verify(
        alloc,
        signed.signature,
        options,
        &mut |words: &[Word<'_>], input: &[u8]| { program.answer(words, input) },
    ) {
        Ok(outcome) => show_outcome(&outcome, page),
        Err(error) => page.refused(error),
    }
    program.tell(page);
}

// How a signature of OpenPGP, of X.509 or of SSH is verified. The last has the paths of the allowed
// signers and of the revoked keys after the program; there are none if the path is empty.
fn options<'a>(operation: &str, case: &'a Texts, minimum_trust: TrustLevel) -> Options<'a> {
    let program = BStr::new(case.text(0));
    let revoked = BStr::new(case.text(2));
    match operation {
        "verify-openpgp" => Options::OpenPgp {
            program,
            minimum_trust,
        },
        "verify-x509" => Options::X509 {
            program,
            minimum_trust,
        },
        _ => Options::Ssh {
            program,
            allowed_signers: BStr::new(case.text(1)),
            revoked_keys: if revoked.as_bytes().is_empty() {
                None
            } else {
                Some(revoked)
            },
            minimum_trust,
        },
    }
}

/// What a program reports about a signature: the program, the paths, the least trust, the bytes
/// before and after the signature, the signature, and the program's answers. `None` if there is no
/// such operation or the words are none.
pub fn put_answer(alloc: Global, operation: &str, case: &Texts, page: &mut Page) -> Option<()> {
    let front = match operation {
        "verify-openpgp" | "verify-x509" => 1,
        "verify-ssh" => 3,
        _ => return None,
    };
    let signed = read_signed(case.behind(front))?;
    let options = options(operation, case, signed.minimum_trust);
    verify(alloc, &signed, &options, page);
    Some(())
}
