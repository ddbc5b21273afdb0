//! Verifying by GnuPG's programs, after `verify_gpg_signed_buffer` in git's gpg-interface.c.

ghost use Rattle.std.specs.Prelude.{◌≡◌};
ghost use Rattle.bstr.specs.BStr.{bstr_bytes};
ghost use Rattle.gix_object_signature.specs.Run.{Answers};
ghost use Rattle.gix_object_signature.specs.Verifying.{AsksOnce, gpg_request, gpgsm_request, outcome_of};

use crate::run::{Answer, RunError, Word, run};
use crate::verify::{Error, Outcome, TrustLevel, lines};
use bstr::BStr;

/// What GnuPG's program for OpenPGP reports about the signature of this content.
pub(crate) fn ask_gpg<'a, F: FnMut(&[Word<'_>], &[u8]) -> Result<Answer, RunError>>(
    program: BStr<'a>,
    minimum_trust: TrustLevel,
    signature: &'a [u8],
    content: &'a [u8],
    runner: &mut F,
) -> Result<Outcome, Error>
    requires { F.IsAlwaysCallable runner.old }
    ensures told { AsksOnce (Answers F.FnMut) runner.old
        (gpg_request
        (bstr_bytes program.entry) signature.now content.now) minimum_trust result runner.new }
    ensures callable { F.IsAlwaysCallable runner.new }
{
    let words = [
        Word::Text(program),
        Word::Text(BStr::new(b"--keyid-format=long")),
        Word::Text(BStr::new(b"--status-fd=1")),
        Word::Text(BStr::new(b"--verify")),
        Word::FileWith(BStr::new(signature)),
        Word::Text(BStr::new(b"-")),
    ];
    read_answer(minimum_trust, run(&words, content, runner))
}

/// What its program for X.509 reports.
pub(crate) fn ask_gpgsm<'a, F: FnMut(&[Word<'_>], &[u8]) -> Result<Answer, RunError>>(
    program: BStr<'a>,
    minimum_trust: TrustLevel,
    signature: &'a [u8],
    content: &'a [u8],
    runner: &mut F,
) -> Result<Outcome, Error>
    requires { F.IsAlwaysCallable runner.old }
    ensures told { AsksOnce (Answers F.FnMut) runner.old
        (gpgsm_request
        (bstr_bytes program.entry) signature.now content.now) minimum_trust result runner.new }
    ensures callable { F.IsAlwaysCallable runner.new }
{
    let words = [
        Word::Text(program),
        Word::Text(BStr::new(b"--status-fd=1")),
        Word::Text(BStr::new(b"--verify")),
        Word::FileWith(BStr::new(signature)),
        Word::Text(BStr::new(b"-")),
    ];
    read_answer(minimum_trust, run(&words, content, runner))
}

// What the answer means.
fn read_answer(
    minimum_trust: TrustLevel,
    answer: Result<Answer, RunError>,
) -> Result<Outcome, Error>
    ensures { result ≡ outcome_of minimum_trust answer }
{
    let answer = answer?;
    let status = lines::status_of(answer.output.as_bytes());
    let trust = lines::trust_of(answer.output.as_bytes());
    Ok(Outcome {
        status,
        trust,
        minimum_trust,
        has_signer: true,
        answer,
    })
}
