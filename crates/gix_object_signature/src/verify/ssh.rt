//! Verifying by SSH's ssh-keygen, after `verify_ssh_signed_buffer` in git's gpg-interface.c.

ghost use Rattle.std.specs.Prelude.{◌≡◌, ◌∷◌, ◌++◌, codes, map, filter, length, not, Ok, IfOk, ◌==◌};
ghost use Rattle.std.specs.List.{slice_split};
ghost use Rattle.bstr.specs.BStr.{bstr_bytes};
ghost use Rattle.gix_object_signature.specs.Asking.{Asks, told};
ghost use Rattle.gix_object_signature.specs.Run.{Answers, Plain, File, argument_of};
ghost use Rattle.gix_object_signature.specs.VerifyingSsh as spec;
ghost use Rattle.gix_object_signature.specs.VerifyingSsh.{Asked, Tries, TriesFound, VerifiesSsh, agrees, check_request, find_request, finds, path_of, question_of, revoked_words, time_words, verify_request};

use crate::returns::drop_returns;
use crate::run::{Answer, RunError, Word, run};
use crate::verify::signed_time::time_word;
use crate::verify::ssh_verdict::verdict_of;
use crate::verify::{Error, Outcome, TrustLevel};
use bstr::BStr;
use std::alloc::{AllocError, Global};

/// What Git's configuration says about it.
#[derive(Clone, Copy)]
pub(crate) struct Signers<'a> {
    /// The program.
    pub program: BStr<'a>,
    /// The path of the file that says whose keys are whose.
    pub allowed: BStr<'a>,
    /// The path of the file of keys that are revoked.
    pub revoked: Option<BStr<'a>>,
}

// What every request is made of.
#[derive(Clone, Copy)]
struct Keygen<'a> {
    program: BStr<'a>,
    allowed: BStr<'a>,
    revoked: Option<BStr<'a>>,
    signature: BStr<'a>,
    time: Option<BStr<'a>>,
}

/// The result of verifying the signature of this content, as `SignedData::verify` returns it.
pub(crate) fn verify<'a, F: FnMut(&[Word<'_>], &[u8]) -> Result<Answer, RunError>>(
    alloc: Global,
    signers: Signers<'a>,
    minimum_trust: TrustLevel,
    signature: &'a [u8],
    content: &'a [u8],
    runner: &mut F,
) -> Result<Outcome, Error>
    requires { F.IsAlwaysCallable runner.old }
    ensures told { VerifiesSsh (Answers F.FnMut) runner.old signers.entry.program
        signers.entry.allowed signers.entry.revoked minimum_trust signature.now content.now result
        runner.new }
    ensures callable { F.IsAlwaysCallable runner.new }
{
    let word = time_word(content)?;
    let time = match &word {
        None => None,
        Some(word) => Some(BStr::new(word)),
    };
    let keygen = Keygen {
        program: signers.program,
        allowed: signers.allowed,
        revoked: signers.revoked,
        signature: BStr::new(signature),
        time,
    };
    keygen.ask(alloc, minimum_trust, content, runner)
}

impl<'a> Keygen<'a> {
    fn ask<F: FnMut(&[Word<'_>], &[u8]) -> Result<Answer, RunError>>(
        &self,
        alloc: Global,
        minimum_trust: TrustLevel,
        content: &[u8],
        runner: &mut F,
    ) -> Result<Outcome, Error>
        requires { F.IsAlwaysCallable runner.old }
        ensures told { Asked (Answers F.FnMut) runner.old
            (question_of self.now) content.now minimum_trust result runner.new }
        ensures callable { F.IsAlwaysCallable runner.new }
    {
        let found = self.find_principals(alloc, runner)?;
        if !finds(&found) {
            let answer = self.check(alloc, content, runner)?;
            return Ok(outcome(minimum_trust, false, answer));
        }
        let answer = self.try_found(alloc, found, content, runner)?;
        Ok(outcome(minimum_trust, true, answer))
    }

    // Tries each of the principals that this answer names.
    fn try_found<F: FnMut(&[Word<'_>], &[u8]) -> Result<Answer, RunError>>(
        &self,
        alloc: Global,
        found: Answer,
        content: &[u8],
        runner: &mut F,
    ) -> Result<Answer, Error>
        requires { F.IsAlwaysCallable runner.old }
        ensures told { TriesFound (Answers F.FnMut)
            (question_of self.now) content.now runner.old found result runner.new }
        ensures callable { F.IsAlwaysCallable runner.new }
    {
        let text = drop_returns(alloc, found.output.as_bytes())?;
        let names = names(alloc, text.as_bytes())?;
        self.try_each(alloc, names.as_slice(), found, content, runner)
    }

    // Tries each name up to the first that made the signature; otherwise the last answer counts.
    fn try_each<F: FnMut(&[Word<'_>], &[u8]) -> Result<Answer, RunError>>(
        &self,
        alloc: Global,
        names: &[&[u8]],
        found: Answer,
        content: &[u8],
        runner: &mut F,
    ) -> Result<Answer, Error>
        requires { F.IsAlwaysCallable runner.old }
        ensures told { Tries (Answers F.FnMut)
            (verify_request (question_of self.now) content.now) runner.old
            (map (λ name. name.now) names.now) found result runner.new }
        ensures callable { F.IsAlwaysCallable runner.new }
    {
        let mut last = found;
        for name in names {
            // Both are lent again, for as long as this call.
            last = (&*self).verify(alloc, &**name, content, runner)?;
            if agrees(&last) {
                return Ok(last);
            }
        }
        Ok(last)
    }

    fn find_principals<F: FnMut(&[Word<'_>], &[u8]) -> Result<Answer, RunError>>(
        &self,
        alloc: Global,
        runner: &mut F,
    ) -> Result<Answer, Error>
        requires { F.IsAlwaysCallable runner.old }
        ensures told { Asks (Answers F.FnMut) runner.old
            (find_request (question_of self.now)) result runner.new }
        ensures callable { F.IsAlwaysCallable runner.new }
    {
        let front = [
            Word::Text(self.program),
            text(b"-Y"),
            text(b"find-principals"),
            text(b"-f"),
            Word::Text(self.allowed),
        ];
        let words = self.words(alloc, &front, None)?;
        told(run(words.as_slice(), b"", runner))
    }

    fn check<F: FnMut(&[Word<'_>], &[u8]) -> Result<Answer, RunError>>(
        &self,
        alloc: Global,
        content: &[u8],
        runner: &mut F,
    ) -> Result<Answer, Error>
        requires { F.IsAlwaysCallable runner.old }
        ensures told { Asks (Answers F.FnMut) runner.old
            (check_request (question_of self.now) content.now) result runner.new }
        ensures callable { F.IsAlwaysCallable runner.new }
    {
        let front = [
            Word::Text(self.program),
            text(b"-Y"),
            text(b"check-novalidate"),
            text(b"-n"),
            text(b"git"),
        ];
        let words = self.words(alloc, &front, None)?;
        told(run(words.as_slice(), content, runner))
    }

    fn verify<'b, F: FnMut(&[Word<'_>], &[u8]) -> Result<Answer, RunError>>(
        &'b self,
        alloc: Global,
        principal: &'b [u8],
        content: &[u8],
        runner: &mut F,
    ) -> Result<Answer, Error>
        requires { F.IsAlwaysCallable runner.old }
        ensures told { Asks (Answers F.FnMut) runner.old
            (verify_request (question_of self.now) content.now principal.now) result runner.new }
        ensures callable { F.IsAlwaysCallable runner.new }
    {
        let front = [
            Word::Text(self.program),
            text(b"-Y"),
            text(b"verify"),
            text(b"-n"),
            text(b"git"),
            text(b"-f"),
            Word::Text(self.allowed),
            text(b"-I"),
            text(principal),
        ];
        let words = self.words(alloc, &front, self.revoked)?;
        told(run(words.as_slice(), content, runner))
    }

    // These words, and what follows them in each request.
    fn words<'b>(
        &'b self,
        alloc: Global,
        front: &[Word<'b>],
        revoked_keys: Option<BStr<'b>>,
    ) -> Result<Vec<Word<'b>>, AllocError>
        ensures { IfOk result (λ words. map argument_of words.items
            ≡ map argument_of front.now
            ++
            (Plain (codes "-s") ∷ File (bstr_bytes self.now.signature)
            ∷ (time_words (path_of self.now.time)
            ++ revoked_words (path_of revoked_keys.entry)))) }
    {
        let mut words = Vec::from_slice(alloc, front)?;
        words.extend_from_slice(&[text(b"-s"), Word::FileWith(self.signature)])?;
        if let Some(time) = self.time {
            words.push(Word::Text(time))?;
        }
        if let Some(path) = revoked_keys {
            words.extend_from_slice(&[text(b"-r"), Word::Text(path)])?;
        }
        Ok(words)
    }
}

fn told(answer: Result<Answer, RunError>) -> Result<Answer, Error>
    ensures { result ≡ told answer }
{
    Ok(answer?)
}

fn text(bytes: &[u8]) -> Word<'_>
    ensures { argument_of result ≡ Plain bytes.now }
{
    Word::Text(BStr::new(bytes))
}

// The lines that aren't empty.
fn names(alloc: Global, text: &[u8]) -> Result<Vec<&[u8]>, AllocError>
    ensures { IfOk result
        (λ names. map (λ name. name.now) names.items
        ≡ filter (λ line. not (length line == 0)) (slice_split (λ byte. byte == 10) text.now)) }
{
    text.split(|byte| *byte == b'\n')
        .filter(|line| !line.is_empty())
        .collect(alloc)
}

fn finds(answer: &Answer) -> bool
    ensures { result ≡ finds answer.now }
{
    answer.succeeded && !answer.output.as_bytes().is_empty()
}

fn agrees(answer: &Answer) -> bool
    ensures { result ≡ agrees answer.now }
{
    answer.succeeded && answer.output.as_bytes().starts_with(b"Good")
}

fn outcome(minimum_trust: TrustLevel, has_signer: bool, answer: Answer) -> Outcome
    ensures { Ok result ≡ spec.outcome_of minimum_trust has_signer (Ok answer) }
{
    let verdict = verdict_of(answer.output.as_bytes());
    Outcome {
        status: verdict.status,
        trust: verdict.trust,
        minimum_trust,
        has_signer,
        answer,
    }
}
