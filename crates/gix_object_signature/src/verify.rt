//! Verifying, after git's gpg-interface.c.

ghost use Rattle.std.specs.Prelude.{◌≡◌, ◌↔◌, IsTrue};
ghost use Rattle.gix_object_signature.specs.Asking.{error_of};
ghost use Rattle.gix_object_signature.specs.Run.{Answers};
ghost use Rattle.gix_object_signature.specs.Signed.{signed_bytes};
ghost use Rattle.gix_object_signature.specs.Verifying.{IsValid, Verifies, VerifiesBy, format_of};
ghost use Rattle.gix_object_signature.specs.declared.verify.Error.TheVariants.{Memory};

mod gnupg;
mod lines;
mod signed_time;
mod ssh;
mod ssh_verdict;
mod trust;

use crate::run::{Answer, RunError, Word};
pub use crate::verify::trust::TrustLevel;
use crate::{Format, SignedData};
use bstr::BStr;
use std::alloc::{AllocError, Global};

/// What Git's configuration says about verifying.
#[derive(Debug, Clone, Copy, PartialEq, Eq)]
pub enum Options<'a> {
    /// Of a signature of OpenPGP.
    OpenPgp {
        /// The program that verifies (`gpg.program`).
        program: BStr<'a>,
        /// The level at which its key must be trusted at least (`gpg.minTrustLevel`).
        minimum_trust: TrustLevel,
    },
    /// Of a signature of X.509.
    X509 {
        /// The program that verifies (`gpg.x509.program`).
        program: BStr<'a>,
        /// The level at which its key must be trusted at least (`gpg.minTrustLevel`).
        minimum_trust: TrustLevel,
    },
    /// Of an SSH signature.
    Ssh {
        /// The program that verifies (`gpg.ssh.program`).
        program: BStr<'a>,
        /// The path of the file that says whose keys are whose (`gpg.ssh.allowedSignersFile`).
        allowed_signers: BStr<'a>,
        /// The path of the file of keys that are revoked (`gpg.ssh.revocationFile`), if there is
        /// one. Git passes none if the file is missing; here the caller tests that.
        revoked_keys: Option<BStr<'a>>,
        /// The level at which its key must be trusted at least (`gpg.minTrustLevel`): `Fully` is
        /// that of a principal's key.
        minimum_trust: TrustLevel,
    },
}

impl<'a> Options<'a> {
    fn takes(&self, format: Format) -> bool
        ensures { IsTrue result ↔ (format ≡ format_of self.now) }
    {
        match self {
            Options::OpenPgp { .. } => format == Format::OpenPgp,
            Options::X509 { .. } => format == Format::X509,
            Options::Ssh { .. } => format == Format::Ssh,
        }
    }

    // What the program of these options reports.
    fn ask<'b, F: FnMut(&[Word<'_>], &[u8]) -> Result<Answer, RunError>>(
        &self,
        alloc: Global,
        signature: &'b [u8],
        content: &'b [u8],
        runner: &mut F,
    ) -> Result<Outcome, Error>
        requires { F.IsAlwaysCallable runner.old }
        ensures told { VerifiesBy
            (Answers F.FnMut) runner.old content.now signature.now self.now result runner.new }
        ensures callable { F.IsAlwaysCallable runner.new }
    {
        match *self {
            Options::OpenPgp {
                program,
                minimum_trust,
            } => gnupg::ask_gpg(program, minimum_trust, signature, content, runner),
            Options::X509 {
                program,
                minimum_trust,
            } => gnupg::ask_gpgsm(program, minimum_trust, signature, content, runner),
            Options::Ssh {
                program,
                allowed_signers,
                revoked_keys,
                minimum_trust,
            } => {
                let signers = ssh::Signers {
                    program,
                    allowed: allowed_signers,
                    revoked: revoked_keys,
                };
                ssh::verify(alloc, signers, minimum_trust, signature, content, runner)
            }
        }
    }
}

/// What a program reports about a signature.
#[derive(Debug, Clone, Copy, PartialEq, Eq)]
pub enum Status {
    /// It is good (`GOODSIG`).
    Good,
    /// It is of other bytes (`BADSIG`).
    Bad,
    /// It wasn't verified (`ERRSIG`), or the report has several signatures or a trust that has no
    /// such level.
    Error,
    /// It is good and has expired (`EXPSIG`).
    Expired,
    /// It is good, and its key has expired (`EXPKEYSIG`).
    ExpiredKey,
    /// It is good, and its key was revoked (`REVKEYSIG`).
    RevokedKey,
    /// Nothing was reported.
    Unknown,
}

/// What came of verifying.
#[derive(Debug, Drop, PartialEq, Eq)]
pub struct Outcome {
    /// What was reported about the signature.
    pub status: Status,
    /// How far its key is trusted: the level of the last line that names one.
    pub trust: TrustLevel,
    /// How far it must be trusted.
    pub minimum_trust: TrustLevel,
    /// Whether someone is known to have made it: false only for an SSH key that is none of the
    /// allowed signers'.
    pub has_signer: bool,
    /// The program's whole answer, the last of several: its output is the status, its errors are
    /// for people.
    pub answer: Answer,
}

impl Outcome {
    /// Returns whether the signature holds, by Git's rule: the program's status is 0, the signature
    /// is good and someone's, and its key is trusted as far as it must be.
    pub fn is_valid(&self) -> bool
        ensures { IsTrue result ↔ IsValid self.now }
    {
        self.answer.succeeded
            && self.has_signer
            && self.status == Status::Good
            && self.minimum_trust.rank() <= self.trust.rank()
    }
}

/// Why nothing was verified.
#[derive(Debug, Clone, Copy, PartialEq, Eq, thiserror::Error)]
pub enum Error {
    /// No known armor begins the signature.
    #[error("the signature is of no known format")]
    UnsupportedFormat,
    /// The signature is of another format than the options.
    #[error("the signature is of another format")]
    FormatMismatch,
    /// A temporary file wasn't written.
    #[error("a temporary file failed")]
    TemporaryFile,
    /// The program wasn't started.
    #[error("the program that verifies wasn't started")]
    Spawn,
    /// The program's input wasn't written, or what it wrote wasn't read.
    #[error("the program that verifies didn't communicate")]
    Communicate,
    /// The object has a time of signing that the SSH program doesn't take.
    #[error("the time of signing can't be told")]
    CommitTime,
    /// No memory is left.
    #[error("out of memory")]
    Memory,
}

impl From<RunError> for Error {
    ghost from_gives = { λ cause error. error ≡ error_of cause };

    fn from(cause: RunError) -> Error {
        match cause {
            RunError::TemporaryFile => Error::TemporaryFile,
            RunError::Spawn => Error::Spawn,
            RunError::Communicate => Error::Communicate,
            RunError::Memory => Error::Memory,
        }
    }
}

impl From<AllocError> for Error {
    ghost from_gives = { λ _ error. error ≡ Memory };

    fn from(_: AllocError) -> Error {
        Error::Memory
    }
}

impl<'a> SignedData<'a> {
    /// Returns what a program reports about this signature of the bytes. The runner runs it once,
    /// or, for SSH, as often as Git does.
    ///
    /// Returns `UnsupportedFormat` if no known armor begins the signature, `FormatMismatch` if the
    /// options are of another format, and `CommitTime` if the SSH program doesn't take the time of
    /// signing; nothing is run then. Returns what the runner refuses if it does, and `Memory` if no
    /// memory is left for a copy of the bytes or for the words of a request. A signature that
    /// doesn't hold is no error: `Outcome::is_valid` is then false.
    ///
    /// The SSH program first looks up the principals that may have made the signature, and then
    /// tries each in turn until one did; if there are none, it checks whether this is a signature
    /// of the bytes at all. Each time it gets the time of signing, that of the committer or tagger
    /// in the bytes' own header lines, or no time if no line has one or it is zero seconds. Git
    /// gives local time; here it is coordinated universal time with a `Z` at the end.
    pub fn verify<F: FnMut(&[Word<'_>], &[u8]) -> Result<Answer, RunError>>(
        &self,
        alloc: Global,
        signature: &[u8],
        options: &Options<'_>,
        runner: &mut F,
    ) -> Result<Outcome, Error>
        requires { F.IsAlwaysCallable runner.old }
        ensures told { Verifies (Answers F.FnMut) runner.old
            (signed_bytes self.now) signature.now options.now result runner.new }
        ensures callable { F.IsAlwaysCallable runner.new }
    {
        let Some(format) = Format::from_signature(signature) else {
            return Err(Error::UnsupportedFormat);
        };
        if !options.takes(format) {
            return Err(Error::FormatMismatch);
        }
        let content = self.to_bstring(alloc)?;
        options.ask(alloc, signature, content.as_bytes(), runner)
    }
}
