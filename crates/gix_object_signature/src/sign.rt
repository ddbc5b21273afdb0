//! Signing, after git's gpg-interface.c.

ghost use Rattle.std.specs.Prelude.{◌≡◌, [], ◌∷◌, codes, IfOk, option_map};
ghost use Rattle.bstr.specs.BStr.{bstr_bytes};
ghost use Rattle.gix_object_signature.specs.declared.sign.Error.TheVariants.{Memory};
ghost use Rattle.gix_object_signature.specs.Run.{Answers, Plain, File};
ghost use Rattle.gix_object_signature.specs.Signing as spec;
ghost use Rattle.gix_object_signature.specs.Signing.{IsOrMemory, Signs, gpg_request, request_for, ssh_request, ssh_request_by, error_of, is_confirmed, key_of, literal_key, reading_error, text_of};

use crate::Format;
use crate::returns::drop_returns;
use crate::run::{Answer, RunError, Word, run};
use bstr::BStr;
use gix_object_lines::{ByteString, decode, write};
use std::alloc::{AllocError, Global};
use thiserror::Error;

/// What Git's configuration says about signing.
#[derive(Debug, Clone, Copy, PartialEq, Eq)]
pub struct Options<'a> {
    /// The format of the signature (`gpg.format`).
    pub format: Format,
    /// The program that signs (`gpg.program`, `gpg.x509.program`, `gpg.ssh.program`).
    pub program: BStr<'a>,
    /// The key that signs (`user.signingKey`): for OpenPGP and X.509 the id of a user or a key (Git
    /// takes the committer if there is none); for SSH the path of a file, or the public key itself
    /// if `is_literal_ssh_key` finds one.
    pub signing_key: Option<BStr<'a>>,
}

/// Why nothing was signed.
#[derive(Debug, Drop, Error)]
pub enum Error {
    /// The object to sign was no object.
    #[error(transparent)]
    Decode(decode::Error),
    /// The object to sign can't be written.
    #[error(transparent)]
    Encode(write::Error),
    /// No key is given.
    #[error("no key to sign with is told")]
    MissingSigningKey,
    /// A temporary file wasn't written, or not read again.
    #[error("a temporary file failed")]
    TemporaryFile,
    /// The program wasn't started.
    #[error("the program that signs wasn't started")]
    Spawn,
    /// The program's input wasn't written, or what it wrote wasn't read.
    #[error("the program that signs didn't communicate")]
    Communicate,
    /// The program's status wasn't 0.
    #[error("the program that signs failed")]
    Failed,
    /// The program didn't report that it made a signature.
    #[error("the program didn't confirm the signature")]
    MissingSignatureConfirmation,
    /// The SSH program wrote no signature.
    #[error("the program wrote no signature")]
    MissingSshSignature,
    /// No memory is left.
    #[error("out of memory")]
    Memory,
}

impl From<RunError> for Error {
    ghost from_gives = { λ cause error. error ≡ error_of cause };

    fn from(cause: RunError) -> Error {
        match cause {
            RunError::TemporaryFile => Error::TemporaryFile,
            RunError::Spawn => Error::Spawn,
            RunError::Communicate => Error::Communicate,
            RunError::Memory => Error::Memory,
        }
    }
}

impl From<decode::Error> for Error {
    ghost from_gives = { λ cause error. error ≡ reading_error cause };

    fn from(cause: decode::Error) -> Error {
        match cause {
            decode::Error::Memory => Error::Memory,
            fault => Error::Decode(fault),
        }
    }
}

impl From<AllocError> for Error {
    ghost from_gives = { λ _ error. error ≡ Memory };

    fn from(_: AllocError) -> Error {
        Error::Memory
    }
}

/// The public key that is given in place of a file: all after `key::`, or the whole if it begins
/// `ssh-`.
pub fn is_literal_ssh_key(key: &[u8]) -> Option<&[u8]>
    ensures { option_map (λ literal. literal.now) result ≡ literal_key key.now }
{
    if key.starts_with(b"key::") {
        Some(&key[5..])
    } else if key.starts_with(b"ssh-") {
        Some(key)
    } else {
        None
    }
}

/// Returns the signature of the content, made by a program that the runner runs once.
///
/// Returns `MissingSigningKey` if no key is given, and then runs nothing; what the runner refuses
/// if it does; `Failed` if the program failed; `MissingSignatureConfirmation` if it is one of
/// OpenPGP or X.509 and no line of its errors begins with `[GNUPG:] SIG_CREATED `;
/// `MissingSshSignature` if that of SSH wrote no signature; and `Memory` if no memory is left for
/// the signature's copy. A carriage return before a line feed is dropped from the signature.
pub fn sign<F: FnMut(&[Word<'_>], &[u8]) -> Result<Answer, RunError>>(
    alloc: Global,
    content: &[u8],
    options: &Options<'_>,
    runner: &mut F,
) -> Result<ByteString, Error>
    requires { F.IsAlwaysCallable runner.old }
    ensures signed { Signs (Answers F.FnMut) runner.old content.now options.now result runner.new }
    ensures callable { F.IsAlwaysCallable runner.new }
{
    let Some(key) = key_of(options) else {
        return Err(Error::MissingSigningKey);
    };
    let answer = run_for(content, options, key, runner);
    signature_of(alloc, options.format, answer)
}

// The key that signs; an empty one is none for SSH.
fn key_of<'a>(options: &Options<'a>) -> Option<BStr<'a>>
    ensures { text_of result ≡ key_of options.now }
{
    match (options.format, options.signing_key) {
        (Format::Ssh, Some(key)) if key.as_bytes().is_empty() => None,
        (_, key) => key,
    }
}

// The run of the format's program.
fn run_for<'a, F: FnMut(&[Word<'_>], &[u8]) -> Result<Answer, RunError>>(
    content: &'a [u8],
    options: &Options<'a>,
    key: BStr<'a>,
    runner: &mut F,
) -> Result<Answer, RunError>
    requires { F.IsAlwaysCallable runner.old }
    ensures asked { Answers F.FnMut runner.old
        (request_for options.now.format (bstr_bytes options.now.program)
        (bstr_bytes key.entry) content.now) result runner.new }
    ensures callable { F.IsAlwaysCallable runner.new }
{
    match options.format {
        Format::OpenPgp | Format::X509 => run_gpg(content, options.program, key, runner),
        Format::Ssh => run_ssh(content, options.program, key, runner),
    }
}

// What the answer means.
fn signature_of(
    alloc: Global,
    format: Format,
    answer: Result<Answer, RunError>,
) -> Result<ByteString, Error>
    ensures { IsOrMemory (spec.signature_of format answer) result }
{
    let answer = answer?;
    match format {
        Format::OpenPgp | Format::X509 => gpg_signature(alloc, &answer),
        Format::Ssh => ssh_signature(alloc, &answer),
    }
}

fn gpg_signature(alloc: Global, answer: &Answer) -> Result<ByteString, Error>
    ensures { IsOrMemory (spec.gpg_signature answer.now) result }
{
    if !answer.succeeded {
        return Err(Error::Failed);
    }
    if !tells_signature(answer.errors.as_bytes()) {
        return Err(Error::MissingSignatureConfirmation);
    }
    Ok(drop_returns(alloc, answer.output.as_bytes())?)
}

fn ssh_signature(alloc: Global, answer: &Answer) -> Result<ByteString, Error>
    ensures { IsOrMemory (spec.ssh_signature answer.now) result }
{
    if !answer.succeeded {
        return Err(Error::Failed);
    }
    if answer.output.as_bytes().is_empty() {
        return Err(Error::MissingSshSignature);
    }
    Ok(drop_returns(alloc, answer.output.as_bytes())?)
}

fn run_gpg<'a, F: FnMut(&[Word<'_>], &[u8]) -> Result<Answer, RunError>>(
    content: &'a [u8],
    program: BStr<'a>,
    key: BStr<'a>,
    runner: &mut F,
) -> Result<Answer, RunError>
    requires { F.IsAlwaysCallable runner.old }
    ensures asked { Answers F.FnMut runner.old
        (gpg_request (bstr_bytes program.entry)
        (bstr_bytes key.entry) content.now) result runner.new }
    ensures callable { F.IsAlwaysCallable runner.new }
{
    let words = [
        Word::Text(program),
        Word::Text(BStr::new(b"--status-fd=2")),
        Word::Text(BStr::new(b"-bsau")),
        Word::Text(key),
    ];
    run(&words, content, runner)
}

fn run_ssh<'a, F: FnMut(&[Word<'_>], &[u8]) -> Result<Answer, RunError>>(
    content: &'a [u8],
    program: BStr<'a>,
    key: BStr<'a>,
    runner: &mut F,
) -> Result<Answer, RunError>
    requires { F.IsAlwaysCallable runner.old }
    ensures asked { Answers F.FnMut runner.old
        (ssh_request (bstr_bytes program.entry)
        (bstr_bytes key.entry) content.now) result runner.new }
    ensures callable { F.IsAlwaysCallable runner.new }
{
    match is_literal_ssh_key(key.as_bytes()) {
        Some(literal) => run_with_literal(content, program, BStr::new(literal), runner),
        None => run_with_file(content, program, key, runner),
    }
}

// The run for a key that is given itself.
fn run_with_literal<'a, F: FnMut(&[Word<'_>], &[u8]) -> Result<Answer, RunError>>(
    content: &'a [u8],
    program: BStr<'a>,
    literal: BStr<'a>,
    runner: &mut F,
) -> Result<Answer, RunError>
    requires { F.IsAlwaysCallable runner.old }
    ensures asked { Answers F.FnMut runner.old
        (ssh_request_by (File (bstr_bytes literal.entry) ∷ Plain (codes "-U") ∷ [])
        (bstr_bytes program.entry) content.now) result runner.new }
    ensures callable { F.IsAlwaysCallable runner.new }
{
    let words = [
        Word::Text(program),
        Word::Text(BStr::new(b"-Y")),
        Word::Text(BStr::new(b"sign")),
        Word::Text(BStr::new(b"-n")),
        Word::Text(BStr::new(b"git")),
        Word::Text(BStr::new(b"-f")),
        Word::FileWith(literal),
        Word::Text(BStr::new(b"-U")),
        Word::FileToSign(BStr::new(content)),
    ];
    run(&words, b"", runner)
}

// The run for a key whose file is given.
fn run_with_file<'a, F: FnMut(&[Word<'_>], &[u8]) -> Result<Answer, RunError>>(
    content: &'a [u8],
    program: BStr<'a>,
    file: BStr<'a>,
    runner: &mut F,
) -> Result<Answer, RunError>
    requires { F.IsAlwaysCallable runner.old }
    ensures asked { Answers F.FnMut runner.old
        (ssh_request_by (Plain (bstr_bytes file.entry) ∷ [])
        (bstr_bytes program.entry) content.now) result runner.new }
    ensures callable { F.IsAlwaysCallable runner.new }
{
    let words = [
        Word::Text(program),
        Word::Text(BStr::new(b"-Y")),
        Word::Text(BStr::new(b"sign")),
        Word::Text(BStr::new(b"-n")),
        Word::Text(BStr::new(b"git")),
        Word::Text(BStr::new(b"-f")),
        Word::Text(file),
        Word::FileToSign(BStr::new(content)),
    ];
    run(&words, b"", runner)
}

// Returns whether a line of the status reports that a signature was made.
fn tells_signature(status: &[u8]) -> bool
    ensures { result ≡ is_confirmed status.now }
{
    status
        .split(|byte| *byte == b'\n')
        .any(|line| line.starts_with(b"[GNUPG:] SIG_CREATED "))
}
