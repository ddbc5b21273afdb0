//! Verdicts in ssh-keygen's output, after `parse_ssh_output` in git's gpg-interface.c.

ghost use Rattle.std.specs.Prelude.{◌≡◌, option_map};
ghost use Rattle.gix_object_signature.specs.SshVerdict as spec;

use crate::verify::{Status, TrustLevel};

/// The status, and how far the key is trusted.
#[derive(Clone, Copy)]
pub(crate) struct Verdict {
    pub status: Status,
    pub trust: TrustLevel,
}

/// What this output says: its first line that isn't blank alone counts.
pub(crate) fn verdict_of(output: &[u8]) -> Verdict
    ensures status { result.status ≡ spec.status_of output.now }
    ensures trust { result.trust ≡ spec.trust_of output.now }
{
    let line = verdict_line(output);
    if let Some(told) = behind_signer(line) {
        return Verdict {
            status: status_by(told),
            trust: TrustLevel::Fully,
        };
    }
    if let Some(told) = behind_no_signer(line) {
        return Verdict {
            status: status_by(told),
            trust: TrustLevel::Undefined,
        };
    }
    Verdict {
        status: Status::Bad,
        trust: TrustLevel::Never,
    }
}

// If each line is blank, it is empty.
fn verdict_line(output: &[u8]) -> &[u8]
    ensures { result.now ≡ spec.verdict_line output.now }
{
    match first_line(output) {
        Some(line) => line,
        None => b"",
    }
}

// The first line that isn't blank, without white space at its end.
fn first_line(output: &[u8]) -> Option<&[u8]>
    ensures { option_map (λ line. line.now) result ≡ spec.first_line output.now }
{
    output
        .split(|byte| *byte == b'\n')
        .map(|line| without_space_behind(line))
        .find(|line| !line.is_empty())
}

// White space is ASCII's, with form feeds, which are none to Git.
fn without_space_behind(line: &[u8]) -> &[u8]
    ensures { result.now ≡ spec.without_space_behind line.now }
{
    line.trim_ascii_end()
}

// What follows the signer's name, if one is named.
#[tactic(auto, unfolding(crate::specs::SshVerdict::behind_signer))]
fn behind_signer(line: &[u8]) -> Option<&[u8]>
    ensures { option_map (λ told. told.now) result ≡ spec.behind_signer line.now }
{
    let signer = behind(b"Good \"git\" signature for ", line)?;
    behind_last(b" with ", signer)
}

// The same, if no signer is named.
#[tactic(auto, unfolding(crate::specs::SshVerdict::behind_no_signer))]
fn behind_no_signer(line: &[u8]) -> Option<&[u8]>
    ensures { option_map (λ told. told.now) result ≡ spec.behind_no_signer line.now }
{
    behind(b"Good \"git\" signature with ", line)
}

// A signature is good only if its key is named.
#[tactic(auto, unfolding(crate::specs::SshVerdict::status_by))]
fn status_by(told: &[u8]) -> Status
    ensures { result ≡ spec.status_by told.now }
{
    if holds(b"key ", told) {
        Status::Good
    } else {
        Status::Bad
    }
}

// What follows the part, if the text begins with it.
#[tactic(auto, unfolding(crate::specs::SshVerdict::behind))]
fn behind<'a>(part: &[u8], text: &'a [u8]) -> Option<&'a [u8]>
    ensures { option_map (λ told. told.now) result ≡ spec.behind part.now text.now }
{
    if text.starts_with(part) {
        Some(&text[part.len()..])
    } else {
        None
    }
}

// What follows the last occurrence of the part in the text.
fn behind_last<'a>(part: &[u8], text: &'a [u8]) -> Option<&'a [u8]>
    ensures { option_map (λ told. told.now) result ≡ spec.behind_last part.now text.now }
{
    let mut last = None;
    let mut rest = text;
    'places: while let Some((_, after)) = rest.split_first() {
        last = behind(part, rest).or(last);
        rest = after;
    }
    last
}

// Returns whether the text contains the part.
fn holds(part: &[u8], text: &[u8]) -> bool
    ensures { result ≡ spec.holds part.now text.now }
{
    let mut rest = text;
    'places: while let Some((_, after)) = rest.split_first() {
        if rest.starts_with(part) {
            return true;
        }
        rest = after;
    }
    false
}
