//! What a program reports in lines of status.

ghost use Rattle.std.specs.Prelude.{◌≡◌, None, Some, Option, fold, option_map};
ghost use Rattle.std.specs.List.{filter_map, list_any};
ghost use Rattle.gix_object_signature.specs.Status as spec;
ghost use Rattle.gix_object_signature.specs.Status.{is_strange, lines_of, or_error};
ghost use Rattle.gix_object_signature.specs.declared.verify.Status.TheVariants.{Error};

use crate::verify::{Status, TrustLevel};

/// What the lines report about the signature.
pub(crate) fn status_of(text: &[u8]) -> Status
    ensures { result ≡ spec.status_of text.now }
{
    if tells_strange_trust(text) {
        return Status::Error;
    }
    only_verdict(text).unwrap_or(Status::Unknown)
}

/// The last level of trust that the lines name.
pub(crate) fn trust_of(text: &[u8]) -> TrustLevel
    ensures { result ≡ spec.trust_of text.now }
{
    text.split(|byte| *byte == b'\n')
        .filter_map(|line| level_of(line))
        .fold(TrustLevel::Undefined, |_, level| level)
}

fn tells_strange_trust(text: &[u8]) -> bool
    ensures { result ≡ list_any is_strange (lines_of text.now) }
{
    text.split(|byte| *byte == b'\n')
        .any(|line| is_strange(line))
}

// The verdict of the lines; `Error` if they have several.
fn only_verdict(text: &[u8]) -> Option<Status>
    ensures { result
        ≡ fold (λ seen verdict. Some (or_error seen verdict)) None
        (filter_map spec.verdict_of (lines_of text.now)) }
{
    text.split(|byte| *byte == b'\n')
        .filter_map(|line| verdict_of(line))
        .fold(None, |seen, verdict| Some(or_error(seen, verdict)))
}

// A second verdict is an error.
fn or_error(seen: Option<Status>, verdict: Status) -> Status
    ensures { result ≡ or_error seen verdict }
{
    match seen {
        None => verdict,
        Some(_) => Status::Error,
    }
}

#[tactic(auto, unfolding(crate::specs::Status::verdict_of))]
fn verdict_of(line: &[u8]) -> Option<Status>
    ensures { result ≡ spec.verdict_of line.now }
{
    if line.starts_with(b"[GNUPG:] GOODSIG ") {
        Some(Status::Good)
    } else if line.starts_with(b"[GNUPG:] BADSIG ") {
        Some(Status::Bad)
    } else if line.starts_with(b"[GNUPG:] ERRSIG ") {
        Some(Status::Error)
    } else if line.starts_with(b"[GNUPG:] EXPSIG ") {
        Some(Status::Expired)
    } else if line.starts_with(b"[GNUPG:] EXPKEYSIG ") {
        Some(Status::ExpiredKey)
    } else if line.starts_with(b"[GNUPG:] REVKEYSIG ") {
        Some(Status::RevokedKey)
    } else {
        None
    }
}

// A line of trust whose word names no level.
fn is_strange(line: &[u8]) -> bool
    ensures { result ≡ spec.is_strange line.now }
{
    match trust_word(line) {
        Some(word) => level_named(word).is_none(),
        None => false,
    }
}

fn level_of(line: &[u8]) -> Option<TrustLevel>
    ensures { result ≡ spec.level_of line.now }
{
    match trust_word(line) {
        Some(word) => level_named(word),
        None => None,
    }
}

// The word of a line of trust, up to a space.
#[tactic(auto, unfolding(crate::specs::Status::trust_word))]
fn trust_word(line: &[u8]) -> Option<&[u8]>
    ensures { option_map (λ word. word.now) result ≡ spec.trust_word line.now }
{
    if !line.starts_with(b"[GNUPG:] TRUST_") {
        return None;
    }
    let rest = &line[15..];
    let end = rest
        .iter()
        .position(|byte| *byte == b' ')
        .unwrap_or(rest.len());
    Some(&rest[..end])
}

#[tactic(auto, unfolding(crate::specs::Status::level_named))]
fn level_named(word: &[u8]) -> Option<TrustLevel>
    ensures { result ≡ spec.level_named word.now }
{
    if word == b"UNDEFINED".as_slice() {
        Some(TrustLevel::Undefined)
    } else if word == b"NEVER".as_slice() {
        Some(TrustLevel::Never)
    } else if word == b"MARGINAL".as_slice() {
        Some(TrustLevel::Marginal)
    } else if word == b"FULLY".as_slice() {
        Some(TrustLevel::Fully)
    } else if word == b"ULTIMATE".as_slice() {
        Some(TrustLevel::Ultimate)
    } else {
        None
    }
}
