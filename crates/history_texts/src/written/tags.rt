//! Tags in written form: the lines of one, the commit that it names; and which names a repository may hold.
ghost use Rattle.std.specs.Prelude.{◌≡◌, ◌≢◌, ◌↔◌, ◌∷◌, ◌++◌, IfOk, IsTrue, List, MatchOption, map};
ghost use Rattle.std.specs.Str.{is_utf8};
ghost use Rattle.gix_object_lines.specs.Bytes.{Lacks};
ghost use Rattle.history_model.specs.Bytes.{Bytes};
ghost use Rattle.history_model.specs.Forms.{is_name, is_tag_name};
ghost use Rattle.history_texts.specs.Written.{AreLines, AreTagParts, NamesByTag, Naming, TagParts, naming_of, parts_of_tag, tag_lines};

use crate::actor::Actor;
use crate::id_text::parse_lower_hex;
use crate::written::{Named, title};
use gix_hash::Kind;
use gix_object_lines::Kind as ObjectKind;
use gix_object_lines::cut::{split_once, strip_prefix};
use gix_object_lines::lines::is_partial_name;
use history_model::limits::{MAX_NAME, MAX_TITLE};
use history_model::names::{REFS, TAGS};
use std::alloc::{AllocError, Global};

/// Returns the objects that a tag's content names; `None` if it isn't in written form.
pub(crate) fn named_by_tag(
    alloc: Global,
    digests: Kind,
    content: &[u8],
) -> Result<Option<Vec<Named>>, AllocError>
    ensures { IfOk result (λ found. MatchOption found
        ((named : List Naming) → NamesByTag digests content.now named → ⊥)
        (λ named. NamesByTag digests content.now (map naming_of named.items))) }
{
    let Some(texts) = TagTexts::new(content) else {
        return Ok(None);
    };
    let Some(id) = parse_lower_hex(digests, texts.target) else {
        return Ok(None);
    };
    if !texts.are_written(alloc)? {
        return Ok(None);
    }
    let mut named = Vec::new(alloc);
    named.push(Named {
        id,
        kind: ObjectKind::Commit,
    })?;
    Ok(Some(named))
}

// What is on the lines of a tag of a commit, and after them.
#[derive(Clone, Copy)]
pub(crate) struct TagTexts<'a> {
    target: &'a [u8],
    name: &'a [u8],
    pub(crate) tagger: &'a [u8],
    message: &'a [u8],
}

impl<'a> TagTexts<'a> {
    // Returns the texts of a content; `None` if it hasn't these lines.
    pub(crate) fn new(content: &'a [u8]) -> Option<TagTexts<'a>>
        ensures { MatchOption result
            ((parts : TagParts) → AreLines parts → content.now ≢ tag_lines parts)
            (λ texts. AreLines (parts_of_tag texts)
            × (content.now ≡ tag_lines (parts_of_tag texts))) }
    {
        let (target, rest) = line_behind(content, b"object ")?;
        let rest = strip_prefix(rest, b"type commit\n")?;
        let (name, rest) = line_behind(rest, b"tag ")?;
        let (tagger, rest) = line_behind(rest, b"tagger ")?;
        let message = strip_prefix(rest, b"\n")?;
        Some(TagTexts {
            target,
            name,
            tagger,
            message,
        })
    }

    // Returns whether name, tagger and message are those of a tag in written form.
    fn are_written(&self, alloc: Global) -> Result<bool, AllocError>
        ensures { IfOk result (λ are. IsTrue are ↔ AreTagParts (parts_of_tag self.now)) }
    {
        if self.message.is_empty() {
            return Ok(false);
        }
        if title(self.message).len() > MAX_TITLE {
            return Ok(false);
        }
        if Actor::parse(alloc, self.tagger)?.is_none() {
            return Ok(false);
        }
        is_tag_name(alloc, self.name)
    }
}

// Returns what follows the word on the line that it begins, and what follows that line.
pub(crate) fn line_behind<'a>(text: &'a [u8], word: &[u8]) -> Option<(&'a [u8], &'a [u8])>
    ensures { MatchOption result
        ((line rest : Bytes) → Lacks 10 line → text.now ≢ word.now ++ (line ++ 10 ∷ rest))
        (λ cut. Lacks 10 cut.0.now × (text.now ≡ word.now ++ (cut.0.now ++ 10 ∷ cut.1.now))) }
{
    split_once(strip_prefix(text, word)?, b'\n')
}

// Returns whether this may follow `refs/tags/` in a tag's name.
fn is_tag_name(alloc: Global, name: &[u8]) -> Result<bool, AllocError>
    ensures { IfOk result (λ is. is ≡ is_tag_name name.now) }
{
    if name == b"@".as_slice() {
        return Ok(false);
    }
    if name.starts_with(b"-") {
        return Ok(false);
    }
    let mut full = Vec::from_slice(alloc, TAGS)?;
    full.extend_from_slice(name)?;
    Ok(is_name(&full))
}

/// Returns whether a repository, or a single working tree, may hold the name: a full name below
/// `refs/`, in UTF-8, of at most 1,024 bytes.
pub fn is_name(name: &[u8]) -> bool
    ensures { result ≡ is_name name.now }
{
    if !is_partial_name(name) {
        return false;
    }
    if !name.starts_with(REFS) {
        return false;
    }
    if !is_utf8(name) {
        return false;
    }
    name.len() <= MAX_NAME
}

fn is_utf8(text: &[u8]) -> bool
    ensures { result ≡ is_utf8 text.now }
{
    str::from_utf8(text).is_ok()
}
