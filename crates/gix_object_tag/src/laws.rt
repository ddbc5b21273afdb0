//! What follows from the grammar, and what ties the two readers.

ghost use Rattle.std.specs.Prelude.{ℕ, List, Option, ◌≡◌, ◌≢◌, ◌↔◌, [], None, IsTrue, length};
ghost use Rattle.gix_hash.specs.Kind.{hex_len};
ghost use Rattle.gix_object_lines.specs.HexLine.{is_id};
ghost use Rattle.gix_object_lines.specs.PartialName.{IsPartialName};
ghost use Rattle.gix_object_lines.specs.Writes.{cause_of};
ghost use Rattle.gix_object_tag.specs.BodyTest.{is_whole_body};
ghost use Rattle.gix_object_tag.specs.Format.{IsInFormat, IsWholeBody};
ghost use Rattle.gix_object_lines.specs.NameTest.{is_partial_name as is_partial};
ghost use Rattle.gix_object_tag.specs.Tag.{Parts, SpellsTag};
ghost use Rattle.gix_object_tag.specs.TagText.{tag_text, tag_refusal, is_bad_tagger};
ghost use Rattle.gix_object_tag.specs.ReadingOn.{Reads};
ghost use Rattle.gix_object_tag.specs.Tokens.{Part, Place, part_of, start};
ghost use Rattle.gix_object_tag.specs.Whole.{IsTag, ReadsWithName, TellsParts, tells_name};
ghost use Rattle.gix_object_tag.specs.Writable.{IsWritable};

pub mod owned;
pub mod signing;

use crate::tag::ref_iter::Token;
use crate::{TagRef, TagRefIter};

/// Bytes spell one tag at most.
pub fn one_tag(input: &[u8], hash_kind: gix_hash::Kind)
    ensures { (a b : Parts) → SpellsTag hash_kind input.now a → SpellsTag hash_kind input.now b
        → a ≡ b }
{
    let _tag = TagRef::from_bytes(input, hash_kind);
}

/// The test of names is git-check-ref-format's rules. Nothing is done: the contract is the law.
pub fn test_is_the_rules(name: &[u8])
    ensures { IsTrue (is_partial name.now) ↔ IsPartialName name.now }
{}

/// The test of bodies is the format's rule. Nothing is done: the contract is the law.
pub fn body_test_is_the_rule()
    ensures { (message : List ℕ) (signature : Option (List ℕ))
        → IsTrue (is_whole_body message signature) ↔ IsWholeBody message signature }
{}

/// What is written of parts of which none is refused spells these parts, in a repository whose ids
/// have as many digits as their target; so it is read back to them. Nothing is done: the contract
/// is the law.
pub fn written_is_read(_hash_kind: gix_hash::Kind)
    ensures { (parts : Parts) → cause_of (tag_refusal parts (is_bad_tagger parts.tagger)) ≡ None
        → length parts.target ≡ hex_len _hash_kind → SpellsTag _hash_kind (tag_text parts) parts }
{}

/// The target of a tag that was read is an id's digits, as `TagRef::target` requires. Nothing is
/// done: the contract is the law.
pub fn ids_read_are_ids(_input: &[u8], _hash_kind: gix_hash::Kind)
    ensures { (parts : Parts) → SpellsTag _hash_kind _input.now parts
        → IsTrue (is_id parts.target) }
{}

/// A tag that was read is written without a refusal, unless its name is none that Git makes, or its
/// tagger's name or email holds `<` or `>`. What is written are the bytes that it was read from,
/// unless its message is empty: such a tag may end after its lines, or have a line feed more before
/// its signature. Nothing is done: the contract is the law.
pub fn read_is_written(_input: &[u8], _hash_kind: gix_hash::Kind)
    ensures accepted { (parts : Parts) → SpellsTag _hash_kind _input.now parts → IsWritable parts
        → tag_refusal parts (is_bad_tagger parts.tagger) ≡ None }
    ensures bytes { (parts : Parts) → SpellsTag _hash_kind _input.now parts → parts.message ≢ []
        → tag_text parts ≡ _input.now }
{}

/// A tag that was read is in the format: its target is an id's digits, its tagger has a time, and
/// its message holds no armor or its signature has its only armor at its start. Nothing is done:
/// the contract is the law.
pub fn read_is_in_format(_input: &[u8], _hash_kind: gix_hash::Kind)
    ensures { (parts : Parts) → SpellsTag _hash_kind _input.now parts
        → IsInFormat _hash_kind parts }
{}

/// Returns whether the token reader gives its tokens to the end of the bytes without an error, and
/// the name among them: exactly if the bytes spell a tag, and so exactly if `TagRef::from_bytes`
/// succeeds.
pub fn tokens_tell_a_tag(input: &[u8], hash_kind: gix_hash::Kind) -> bool
    ensures reader { IsTag hash_kind input.now ↔ ReadsWithName (start hash_kind input.now) }
    ensures answer { IsTrue result ↔ IsTag hash_kind input.now }
{
    let mut tokens = TagRefIter::from_bytes(input, hash_kind);
    let mut named = false;
    'tokens: while let Some(token) = tokens.next() {
        match token {
            Ok(token) => named = named || is_name(token),
            Err(_) => return false,
        }
    }
    named
}

/// The tokens of a tag are its parts, each once and in their order. That of the body isn't given if
/// the bytes end after the lines, nor that of the tagger if they end after the name.
pub fn tokens_are_the_parts(input: &[u8], hash_kind: gix_hash::Kind)
    ensures { (parts : Parts) (tokens : List Part) (there : Place)
        → SpellsTag hash_kind input.now parts
        → Reads (start hash_kind input.now) tokens there → there.input ≡ []
        → TellsParts parts tokens }
{
    one_tag(input, hash_kind);
}

fn is_name(token: Token<'_>) -> bool
    ensures { result ≡ tells_name (part_of token.entry) }
{
    matches!(token, Token::Name(_))
}
