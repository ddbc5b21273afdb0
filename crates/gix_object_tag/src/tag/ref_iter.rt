//! Reading tags token by token.

ghost use Rattle.std.specs.Prelude.{ℕ, List, ◌≡◌, IfOk, IfErr, IsOkAnd, option_map};
ghost use Rattle.std.specs.Iterator.{at_most};
ghost use Rattle.gix_hash.specs.Id.{id_of};
ghost use Rattle.gix_object_tag.specs.TokenFaults.{IsFaultAt};
ghost use Rattle.gix_object_tag.specs.Tokens.{Part, part_of, id_told, IsPartAt, GivesToken, tokens_left};
ghost use Rattle.gix_object_tag.specs.Tokens.{place_of, start, stage_after as after};
ghost use Rattle.gix_object_tag.specs.declared.tag.ref_iter.Stage.TheVariants as stages;

mod reading_on;
mod signature;

use crate::tag::decode;
use bstr::BStr;
use gix_hash::ObjectId;
use gix_object_lines::Kind;
use gix_object_lines::decode::Error;
use gix_object_lines::hex_line::{id_of_digits, read_hex_line};
use gix_object_lines::lines::ActorRef;

/// A part of a tag.
#[derive(Debug, Clone, Copy, PartialEq, Eq)]
pub enum Token<'a> {
    /// The tagged object.
    Target {
        /// Its id.
        id: ObjectId,
    },
    /// The kind of the tagged object.
    TargetKind(Kind),
    /// The tag's name.
    Name(BStr<'a>),
    /// Who made the tag, and when; `None` if the tag doesn't say.
    Tagger(Option<ActorRef<'a>>),
    /// What ends the tag.
    Body {
        /// The message, without the line feed before a signature.
        message: BStr<'a>,
        /// The signature, from its armor on.
        pgp_signature: Option<BStr<'a>>,
    },
}

impl<'a> Token<'a> {
    /// The id, if it is the target's.
    pub fn id(&self) -> Option<ObjectId>
        ensures { option_map id_of result ≡ id_told (part_of self.now) }
    {
        match self {
            Token::Target { id } => Some(*id),
            Token::TargetKind(_) | Token::Name(_) => None,
            Token::Tagger(_) | Token::Body { .. } => None,
        }
    }

    /// The id, if it is the target's.
    pub fn into_id(self) -> Option<ObjectId>
        ensures { option_map id_of result ≡ id_told (part_of self.entry) }
    {
        self.id()
    }
}

// What may come next.
#[derive(Debug, Clone, Copy, PartialEq, Eq)]
pub(crate) enum Stage {
    Target,
    TargetKind,
    Name,
    Tagger,
    Body,
}

/// The tokens of a tag, in their order, read one by one from its bytes.
///
/// Each begins where the one before ended, and borrows from the bytes. The tokens end when the
/// bytes do, also in the middle of a tag; after an error nothing more is given. It takes no memory.
#[derive(Debug, Clone, Copy, Drop)]
pub struct TagRefIter<'a> {
    rest: &'a [u8],
    hash_kind: gix_hash::Kind,
    stage: Stage,
}

impl<'a> TagRefIter<'a> {
    /// The tokens of these bytes, in a repository of this kind of ids.
    pub fn from_bytes(input: &'a [u8], hash_kind: gix_hash::Kind) -> TagRefIter<'a>
        ensures { place_of result ≡ start hash_kind input.now }
    {
        TagRefIter {
            rest: input,
            hash_kind,
            stage: Stage::Target,
        }
    }
}

impl<'a> Iterator for TagRefIter<'a> {
    type Item = Result<Token<'a>, Error>;

    ghost next_gives = { λ before item after. GivesToken (place_of before) item (place_of after) };

    ghost remaining = { λ tokens. at_most (tokens_left (place_of tokens)) };

    fn next(&mut self) -> Option<Result<Token<'a>, Error>> {
        let input = self.rest;
        if input.is_empty() {
            return None;
        }
        match read_token(self.stage, input, self.hash_kind) {
            Ok((token, rest)) => {
                self.stage = stage_after(token);
                self.rest = rest;
                Some(Ok(token))
            }
            Err(error) => {
                self.stage = Stage::Body;
                self.rest = b"";
                Some(Err(error))
            }
        }
    }
}

// What may follow a token.
fn stage_after(token: Token<'_>) -> Stage
    ensures { result ≡ after (part_of token.entry) }
{
    match token {
        Token::Target { .. } => Stage::TargetKind,
        Token::TargetKind(_) => Stage::Name,
        Token::Name(_) => Stage::Tagger,
        Token::Tagger(_) | Token::Body { .. } => Stage::Body,
    }
}

// The token that may come next and begins the input, and what follows it.
fn read_token<'a>(
    stage: Stage,
    input: &'a [u8],
    hash_kind: gix_hash::Kind,
) -> Result<(Token<'a>, &'a [u8]), Error>
    ensures read { IfOk result
        (λ read. IsPartAt hash_kind stage input.now (part_of read.0) read.1.now) }
    ensures every { (part : Part) (rest : List ℕ) → IsPartAt hash_kind stage input.now part rest
        → IsOkAnd result (λ read. (part_of read.0 ≡ part) × (read.1.now ≡ rest)) }
    ensures refused { IfErr result (λ error. IsFaultAt hash_kind stage input.now error) }
{
    match stage {
        Stage::Target => read_target(input, hash_kind),
        Stage::TargetKind => read_target_kind(input, hash_kind),
        Stage::Name => read_name(input, hash_kind),
        Stage::Tagger => read_tagger(input, hash_kind),
        Stage::Body => read_body(input, hash_kind),
    }
}

fn read_target(input: &[u8], hash_kind: gix_hash::Kind) -> Result<(Token<'_>, &[u8]), Error>
    ensures read { IfOk result
        (λ read. IsPartAt hash_kind stages.Target input.now (part_of read.0) read.1.now) }
    ensures every { (part : Part) (rest : List ℕ)
        → IsPartAt hash_kind stages.Target input.now part rest
        → IsOkAnd result (λ read. (part_of read.0 ≡ part) × (read.1.now ≡ rest)) }
    ensures refused { IfErr result (λ error. IsFaultAt hash_kind stages.Target input.now error) }
{
    let (digits, rest) = read_hex_line(input, b"object", hash_kind.len_in_hex())?;
    let id = id_of_digits(digits);
    Ok((Token::Target { id }, rest))
}

fn read_target_kind(input: &[u8], _hash_kind: gix_hash::Kind) -> Result<(Token<'_>, &[u8]), Error>
    ensures read { IfOk result
        (λ read. IsPartAt _hash_kind stages.TargetKind input.now (part_of read.0) read.1.now) }
    ensures every { (part : Part) (rest : List ℕ)
        → IsPartAt _hash_kind stages.TargetKind input.now part rest
        → IsOkAnd result (λ read. (part_of read.0 ≡ part) × (read.1.now ≡ rest)) }
    ensures refused { IfErr result
        (λ error. IsFaultAt _hash_kind stages.TargetKind input.now error) }
{
    let (kind, rest) = decode::target_kind(input)?;
    Ok((Token::TargetKind(kind), rest))
}

fn read_name(input: &[u8], _hash_kind: gix_hash::Kind) -> Result<(Token<'_>, &[u8]), Error>
    ensures read { IfOk result
        (λ read. IsPartAt _hash_kind stages.Name input.now (part_of read.0) read.1.now) }
    ensures every { (part : Part) (rest : List ℕ)
        → IsPartAt _hash_kind stages.Name input.now part rest
        → IsOkAnd result (λ read. (part_of read.0 ≡ part) × (read.1.now ≡ rest)) }
    ensures refused { IfErr result (λ error. IsFaultAt _hash_kind stages.Name input.now error) }
{
    let (name, rest) = decode::name(input)?;
    Ok((Token::Name(BStr::new(name)), rest))
}

fn read_tagger(input: &[u8], _hash_kind: gix_hash::Kind) -> Result<(Token<'_>, &[u8]), Error>
    ensures read { IfOk result
        (λ read. IsPartAt _hash_kind stages.Tagger input.now (part_of read.0) read.1.now) }
    ensures every { (part : Part) (rest : List ℕ)
        → IsPartAt _hash_kind stages.Tagger input.now part rest
        → IsOkAnd result (λ read. (part_of read.0 ≡ part) × (read.1.now ≡ rest)) }
    ensures refused { IfErr result (λ error. IsFaultAt _hash_kind stages.Tagger input.now error) }
{
    let (tagger, rest) = decode::tagger(input)?;
    Ok((Token::Tagger(tagger), rest))
}

fn read_body(input: &[u8], _hash_kind: gix_hash::Kind) -> Result<(Token<'_>, &[u8]), Error>
    ensures read { IfOk result
        (λ read. IsPartAt _hash_kind stages.Body input.now (part_of read.0) read.1.now) }
    ensures every { (part : Part) (rest : List ℕ)
        → IsPartAt _hash_kind stages.Body input.now part rest
        → IsOkAnd result (λ read. (part_of read.0 ≡ part) × (read.1.now ≡ rest)) }
    ensures refused { IfErr result (λ error. IsFaultAt _hash_kind stages.Body input.now error) }
{
    let (message, pgp_signature) = decode::rest(input)?;
    let body = Token::Body {
        message,
        pgp_signature,
    };
    Ok((body, b""))
}
