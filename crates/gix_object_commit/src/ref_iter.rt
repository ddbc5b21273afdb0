//! Reading commits token by token.

ghost use Rattle.std.specs.Prelude.{ℕ, List, ◌≡◌, length, codes, IfOk, IfErr, IsOkAnd};
ghost use Rattle.std.specs.Iterator.{at_most};
ghost use Rattle.std.specs.Option.{option_map};
ghost use Rattle.gix_hash.specs.Id.{Id, id_of};
ghost use Rattle.gix_hash.specs.Kind.{hex_len};
ghost use Rattle.gix_hash.specs.Views.{viewed_id};
ghost use Rattle.gix_hash.specs.declared.kind.Kind.{Kind};
ghost use Rattle.gix_object_lines.specs.HexLine.{HexLineFault};
ghost use Rattle.gix_object_commit.specs.Faults.{PersonFault};
ghost use Rattle.gix_object_commit.specs.TokenFaults.{FirstHeaderFault, FurtherHeaderFault, IsFaultAt};
ghost use Rattle.gix_object_commit.specs.Tokens.{Part, part_of, id_told, IsIdLine, IsPartAt, GivesToken, place_of, start, stage_after as after};
ghost use Rattle.gix_object_commit.specs.declared.ref_iter.Stage.TheVariants as stages;

mod reading_on;
mod signature;

use crate::encoding::read_encoding;
use crate::header::{HeaderRef, read_header};
use crate::person::read_person;
pub use crate::ref_iter::reading_on::{ParentIds, Signatures};
pub use crate::ref_iter::signature::CommitSignature;
use bstr::BStr;
use gix_hash::{Kind, ObjectId, oid};
use gix_object_lines::cut::{starts_with, strip_prefix};
use gix_object_lines::decode::Error;
use gix_object_lines::hex_line::{id_of_digits, read_hex_line};
use gix_object_lines::lines::ActorRef;

/// A part of a commit. Their order here is that in a commit.
#[derive(Debug, Clone, Copy, PartialEq, Eq)]
pub enum Token<'a> {
    /// The id of the tree.
    Tree(ObjectId),
    /// The id of a parent.
    Parent(ObjectId),
    /// Who made the change, and when.
    Author(ActorRef<'a>),
    /// Who committed it, and when.
    Committer(ActorRef<'a>),
    /// The name of the message's encoding.
    Encoding(BStr<'a>),
    /// A further header.
    ExtraHeader(HeaderRef<'a>),
    /// The message, up to the end.
    Message(BStr<'a>),
}

impl<'a> Token<'a> {
    /// The id, if it is a tree's or a parent's.
    pub fn id(&self) -> Option<oid<'_>>
        ensures { option_map viewed_id result ≡ id_told (part_of self.now) }
    {
        match self {
            Token::Tree(id) | Token::Parent(id) => Some(id.as_oid()),
            Token::Author(_) | Token::Committer(_) | Token::Encoding(_) => None,
            Token::ExtraHeader(_) | Token::Message(_) => None,
        }
    }

    /// The id, if it is a tree's or a parent's.
    pub fn try_into_id(self) -> Option<ObjectId>
        ensures { option_map id_of result ≡ id_told (part_of self.entry) }
    {
        match self {
            Token::Tree(id) | Token::Parent(id) => Some(id),
            Token::Author(_) | Token::Committer(_) | Token::Encoding(_) => None,
            Token::ExtraHeader(_) | Token::Message(_) => None,
        }
    }
}

// What may come next.
#[derive(Debug, Clone, Copy, PartialEq, Eq)]
pub(crate) enum Stage {
    Tree,
    Parents,
    Committer,
    Encoding,
    Headers,
}

/// A reader of a commit's parts, which takes no memory. It gives the parts in their order, then
/// nothing; if what comes next is no part, it gives one error and then nothing. So it has read a
/// whole commit if its last token is the message.
///
/// The error says what is wrong with the line that may come next: `FieldName` if that line doesn't
/// begin, `HexDigits` if fewer digits follow `tree ` or `parent ` than an id has, `InvalidActor` if
/// the line of author or committer isn't a name, an email and a time, `InvalidTime` if the time is
/// none, and `LineEnd` if the line lacks its line feed. A line that begins with `parent ` or
/// `encoding ` is read as that if it may come next.
#[derive(Debug, Clone, Copy)]
pub struct CommitRefIter<'a> {
    rest: &'a [u8],
    hash_kind: Kind,
    stage: Stage,
}

impl<'a> CommitRefIter<'a> {
    /// A reader of this commit, whose ids are of this hash function.
    pub fn from_bytes(input: &'a [u8], hash_kind: Kind) -> CommitRefIter<'a>
        ensures { place_of result ≡ start hash_kind input.now }
    {
        CommitRefIter {
            rest: input,
            hash_kind,
            stage: Stage::Tree,
        }
    }
}

impl<'a> Iterator for CommitRefIter<'a> {
    type Item = Result<Token<'a>, Error>;

    ghost next_gives = { λ before item after. GivesToken (place_of before) item (place_of after) };

    ghost remaining = { λ reader. at_most (length (place_of reader).input) };

    fn next(&mut self) -> Option<Result<Token<'a>, Error>> {
        let input = self.rest;
        if input.is_empty() {
            return None;
        }
        match read_token(self.stage, input, self.hash_kind) {
            Ok((token, rest)) => {
                self.stage = stage_after(token);
                self.rest = rest;
                Some(Ok(token))
            }
            Err(error) => {
                self.rest = &input[..0];
                Some(Err(error))
            }
        }
    }
}

// What may follow a token.
fn stage_after(token: Token<'_>) -> Stage
    ensures { result ≡ after (part_of token.entry) }
{
    match token {
        Token::Tree(_) | Token::Parent(_) => Stage::Parents,
        Token::Author(_) => Stage::Committer,
        Token::Committer(_) => Stage::Encoding,
        Token::Encoding(_) | Token::ExtraHeader(_) | Token::Message(_) => Stage::Headers,
    }
}

// The token that may come next and begins the input, and what follows it.
fn read_token<'a>(
    stage: Stage,
    input: &'a [u8],
    hash_kind: Kind,
) -> Result<(Token<'a>, &'a [u8]), Error>
    ensures read { IfOk result
        (λ read. IsPartAt hash_kind stage input.now (part_of read.0) read.1.now) }
    ensures every { (part : Part) (rest : List ℕ) → IsPartAt hash_kind stage input.now part rest
        → IsOkAnd result (λ read. (part_of read.0 ≡ part) × (read.1.now ≡ rest)) }
    ensures refused { IfErr result (λ error. IsFaultAt hash_kind stage input.now error) }
{
    match stage {
        Stage::Tree => read_tree(input, hash_kind),
        Stage::Parents => read_parent_or_author(input, hash_kind),
        Stage::Committer => read_committer(input),
        Stage::Encoding => read_first_header(input),
        Stage::Headers => read_further_header(input),
    }
}

fn read_tree(input: &[u8], hash_kind: Kind) -> Result<(Token<'_>, &[u8]), Error>
    ensures read { IfOk result
        (λ read. IsPartAt hash_kind stages.Tree input.now (part_of read.0) read.1.now) }
    ensures every { (part : Part) (rest : List ℕ)
        → IsPartAt hash_kind stages.Tree input.now part rest
        → IsOkAnd result (λ read. (part_of read.0 ≡ part) × (read.1.now ≡ rest)) }
    ensures refused { IfErr result (λ error. IsFaultAt hash_kind stages.Tree input.now error) }
{
    let (id, rest) = read_id(input, b"tree", hash_kind)?;
    Ok((Token::Tree(id), rest))
}

fn read_parent_or_author(input: &[u8], hash_kind: Kind) -> Result<(Token<'_>, &[u8]), Error>
    ensures read { IfOk result
        (λ read. IsPartAt hash_kind stages.Parents input.now (part_of read.0) read.1.now) }
    ensures every { (part : Part) (rest : List ℕ)
        → IsPartAt hash_kind stages.Parents input.now part rest
        → IsOkAnd result (λ read. (part_of read.0 ≡ part) × (read.1.now ≡ rest)) }
    ensures refused { IfErr result (λ error. IsFaultAt hash_kind stages.Parents input.now error) }
{
    if starts_with(input, b"parent ") {
        let (id, rest) = read_id(input, b"parent", hash_kind)?;
        Ok((Token::Parent(id), rest))
    } else {
        let (author, rest) = read_person(input, b"author")?;
        Ok((Token::Author(author), rest))
    }
}

fn read_committer(input: &[u8]) -> Result<(Token<'_>, &[u8]), Error>
    ensures read { (kind : Kind)
        → IfOk result
        (λ read. IsPartAt kind stages.Committer input.now (part_of read.0) read.1.now) }
    ensures every { (kind : Kind) (part : Part) (rest : List ℕ)
        → IsPartAt kind stages.Committer input.now part rest
        → IsOkAnd result (λ read. (part_of read.0 ≡ part) × (read.1.now ≡ rest)) }
    ensures refused { IfErr result (λ error. PersonFault (codes "committer") input.now error) }
{
    let (committer, rest) = read_person(input, b"committer")?;
    Ok((Token::Committer(committer), rest))
}

// An encoding, or what may come in its place.
fn read_first_header(input: &[u8]) -> Result<(Token<'_>, &[u8]), Error>
    ensures read { (kind : Kind)
        → IfOk result
        (λ read. IsPartAt kind stages.Encoding input.now (part_of read.0) read.1.now) }
    ensures every { (kind : Kind) (part : Part) (rest : List ℕ)
        → IsPartAt kind stages.Encoding input.now part rest
        → IsOkAnd result (λ read. (part_of read.0 ≡ part) × (read.1.now ≡ rest)) }
    ensures refused { IfErr result (λ error. FirstHeaderFault input.now error) }
{
    match read_encoding(input)? {
        (Some(name), rest) => Ok((Token::Encoding(name), rest)),
        (None, rest) => read_further_header(rest),
    }
}

// A header or the message.
fn read_further_header(input: &[u8]) -> Result<(Token<'_>, &[u8]), Error>
    ensures read { (kind : Kind)
        → IfOk result
        (λ read. IsPartAt kind stages.Headers input.now (part_of read.0) read.1.now) }
    ensures every { (kind : Kind) (part : Part) (rest : List ℕ)
        → IsPartAt kind stages.Headers input.now part rest
        → IsOkAnd result (λ read. (part_of read.0 ≡ part) × (read.1.now ≡ rest)) }
    ensures refused { IfErr result (λ error. FurtherHeaderFault input.now error) }
{
    if let Some(message) = strip_prefix(input, b"\n") {
        return Ok((
            Token::Message(BStr::new(message)),
            &message[message.len()..],
        ));
    }
    let (header, rest) = read_header(input)?;
    Ok((Token::ExtraHeader(header), rest))
}

// The id of a line of this word that begins the input, and what follows the line.
fn read_id<'a>(input: &'a [u8], word: &[u8], hash_kind: Kind) -> Result<(ObjectId, &'a [u8]), Error>
    ensures read { IfOk result
        (λ read. IsIdLine hash_kind word.now input.now (id_of read.0) read.1.now) }
    ensures every { (id : Id) (rest : List ℕ) → IsIdLine hash_kind word.now input.now id rest
        → IsOkAnd result (λ read. (id_of read.0 ≡ id) × (read.1.now ≡ rest)) }
    ensures refused { IfErr result
        (λ error. HexLineFault word.now (hex_len hash_kind) input.now error) }
{
    let (digits, rest) = read_hex_line(input, word, hash_kind.len_in_hex())?;
    Ok((id_of_digits(digits), rest))
}
