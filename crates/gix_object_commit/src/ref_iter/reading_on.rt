//! What the tokens to come hold.

ghost use Rattle.std.specs.Prelude.{ℕ, List, ◌≡◌, IfOk, IfErr, IsOkAnd, length};
ghost use Rattle.std.specs.Iterator.{at_most};
ghost use Rattle.std.specs.Option.{option_map};
ghost use Rattle.bstr.specs.BStr.{bstr_bytes};
ghost use Rattle.gix_hash.specs.Id.{id_of};
ghost use Rattle.gix_object_lines.specs.Person.{Person, person_of};
ghost use Rattle.gix_object_commit.specs.ReadingOn.{TakesTree, TellsFirst, TellsNone, GivesTold, ids_place, signatures_place, parent_told, author_told, committer_told, actor_told, message_told};
ghost use Rattle.gix_object_commit.specs.Tokens.{place_of};

use crate::ref_iter::{CommitRefIter, Token};
use bstr::BStr;
use gix_hash::ObjectId;
use gix_object_lines::decode::Error;
use gix_object_lines::lines::ActorRef;

impl<'a> CommitRefIter<'a> {
    /// The tree's id, from the token that comes next, which is taken. Returns `FieldName` if
    /// another token comes next or none does, and otherwise that token's error.
    pub fn tree_id(&mut self) -> Result<ObjectId, Error>
        ensures { TakesTree (place_of self.old) result (place_of self.new) }
    {
        match self.next().ok_or(Error::FieldName)?? {
            Token::Tree(id) => Ok(id),
            _ => Err(Error::FieldName),
        }
    }

    /// Who made the change, and when, from the tokens to come. Returns `FieldName` if the input
    /// ends before, and otherwise the error of the first token that has one.
    pub fn author(self) -> Result<ActorRef<'a>, Error>
        ensures read { IfOk result
            (λ author. TellsFirst author_told (place_of self.entry) (person_of author)) }
        ensures every { (told : Person) → TellsFirst author_told (place_of self.entry) told
            → IsOkAnd result (λ author. person_of author ≡ told) }
        ensures refused { IfErr result
            (λ error. TellsNone author_told (place_of self.entry) error) }
    {
        'tokens: for token in self {
            if let Token::Author(author) = token? {
                return Ok(author);
            }
        }
        Err(Error::FieldName)
    }

    /// Who committed it, and when, from the tokens to come. Returns `FieldName` if the input ends
    /// before, and otherwise the error of the first token that has one.
    pub fn committer(self) -> Result<ActorRef<'a>, Error>
        ensures read { IfOk result
            (λ committer. TellsFirst committer_told (place_of self.entry) (person_of committer)) }
        ensures every { (told : Person) → TellsFirst committer_told (place_of self.entry) told
            → IsOkAnd result (λ committer. person_of committer ≡ told) }
        ensures refused { IfErr result
            (λ error. TellsNone committer_told (place_of self.entry) error) }
    {
        'tokens: for token in self {
            if let Token::Committer(committer) = token? {
                return Ok(committer);
            }
        }
        Err(Error::FieldName)
    }

    /// The message, from the tokens to come. Returns `FieldName` if the input ends before, and
    /// otherwise the error of the first token that has one.
    pub fn message(self) -> Result<BStr<'a>, Error>
        ensures read { IfOk result
            (λ message. TellsFirst message_told (place_of self.entry) (bstr_bytes message)) }
        ensures every { (told : List ℕ) → TellsFirst message_told (place_of self.entry) told
            → IsOkAnd result (λ message. bstr_bytes message ≡ told) }
        ensures refused { IfErr result
            (λ error. TellsNone message_told (place_of self.entry) error) }
    {
        'tokens: for token in self {
            if let Token::Message(message) = token? {
                return Ok(message);
            }
        }
        Err(Error::FieldName)
    }

    /// The ids of the parents, from the tokens to come.
    pub fn parent_ids(self) -> ParentIds<'a>
        ensures { ids_place result ≡ place_of self.entry }
    {
        ParentIds { tokens: self }
    }

    /// The author and the committer, from the tokens to come.
    pub fn signatures(self) -> Signatures<'a>
        ensures { signatures_place result ≡ place_of self.entry }
    {
        Signatures { tokens: self }
    }
}

/// The ids of a commit's parents, in their order. They end before the first token that is no
/// parent, and at an error, which isn't reported.
#[derive(Debug, Clone, Copy)]
pub struct ParentIds<'a> {
    tokens: CommitRefIter<'a>,
}

impl<'a> Iterator for ParentIds<'a> {
    type Item = ObjectId;

    ghost next_gives = { λ before item after. GivesTold parent_told (ids_place before)
        (option_map id_of item) (ids_place after) };

    ghost remaining = { λ ids. at_most (length (ids_place ids).input) };

    fn next(&mut self) -> Option<ObjectId> {
        'tokens: loop {
            match self.tokens.next()?.ok()? {
                Token::Tree(_) => {}
                Token::Parent(id) => return Some(id),
                _ => return None,
            }
        }
    }
}

/// The author and the committer of a commit, in this order. They end after the committer, and at an
/// error, which isn't reported.
#[derive(Debug, Clone, Copy)]
pub struct Signatures<'a> {
    tokens: CommitRefIter<'a>,
}

impl<'a> Iterator for Signatures<'a> {
    type Item = ActorRef<'a>;

    ghost next_gives = { λ before item after. GivesTold actor_told (signatures_place before)
        (option_map person_of item) (signatures_place after) };

    ghost remaining = { λ signatures. at_most (length (signatures_place signatures).input) };

    fn next(&mut self) -> Option<ActorRef<'a>> {
        'tokens: loop {
            match self.tokens.next()?.ok()? {
                Token::Tree(_) | Token::Parent(_) => {}
                Token::Author(author) => return Some(author),
                Token::Committer(committer) => return Some(committer),
                _ => return None,
            }
        }
    }
}
