//! What ties the reader by token to the grammar.

ghost use Rattle.std.specs.Prelude.{◌≡◌, ◌↔◌, List, [], IsTrue};
ghost use Rattle.gix_hash.specs.Kind.{hex_len};
ghost use Rattle.gix_object_commit.specs.Commit.{Parts, SpellsCommit};
ghost use Rattle.gix_object_commit.specs.ReadingOn.{Reads};
ghost use Rattle.gix_object_commit.specs.Tokens.{Part, Place, part_of, start};
ghost use Rattle.gix_object_commit.specs.Whole.{IsCommit, ReadsToMessage, TellsParts, is_message as is_the_message};

pub mod first_header;

use crate::CommitRefIter;
use crate::ref_iter::Token;
use gix_hash::Kind;

/// The token reader gives its parts without an error, the message as the last, exactly if the bytes
/// spell a commit. Nothing is done: the contract is the law.
pub fn tokens_end_with_the_message(_input: &[u8], _hash_kind: Kind)
    ensures { IsCommit _hash_kind _input.now ↔ ReadsToMessage (start _hash_kind _input.now) }
{}

/// Returns whether the token reader gives no error, and the message as its last token: exactly if
/// the bytes spell a commit, and so exactly if `CommitRef::from_bytes` succeeds or fails for want
/// of memory.
pub fn tokens_tell_a_commit(input: &[u8], hash_kind: Kind) -> bool
    ensures { IsTrue result ↔ IsCommit hash_kind input.now }
{
    let mut tokens = CommitRefIter::from_bytes(input, hash_kind);
    let mut whole = false;
    'tokens: while let Some(token) = tokens.next() {
        match token {
            Ok(token) => whole = is_message(token),
            Err(_) => return false,
        }
    }
    whole
}

/// The tokens of a commit are its parts, each once and in their order: the reader gives them up to
/// the input's end, and no others. Nothing is done: the contract is the law.
pub fn tokens_are_the_parts(_input: &[u8], _hash_kind: Kind)
    ensures given { (parts : Parts) → SpellsCommit (hex_len _hash_kind) _input.now parts
        → (tokens : List Part) × (there : Place)
        × Reads (start _hash_kind _input.now) tokens there × (there.input ≡ [])
        × TellsParts parts tokens }
    ensures only { (parts : Parts) (tokens : List Part) (there : Place)
        → SpellsCommit (hex_len _hash_kind) _input.now parts
        → Reads (start _hash_kind _input.now) tokens there → there.input ≡ []
        → TellsParts parts tokens }
{}

fn is_message(token: Token<'_>) -> bool
    ensures { result ≡ is_the_message (part_of token.entry) }
{
    matches!(token, Token::Message(_))
}
