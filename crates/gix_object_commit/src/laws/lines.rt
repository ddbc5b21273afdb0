//! What follows from the grammar.

ghost use Rattle.std.specs.Prelude.{◌≡◌};
ghost use Rattle.gix_hash.specs.Kind.{hex_len};
ghost use Rattle.gix_object_commit.specs.Commit.{Parts, SpellsCommit};

use gix_hash::Kind;

/// Bytes spell one commit at most. Nothing is done: the contract is the law.
pub fn one_commit(_input: &[u8], _hash_kind: Kind)
    ensures { (a b : Parts) → SpellsCommit (hex_len _hash_kind) _input.now a
        → SpellsCommit (hex_len _hash_kind) _input.now b → a ≡ b }
{}
