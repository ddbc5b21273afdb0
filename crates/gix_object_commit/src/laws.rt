//! What follows for commits that are read and written.

ghost use Rattle.std.specs.Prelude.{◌≡◌, None, IsTrue, length};
ghost use Rattle.std.specs.List.{list_all};
ghost use Rattle.gix_hash.specs.Kind.{hex_len};
ghost use Rattle.gix_object_lines.specs.HexLine.{is_id};
ghost use Rattle.gix_object_commit.specs.Commit.{Parts, SpellsCommit, commit_text};
ghost use Rattle.gix_object_commit.specs.Writable.{IsWritable};
ghost use Rattle.gix_object_commit.specs.Writing.{commit_refusal};

mod lines;
pub mod owned;
pub mod signing;
pub mod tokens;

use gix_hash::Kind;
pub use lines::one_commit;

/// What is written of parts of which none is refused spells these parts; so it is read back to
/// them. Nothing is done: the contract is the law.
pub fn written_is_read()
    ensures { (parts : Parts) → commit_refusal parts ≡ None
        → SpellsCommit (length parts.tree) (commit_text parts) parts }
{}

/// The ids of a commit that was read are ids' digits, as `CommitRef::tree` and `CommitRef::parents`
/// require. Nothing is done: the contract is the law.
pub fn ids_read_are_ids(_input: &[u8], _hash_kind: Kind)
    ensures tree { (parts : Parts) → SpellsCommit (hex_len _hash_kind) _input.now parts
        → IsTrue (is_id parts.tree) }
    ensures parents { (parts : Parts) → SpellsCommit (hex_len _hash_kind) _input.now parts
        → IsTrue (list_all is_id parts.parents) }
{}

/// A commit that was read is written without a refusal, unless a name or an email holds `<` or `>`,
/// or its encoding has no name; what is written are the bytes that it was read from, since they
/// spell it. Nothing is done: the contract is the law.
pub fn read_is_written(_input: &[u8], _hash_kind: Kind)
    ensures accepted { (parts : Parts) → SpellsCommit (hex_len _hash_kind) _input.now parts
        → IsWritable parts → commit_refusal parts ≡ None }
    ensures bytes { (parts : Parts) → SpellsCommit (hex_len _hash_kind) _input.now parts
        → commit_text parts ≡ _input.now }
{}
