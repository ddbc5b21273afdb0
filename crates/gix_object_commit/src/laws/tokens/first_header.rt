//! What follows for the signatures of whole commits.

ghost use Rattle.std.specs.Prelude.{List, ◌≡◌, ◌≢◌, ◌++◌, ◌∷◌, All, None, Some};
ghost use Rattle.gix_hash.specs.Kind.{hex_len};
ghost use Rattle.gix_object_commit.specs.Commit.{Field, Parts, SpellsCommit, commit_text};
ghost use Rattle.gix_object_commit.specs.Signature.{signature_name};
ghost use Rattle.gix_object_commit.specs.SignedCommit.{Cut, FindsSignature, with_headers};

use gix_hash::Kind;

/// The signature of a commit that is read whole is its first header of the name that
/// `signature_field_name` gives, and what it signs is the text of the commit's parts without that
/// header; there is none if no header has the name. So `CommitRefIter::signature` and the headers
/// of `CommitRef` give the same signature. Nothing is done: the contract is the law.
pub fn signature_is_the_first_header(_input: &[u8], _hash_kind: Kind)
    ensures signed { (parts : Parts) (first more : List Field) (header : Field)
        → SpellsCommit (hex_len _hash_kind) _input.now parts
        → parts.headers ≡ first ++ header ∷ more
        → All (λ field. field.name ≢ signature_name _hash_kind) first
        → header.name ≡ signature_name _hash_kind
        → (cut : Cut) × FindsSignature _hash_kind _input.now (Some cut) × (cut.header ≡ header)
        × (cut.before ++ cut.behind ≡ commit_text (with_headers parts (first ++ more))) }
    ensures unsigned { (parts : Parts) → SpellsCommit (hex_len _hash_kind) _input.now parts
        → All (λ field. field.name ≢ signature_name _hash_kind) parts.headers
        → FindsSignature _hash_kind _input.now None }
{}
