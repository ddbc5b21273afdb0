//! What follows for commits that are signed.

ghost use Rattle.std.specs.Prelude.{◌≡◌, ◌∷◌, ◌++◌, ℕ, List, None};
ghost use Rattle.gix_object_commit.specs.Commit.{commit_text, field_text};
ghost use Rattle.gix_object_commit.specs.OwnedText.{own_field, own_parts, own_refusal};
ghost use Rattle.gix_object_commit.specs.Signing.{IsSignedBy, IsWithHeaders, signature_header, unsigned, unsigned_fault, unsigned_text};
ghost use Rattle.gix_object_commit.specs.declared.commit.owned.Commit.{Commit};

/// What is signed of a commit is what `write_to` writes of it without the headers of signatures.
/// Nothing is done: the contract is the law.
pub fn what_is_signed_is_written()
    ensures { (commit bare : Commit)
        → IsWithHeaders commit (unsigned commit.extra_headers.items) bare
        → commit_text (own_parts bare) ≡ unsigned_text commit }
{}

/// A commit that was signed is signed over the same text again, so the signature in it signs it
/// without its signature. Nothing is done: the contract is the law.
pub fn signed_over_the_same_text()
    ensures { (commit signed : Commit) (signature : List ℕ) → IsSignedBy signature commit signed
        → unsigned_text signed ≡ unsigned_text commit }
{}

/// What `write_to` writes of a commit that was signed is the text that was signed, with the header
/// of the signature put in after the other headers. Nothing is done: the contract is the law.
pub fn signature_is_put_into_the_signed_text()
    ensures { (commit signed : Commit) (signature : List ℕ) → IsSignedBy signature commit signed
        → (front : List ℕ)
        × (unsigned_text commit ≡ front ++ 10 ∷ commit.message)
        × (commit_text (own_parts signed)
        ≡ front
        ++ (field_text (own_field (signature_header commit signature)) ++ 10 ∷ commit.message)) }
{}

/// A commit that was signed isn't refused by `write_to`. Nothing is done: the contract is the law.
pub fn signed_commits_are_written()
    ensures { (commit signed : Commit) (signature : List ℕ) → unsigned_fault commit ≡ None
        → IsSignedBy signature commit signed → own_refusal signed ≡ None }
{}
