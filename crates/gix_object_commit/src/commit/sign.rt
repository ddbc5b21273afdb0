//! Signing commits.

ghost use Rattle.std.specs.Prelude.{◌≡◌, ◌⊎◌, None, Some, Ok, Err, [], ◌∷◌, ◌++◌, IfOk, IfErr, OnOk, OnErr};
ghost use Rattle.gix_object_lines.specs.Bytes.{without_last_feed};
ghost use Rattle.gix_object_lines.specs.declared.write.Error as write;
ghost use Rattle.gix_object_signature.specs.Run.{Answers};
ghost use Rattle.gix_object_signature.specs.Signing.{Signs};
ghost use Rattle.gix_object_signature.specs.declared.sign.Error.TheVariants.{Encode, Memory};
ghost use Rattle.gix_object_commit.specs.Signature.{signature_name};
ghost use Rattle.gix_object_commit.specs.Signing as spec;
ghost use Rattle.gix_object_commit.specs.Signing.{IsAsBefore, IsWithHeaders, SignsCommit, SignsParts, unsigned, unsigned_fault};
ghost use Rattle.gix_object_commit.specs.Views.{parts_of};

use crate::commit::unsigned::{is_signature, write_unsigned};
use crate::commit::{Commit, CommitRef, ExtraHeader, signature_field_name};
use gix_hash::Kind;
use gix_object_lines::{ByteString, write};
use gix_object_signature::run::{Answer, RunError, Word};
use gix_object_signature::sign::{Error, Options, sign};
use std::alloc::{AllocError, Global};

impl Commit {
    /// Signs the commit: what `write_to` writes of it without the headers of signatures, `gpgsig`
    /// and `gpgsig-sha256`, is signed as `gix_object_signature::sign::sign` does. The signature is
    /// then the last of the further headers, named by `signature_field_name` for the tree's id, and
    /// all earlier signatures are gone.
    ///
    /// The header's value is the signature without the line feed that ends it, so that `write_to`
    /// writes the bytes that Git does. Two signatures that no signer makes are treated differently.
    /// One that ends without a line feed is ended by the header's, while Git loses the empty line
    /// before the message. An empty one gives an empty value, while Git leaves the commit unsigned;
    /// so a reader finds a signature that no program verifies.
    ///
    /// Returns `Encode` if the commit without signatures can't be written, and then runs nothing;
    /// otherwise the error of `gix_object_signature::sign::sign`; and `Memory` if no memory is
    /// left, which may happen after the program has run. After an error the commit is as it was.
    pub fn sign<F: FnMut(&[Word<'_>], &[u8]) -> Result<Answer, RunError>>(
        &mut self,
        options: &Options<'_>,
        runner: &mut F,
    ) -> Result<(), Error>
        requires { F.IsAlwaysCallable runner.old }
        ensures signed { SignsCommit
            (Answers F.FnMut) runner.old self.old options.now result runner.new self.new }
        ensures callable { F.IsAlwaysCallable runner.new }
    {
        let alloc = *self.extra_headers.allocator();
        let signature = signature_over(alloc, self, options, runner)?;
        let header = signature_header(alloc, self.tree.kind(), signature)?;
        put_signature(self, header)?;
        Ok(())
    }
}

impl<'a> CommitRef<'a> {
    /// The commit with copies of its parts, signed as `Commit::sign` does.
    ///
    /// Returns `Decode` if `into_owned` refuses the commit, and then runs nothing; otherwise the
    /// error of `Commit::sign`; and `Memory` if no memory is left.
    pub fn sign<F: FnMut(&[Word<'_>], &[u8]) -> Result<Answer, RunError>>(
        self,
        options: &Options<'_>,
        runner: &mut F,
    ) -> Result<Commit, Error>
        requires { F.IsAlwaysCallable runner.old }
        ensures signed { SignsParts (Answers F.FnMut) runner.old
            (parts_of self.entry) options.now result runner.new }
        ensures callable { F.IsAlwaysCallable runner.new }
    {
        let mut commit = self.into_owned()?;
        commit.sign(options, runner)?;
        Ok(commit)
    }
}

// The signature of what is written of the commit without its signatures.
fn signature_over<F: FnMut(&[Word<'_>], &[u8]) -> Result<Answer, RunError>>(
    alloc: Global,
    commit: &Commit,
    options: &Options<'_>,
    runner: &mut F,
) -> Result<ByteString, Error>
    requires { F.IsAlwaysCallable runner.old }
    ensures made { IfOk result (λ signature. (unsigned_fault commit.now ≡ None)
        × Signs (Answers F.FnMut) runner.old (spec.unsigned_text commit.now) options.now
        (Ok signature) runner.new) }
    ensures refused { IfErr result
        (λ error. SignsCommit (Answers F.FnMut) runner.old commit.now options.now
        (Err error) runner.new commit.now) }
    ensures callable { F.IsAlwaysCallable runner.new }
{
    let text = unsigned_text(alloc, commit)?;
    sign(alloc, text.as_slice(), options, runner)
}

// What is written of the commit without its signatures.
fn unsigned_text(alloc: Global, commit: &Commit) -> Result<Vec<u8>, Error>
    ensures text { IfOk result
        (λ text. (unsigned_fault commit.now ≡ None)
        × (text.items ≡ spec.unsigned_text commit.now)) }
    ensures refused { IfErr result
        (λ error. (error ≡ Memory)
        ⊎ ((fault : write.Error) × (unsigned_fault commit.now ≡ Some fault)
        × (error ≡ Encode fault))) }
{
    let mut text = Vec::new(alloc);
    match write_unsigned(commit, &mut text) {
        Ok(()) => Ok(text),
        Err(write::Error::Writer(_)) => Err(Error::Memory),
        Err(fault) => Err(Error::Encode(fault)),
    }
}

// The header that holds the signature of a commit whose ids are of this hash function.
fn signature_header(
    alloc: Global,
    hash_kind: Kind,
    signature: ByteString,
) -> Result<ExtraHeader, AllocError>
    ensures name { IfOk result (λ header. header.name ≡ signature_name hash_kind) }
    ensures value { IfOk result (λ header. header.value ≡ without_last_feed signature) }
{
    let name = ByteString::from_slice(alloc, signature_field_name(hash_kind).as_bytes())?;
    let value = signature.without_last_feed();
    Ok(ExtraHeader { name, value })
}

// Appends the header to the others except signatures, which go. The room for it is made first, so
// that nothing is lost for want of memory.
fn put_signature(commit: &mut Commit, header: ExtraHeader) -> Result<(), AllocError>
    ensures put { OnOk result
        (IsWithHeaders commit.old
        (unsigned commit.old.extra_headers.items ++ header ∷ []) commit.new) }
    ensures kept { OnErr result (IsAsBefore commit.old commit.new) }
{
    commit.extra_headers.reserve(1)?;
    commit.extra_headers.retain(|header| !is_signature(header));
    commit.extra_headers.push(header)?;
    Ok(())
}
