//! Signing tags.

ghost use Rattle.std.specs.Prelude.{◌≡◌, ◌⊎◌, None, Some, IfOk, IfErr, OnErr};
ghost use Rattle.bstr.specs.BStr.{bstr_bytes};
ghost use Rattle.gix_object_lines.specs.declared.write.Error as write;
ghost use Rattle.gix_object_signature.specs.Run.{Answers};
ghost use Rattle.gix_object_signature.specs.declared.sign.Error.TheVariants.{Encode, Memory};
ghost use Rattle.gix_object_tag.specs.Signing.{IsTextToSign, SignsParts, SignsTag, left_of, parted, signed_with, write_fault};
ghost use Rattle.gix_object_tag.specs.Views.{parts_of};

use crate::tag::{Tag, TagRef};
use bstr::BStr;
use gix_object_lines::{ByteString, write};
use gix_object_signature::run::{Answer, RunError, Word};
use gix_object_signature::sign::{Error, Options, sign};
use std::alloc::{AllocError, Global};

impl Tag {
    /// Signs the tag: its text is signed as `gix_object_signature::sign::sign` does, and
    /// `pgp_signature` is then the signature. It replaces an earlier signature, which is no part of
    /// what is signed.
    ///
    /// The text is all that `write_to` writes of the signed tag before the signature, including the
    /// line feed between the message and the signature. A tag without a signature mostly has a
    /// message that ends with a line feed: that one then separates the two, and is no longer part
    /// of the message. So the text that Git makes of a tag is signed unchanged if its message ends
    /// with a line feed after at least one byte.
    ///
    /// Returns `Encode` if a line before the message can't be written, and then runs nothing;
    /// otherwise the error of `gix_object_signature::sign::sign`; and `Memory` if no memory is
    /// left. After an error the tag is as it was.
    pub fn sign<F: FnMut(&[Word<'_>], &[u8]) -> Result<Answer, RunError>>(
        &mut self,
        options: &Options<'_>,
        runner: &mut F,
    ) -> Result<(), Error>
        requires { F.IsAlwaysCallable runner.old }
        ensures signed { SignsTag (Answers F.FnMut) runner.old self.old options.now
            (left_of result self.new) runner.new }
        ensures callable { F.IsAlwaysCallable runner.new }
        ensures kept { OnErr result (self.new ≡ self.old) }
    {
        let message = message_to_sign(self)?;
        let signature = signature_over(self, message.as_bstr(), options, runner)?;
        put_signature(self, message, signature);
        Ok(())
    }
}

impl<'a> TagRef<'a> {
    /// The tag with copies of its parts, signed as `Tag::sign` does.
    ///
    /// Returns `Decode` if `into_owned` refuses the tag, and then runs nothing; otherwise the error
    /// of `Tag::sign`; and `Memory` if no memory is left.
    pub fn sign<F: FnMut(&[Word<'_>], &[u8]) -> Result<Answer, RunError>>(
        self,
        alloc: Global,
        options: &Options<'_>,
        runner: &mut F,
    ) -> Result<Tag, Error>
        requires { F.IsAlwaysCallable runner.old }
        ensures signed { SignsParts (Answers F.FnMut) runner.old
            (parts_of self.entry) options.now result runner.new }
        ensures callable { F.IsAlwaysCallable runner.new }
    {
        let mut tag = self.into_owned(alloc)?;
        tag.sign(options, runner)?;
        Ok(tag)
    }
}

// The message as it is before a signature.
fn message_to_sign(tag: &Tag) -> Result<ByteString, AllocError>
    ensures { IfOk result (λ message. message ≡ parted tag.now.pgp_signature tag.now.message) }
{
    let message = tag.message.try_clone()?;
    match &tag.pgp_signature {
        Some(_) => Ok(message),
        None => Ok(message.without_last_feed()),
    }
}

// The signature of the tag with this message before it.
fn signature_over<F: FnMut(&[Word<'_>], &[u8]) -> Result<Answer, RunError>>(
    tag: &Tag,
    message: BStr<'_>,
    options: &Options<'_>,
    runner: &mut F,
) -> Result<ByteString, Error>
    requires { F.IsAlwaysCallable runner.old }
    ensures signed { bstr_bytes message.entry ≡ parted tag.now.pgp_signature tag.now.message
        → SignsTag (Answers F.FnMut) runner.old tag.now options.now
        (signed_with tag.now result) runner.new }
    ensures callable { F.IsAlwaysCallable runner.new }
{
    let text = text_to_sign(tag, message)?;
    sign(tag.message.allocator(), text.as_slice(), options, runner)
}

fn put_signature(tag: &mut Tag, message: ByteString, signature: ByteString)
    ensures { tag.new ≡ record tag.old { message = message; pgp_signature = Some signature } }
{
    tag.message = message;
    tag.pgp_signature = Some(signature);
}

// All that is written of the tag with this message before its signature.
fn text_to_sign(tag: &Tag, message: BStr<'_>) -> Result<Vec<u8>, Error>
    ensures text { bstr_bytes message.entry ≡ parted tag.now.pgp_signature tag.now.message
        → IfOk result (λ text. (write_fault tag.now ≡ None) × IsTextToSign tag.now text.items) }
    ensures refused { IfErr result
        (λ error. (error ≡ Memory)
        ⊎ ((fault : write.Error) × (write_fault tag.now ≡ Some fault) × (error ≡ Encode fault))) }
{
    let mut text = Vec::new(tag.message.allocator());
    match tag.write_with(message, Some(BStr::new(b"")), true, &mut text) {
        Ok(()) => Ok(text),
        Err(write::Error::Writer(_)) => Err(Error::Memory),
        Err(fault) => Err(Error::Encode(fault)),
    }
}
