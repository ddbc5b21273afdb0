//! Blobs: the contents of files.

ghost use Rattle.std.specs.Prelude.{◌≡◌, IfOk};
ghost use Rattle.gix_object_lines.specs.declared.kind.Kind.TheVariants as kinds;

use gix_object_lines::write::{Error, write_bytes};
use gix_object_lines::{ByteString, Kind, WriteTo};
use std::alloc::{AllocError, Global};
use std::io;

/// A blob whose content is borrowed.
#[derive(Debug, Clone, Copy, PartialEq, Eq)]
pub struct BlobRef<'a> {
    /// The bytes of the file.
    pub content: &'a [u8],
}

/// A blob.
#[derive(Debug, Drop, PartialEq, Eq)]
pub struct Blob {
    /// The bytes of the file.
    pub content: ByteString,
}

impl<'a> BlobRef<'a> {
    /// The blob of these bytes: any bytes are one.
    pub fn from_bytes(content: &'a [u8]) -> BlobRef<'a>
        ensures { result.content.now ≡ content.now }
    {
        BlobRef { content }
    }

    /// The blob with a copy of the bytes.
    pub fn into_owned(self, alloc: Global) -> Result<Blob, AllocError>
        ensures { IfOk result (λ blob. blob.content ≡ self.entry.content.now) }
    {
        Ok(Blob {
            content: ByteString::from_slice(alloc, self.content)?,
        })
    }
}

impl Blob {
    /// The blob, borrowed.
    pub fn to_ref(&self) -> BlobRef<'_>
        ensures { result.content.now ≡ self.now.content }
    {
        BlobRef::from_bytes(self.content.as_bytes())
    }
}

impl<'a> WriteTo for BlobRef<'a> {
    ghost text = { λ blob. blob.content.now };

    ghost object_kind = { λ _. kinds.Blob };

    fn write_to<W: io::Write>(&self, out: &mut W) -> Result<(), Error> {
        write_bytes(out, self.content).map_err(Error::Writer)
    }

    fn kind(&self) -> Kind {
        Kind::Blob
    }

    fn size(&self) -> Option<u64> {
        Some(self.content.len() as u64)
    }
}

impl WriteTo for Blob {
    ghost text = { λ blob. blob.content };

    ghost object_kind = { λ _. kinds.Blob };

    fn write_to<W: io::Write>(&self, out: &mut W) -> Result<(), Error> {
        self.to_ref().write_to(out)
    }

    fn kind(&self) -> Kind {
        self.to_ref().kind()
    }

    fn size(&self) -> Option<u64> {
        self.to_ref().size()
    }
}
