//! What keeps objects.

ghost use Rattle.std.specs.Prelude.{◌≡◌, ⊤, IsSome};
ghost use Rattle.gix_hash.specs.Id.{id_of};
ghost use Rattle.gix_hash.specs.Hasher.{id_of_message};
ghost use Rattle.gix_hash.specs.declared.kind.Kind.TheVariants as hashes;
ghost use Rattle.gix_hash.specs.declared.kind.Kind as hash;
ghost use Rattle.gix_object_lines.specs.Writes.{cause_of};
ghost use Rattle.gix_object_any.specs.Loose.{loose_text};
ghost use Rattle.gix_object_write.specs.Keeping.{Keeps, told_as};
ghost use Rattle.gix_object_write.specs.Streams.{KeepsNext};

use crate::stream::read_content;
use crate::write::Error;
use gix_hash::ObjectId;
use gix_object_hash::compute_hash;
use gix_object_lines::write::Error as WriteToError;
use gix_object_lines::{Kind, WriteTo};
use gix_object_lookup::Lookup;
use gix_object_lookup::find::Never;
use std::alloc::Global;
use std::io;

/// Stores objects under their ids. After each call that returns an id, that id has the object, and
/// every other id what it had; `specs/Keeping.antt` says what there is after an error.
///
/// A store writes two calls by hand, `object_hash` and `write_buf_with_known_id`.
pub trait Write: Lookup {
    /// The hash function of the objects' ids.
    ghost ids_kind: { Self → hash.Kind };

    /// Whether storing an object may fail.
    ghost may_refuse: { Self → Type 0 };

    /// The hash function of the objects' ids.
    fn object_hash(&self) -> gix_hash::Kind
        ensures { result ≡ Self.ids_kind self.now };

    /// Stores the object of this kind and content under an id that the caller knows to be its own,
    /// which isn't tested, and returns that id. Returns `Failed` if the store failed, which may
    /// then have the object, and `Memory` if no memory is left.
    fn write_buf_with_known_id(
        &mut self,
        object: Kind,
        from: &[u8],
        id: ObjectId,
    ) -> Result<ObjectId, Error>
        ensures kept { Keeps ⊥ (Self.is_honest self.old) (Self.may_refuse self.old)
            (Self.table self.old) (Self.table self.new) (id_of id)
            (record { kind = object; content = from.now }) result }
        ensures honest { Self.is_honest self.old → Self.is_honest self.new }
        ensures ids { Self.ids_kind self.new ≡ Self.ids_kind self.old };

    /// Stores the object of this kind and content, and returns its id. The errors are those of
    /// `write_buf_with_known_id`.
    fn write_buf(&mut self, object: Kind, from: &[u8]) -> Result<ObjectId, Error>
        ensures kept { Keeps ⊥ (Self.is_honest self.old) (Self.may_refuse self.old)
            (Self.table self.old) (Self.table self.new)
            (id_of_message (Self.ids_kind self.old) (loose_text object from.now))
            (record { kind = object; content = from.now }) result }
        ensures honest { Self.is_honest self.old → Self.is_honest self.new }
        ensures ids { Self.ids_kind self.new ≡ Self.ids_kind self.old }
    {
        let id = compute_hash(self.object_hash(), object, from);
        self.write_buf_with_known_id(object, from, id)
    }

    /// Stores the object, and returns its id. Returns `Read` if `write_to` refuses the value; the
    /// other errors are those of `write_buf`.
    fn write<T: WriteTo>(&mut self, alloc: Global, object: &T) -> Result<ObjectId, Error>
        ensures kept { Keeps (IsSome (cause_of (T.refusal object.now))) (Self.is_honest self.old)
            (Self.may_refuse self.old) (Self.table self.old) (Self.table self.new)
            (id_of_message (Self.ids_kind self.old)
            (loose_text (T.object_kind object.now) (T.text object.now)))
            (record { kind = T.object_kind object.now; content = T.text object.now }) result }
        ensures honest { Self.is_honest self.old → Self.is_honest self.new }
        ensures ids { Self.ids_kind self.new ≡ Self.ids_kind self.old }
    {
        let mut content = Vec::new(alloc);
        match object.write_to(&mut content) {
            Ok(()) => self.write_buf(object.kind(), content.as_slice()),
            Err(error) => Err(unwritten(error)),
        }
    }

    /// Stores the object of this kind whose content is exactly the stream's next `size` bytes, and
    /// returns its id. Returns `Read` if the stream fails or ends before; the other errors are
    /// those of `write_buf`.
    fn write_stream<R: io::Read>(
        &mut self,
        alloc: Global,
        kind: Kind,
        size: u64,
        from: &mut R,
    ) -> Result<ObjectId, Error>
        ensures kept { KeepsNext (R.remaining from.old) (R.remaining from.new) size kind
            (λ content. id_of_message (Self.ids_kind self.old) (loose_text kind content))
            (Self.is_honest self.old) (Self.may_refuse self.old) (Self.table self.old)
            (Self.table self.new) result }
        ensures honest { Self.is_honest self.old → Self.is_honest self.new }
        ensures ids { Self.ids_kind self.new ≡ Self.ids_kind self.old }
    {
        let content = read_content(alloc, from, size)?;
        self.write_buf(kind, content.as_slice())
    }

    /// Stores the object of this kind whose content is exactly the stream's next `size` bytes,
    /// under an id that the caller knows to be its own, which isn't tested. The errors are those of
    /// `write_stream`.
    fn write_stream_with_known_id<R: io::Read>(
        &mut self,
        alloc: Global,
        kind: Kind,
        size: u64,
        from: &mut R,
        id: ObjectId,
    ) -> Result<ObjectId, Error>
        ensures kept { KeepsNext (R.remaining from.old) (R.remaining from.new) size kind
            (λ _. id_of id)
            (Self.is_honest self.old) (Self.may_refuse self.old) (Self.table self.old)
            (Self.table self.new) result }
        ensures honest { Self.is_honest self.old → Self.is_honest self.new }
        ensures ids { Self.ids_kind self.new ≡ Self.ids_kind self.old }
    {
        let content = read_content(alloc, from, size)?;
        self.write_buf_with_known_id(kind, content.as_slice(), id)
    }
}

// Why an object isn't stored whose content wasn't written into memory.
fn unwritten(error: WriteToError) -> Error
    ensures { result ≡ told_as error }
{
    match error {
        WriteToError::Writer(_) => Error::Memory,
        WriteToError::Header(_) | WriteToError::TagName(_) | WriteToError::Filename(_) =>
            Error::Read,
    }
}

impl Write for Never {
    ghost ids_kind = { λ _. hashes.Sha1 };

    ghost may_refuse = { λ _. ⊤ };

    fn object_hash(&self) -> gix_hash::Kind {
        gix_hash::Kind::Sha1
    }

    fn write_buf_with_known_id(
        &mut self,
        _object: Kind,
        _from: &[u8],
        _id: ObjectId,
    ) -> Result<ObjectId, Error> {
        Err(Error::Failed)
    }
}
