//! What is written as the content of an object.

ghost use Rattle.std.specs.Prelude.{◌≡◌, ◌^◌, ◌≤◌, ℕ, List, Option, None, length, MatchOption};
ghost use Rattle.gix_object_lines.specs.Header.{header_text};
ghost use Rattle.gix_object_lines.specs.Writes.{Refusal, Writes};
ghost use Rattle.gix_object_lines.specs.declared.kind.Kind.{Kind};

use crate::write::Error;
use crate::{Kind, encode};
use arrayvec::ArrayVec;
use std::io;

/// A value that is written as the content of an object.
pub trait WriteTo {
    /// The bytes of all its parts, in order.
    ghost text: { Self → List ℕ };

    /// The first of its parts that the format never writes, if there is one.
    ghost refusal: { Self → Option Refusal } = { λ _. None };

    /// The kind of the object.
    ghost object_kind: { Self → Kind };

    /// Writes the content. A value that is refused leaves exactly the parts before the refused one;
    /// a writer that fails has taken a beginning of what was to be written.
    fn write_to<W: io::Write>(&self, out: &mut W) -> Result<(), Error>
        ensures { Writes (W.contents out.old) (W.contents out.new) (text self.now)
            (refusal self.now) result };

    /// The kind of the object.
    fn kind(&self) -> Kind
        ensures { result ≡ object_kind self.now };

    /// The length of the content in bytes, as `write_to` writes it (for a value that it refuses: of
    /// all parts). `None` if that is more than 18,446,744,073,709,551,615.
    fn size(&self) -> Option<u64>
        ensures { MatchOption result (2 ^ 64 ≤ length (text self.now))
            (λ size. size ≡ length (text self.now)) };

    /// The header of the object; `None` if `size` is.
    fn loose_header(&self) -> Option<ArrayVec<u8, 28>>
        ensures { MatchOption result (2 ^ 64 ≤ length (text self.now))
            (λ header. header.items ≡ header_text (object_kind self.now) (length (text self.now))) }
    {
        let size = self.size()?;
        Some(encode::loose_header(self.kind(), size))
    }
}

impl<T: WriteTo> WriteTo for &T {
    ghost text = { λ value. T.text value.now };

    ghost refusal = { λ value. T.refusal value.now };

    ghost object_kind = { λ value. T.object_kind value.now };

    fn write_to<W: io::Write>(&self, out: &mut W) -> Result<(), Error> {
        (**self).write_to(out)
    }

    fn kind(&self) -> Kind {
        (**self).kind()
    }

    fn size(&self) -> Option<u64> {
        (**self).size()
    }
}
