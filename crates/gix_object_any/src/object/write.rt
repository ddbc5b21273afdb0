//! Writing objects.

ghost use Rattle.gix_object_any.specs.Object.{kind_of, value_text, value_refusal};
ghost use Rattle.gix_object_any.specs.Views.{value_of};

use crate::object::ObjectRef;
use gix_object_lines::write::Error;
use gix_object_lines::{Kind, WriteTo};
use std::io;

impl<'a> WriteTo for ObjectRef<'a> {
    ghost text = { λ object. value_text (value_of object) };

    ghost refusal = { λ object. value_refusal (value_of object) };

    ghost object_kind = { λ object. kind_of (value_of object) };

    fn write_to<W: io::Write>(&self, out: &mut W) -> Result<(), Error> {
        match self {
            ObjectRef::Blob(blob) => blob.write_to(out),
            ObjectRef::Tree(tree) => tree.write_to(out),
            ObjectRef::Commit(commit) => commit.write_to(out),
            ObjectRef::Tag(tag) => tag.write_to(out),
        }
    }

    fn kind(&self) -> Kind {
        ObjectRef::kind(self)
    }

    fn size(&self) -> Option<u64> {
        match self {
            ObjectRef::Blob(blob) => blob.size(),
            ObjectRef::Tree(tree) => tree.size(),
            ObjectRef::Commit(commit) => commit.size(),
            ObjectRef::Tag(tag) => tag.size(),
        }
    }
}
