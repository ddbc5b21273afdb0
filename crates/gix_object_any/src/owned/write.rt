//! Writing owned objects.

ghost use Rattle.gix_object_any.specs.Object.{kind_of, value_text};
ghost use Rattle.gix_object_any.specs.Owned.{own_value, own_value_refusal};

use crate::Object;
use gix_object_lines::write::Error;
use gix_object_lines::{Kind, WriteTo};
use std::io;

impl WriteTo for Object {
    ghost text = { λ object. value_text (own_value object) };

    ghost refusal = { λ object. own_value_refusal object };

    ghost object_kind = { λ object. kind_of (own_value object) };

    fn write_to<W: io::Write>(&self, out: &mut W) -> Result<(), Error> {
        match self {
            Object::Blob(blob) => blob.write_to(out),
            Object::Tree(tree) => tree.write_to(out),
            Object::Commit(commit) => commit.write_to(out),
            Object::Tag(tag) => tag.write_to(out),
        }
    }

    fn kind(&self) -> Kind {
        Object::kind(self)
    }

    fn size(&self) -> Option<u64> {
        match self {
            Object::Blob(blob) => blob.size(),
            Object::Tree(tree) => tree.size(),
            Object::Commit(commit) => commit.size(),
            Object::Tag(tag) => tag.size(),
        }
    }
}
