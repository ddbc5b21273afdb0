//! The content of objects that must exist, by their kind.

ghost use Rattle.std.specs.Prelude.{IfOk, IfErr};
ghost use Rattle.gix_hash.specs.Views.{viewed_id};
ghost use Rattle.gix_object_lines.specs.declared.kind.Kind.TheVariants as kinds;
ghost use Rattle.gix_object_lookup.specs.Existing.{Stands, IsReadFrom, KindFault};

use crate::FindInto;
use crate::find::existing_iter::Error;
use gix_hash::{ObjectId, oid};
use gix_object_lines::Kind;
use gix_object_tree::TreeRefIter;

/// Returns the content of the object of this id and kind, which the buffer holds. Returns
/// `NotFound` if there is no object, `ObjectKind` if it is of another kind, and `Find` if the
/// lookup failed.
pub fn content_of<'a, T: FindInto>(
    objects: &T,
    id: oid<'_>,
    kind: Kind,
    buffer: &'a mut Vec<u8>,
) -> Result<&'a [u8], Error>
    ensures found { T.is_honest objects.now → IfOk result (λ content.
        Stands (T.table objects.now) (viewed_id id.entry) kind content.now) }
    ensures refused { IfErr result (KindFault (T.is_honest objects.now) (T.may_fail objects.now)
        (T.table objects.now) (viewed_id id.entry) kind) }
{
    let Some(actual) = objects.find_into(id, buffer)? else {
        return Err(Error::NotFound {
            oid: ObjectId::from(id),
        });
    };
    if actual != kind {
        return Err(Error::ObjectKind {
            oid: ObjectId::from(id),
            actual,
            expected: kind,
        });
    }
    Ok(buffer.as_slice())
}

/// Returns a reader of the entries of the tree of this id, which the buffer holds. The errors are
/// those of `content_of`.
pub fn entries_of<'a, T: FindInto>(
    objects: &T,
    id: oid<'_>,
    buffer: &'a mut Vec<u8>,
) -> Result<TreeRefIter<'a>, Error>
    ensures found { T.is_honest objects.now → IfOk result (λ reader.
        IsReadFrom (T.table objects.now) (viewed_id id.entry) reader) }
    ensures refused { IfErr result (KindFault (T.is_honest objects.now) (T.may_fail objects.now)
        (T.table objects.now) (viewed_id id.entry) kinds.Tree) }
{
    let content = content_of(objects, id, Kind::Tree, buffer)?;
    Ok(TreeRefIter::from_bytes(content, id.kind()))
}
