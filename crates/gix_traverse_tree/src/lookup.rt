//! Reads the content of the tree of an id from the store; refuses other kinds of objects.

ghost use Rattle.std.specs.Prelude.{OnOk, IfErr, Contains};
ghost use Rattle.gix_hash.specs.Id.{id_of};
ghost use Rattle.gix_object_lines.specs.declared.kind.Kind.TheVariants as kinds;
ghost use Rattle.gix_object_lookup.specs.Existing.{Stands, KindFault};

use gix_hash::ObjectId;
use gix_object_lines::Kind;
use gix_object_lookup::FindInto;
use gix_object_lookup::find::existing_iter::Error;

/// Puts the content of the tree of this id into the buffer, in place of what it held. Returns
/// `Find` if the lookup failed, `NotFound` if there is no object, and `ObjectKind` if it is of
/// another kind.
pub(crate) fn read_tree<F: FindInto>(
    objects: &F,
    id: &ObjectId,
    buffer: &mut Vec<u8>,
) -> Result<(), Error>
    ensures found { OnOk result
        (F.is_honest objects.now
        → Stands (F.table objects.now) (id_of id.now) kinds.Tree buffer.new.items) }
    ensures listed { OnOk result (Contains (F.ids objects.now) (id_of id.now)) }
    ensures refused { IfErr result
        (λ error. KindFault (F.is_honest objects.now) (F.may_fail objects.now)
        (F.table objects.now) (id_of id.now) kinds.Tree error) }
{
    match objects.find_into(id.as_oid(), buffer)? {
        Some(Kind::Tree) => Ok(()),
        Some(actual) => Err(Error::ObjectKind {
            oid: *id,
            actual,
            expected: Kind::Tree,
        }),
        None => Err(Error::NotFound { oid: *id }),
    }
}
