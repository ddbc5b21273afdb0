//! The object of an id with its content.

ghost use Rattle.std.specs.Prelude.{◌≡◌, option_map, IfOk, IfSome, IsSome, IsErrOf, Contains};
ghost use Rattle.gix_hash.specs.Views.{viewed_id};
ghost use Rattle.gix_object_find.specs.Values.{object_of};
ghost use Rattle.gix_object_lookup.specs.declared.find.Error.TheVariants.{Failed};

use gix_hash::oid;
use gix_object_any::Data;
use gix_object_lookup::FindInto;
use gix_object_lookup::find::Error;

/// Gives objects.
pub trait Find: FindInto {
    /// Returns the object of this id, whose content the buffer holds; `None` if there is none. Ids
    /// in the content are of the same hash function. The errors are those of `find_into`.
    fn try_find<'a>(&self, id: oid<'_>, buffer: &'a mut Vec<u8>) -> Result<Option<Data<'a>>, Error>
        ensures object { Self.is_honest self.now → IfOk result (λ found.
            option_map object_of found ≡ Self.table self.now (viewed_id id.entry)) }
        ensures hash { IfOk result (λ found.
            IfSome found (λ object. object.object_hash ≡ (viewed_id id.entry).kind)) }
        ensures listed { IfOk result (λ found.
            IsSome found → Contains (Self.ids self.now) (viewed_id id.entry)) }
        ensures failed { IsErrOf result Failed → Self.may_fail self.now }
    {
        match self.find_into(id, buffer)? {
            Some(kind) => Ok(Some(Data::new(kind, id.kind(), buffer.as_slice()))),
            None => Ok(None),
        }
    }
}

impl<T: FindInto> Find for T {}
