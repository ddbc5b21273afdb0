//! Looking objects up by their ids.

ghost use Rattle.std.specs.Prelude.{◌≡◌, ◌↔◌, List, is_some, IsTrue, IfOk, OnOk, IsSome, IsErrOf, Contains};
ghost use Rattle.std.specs.Rc.{rc_value};
ghost use Rattle.gix_hash.specs.Id.{Id};
ghost use Rattle.gix_hash.specs.Views.{viewed_id};
ghost use Rattle.gix_object_lookup.specs.Table.{Table, kind_at, content_at, header_at};
ghost use Rattle.gix_object_lookup.specs.declared.find.Error.TheVariants.{Failed};

use crate::find::Error;
use gix_hash::oid;
use gix_object_lines::{Header, Kind};
use std::alloc::Allocator;
use std::rc::Rc;

/// Objects under their ids: the map that all lookups read. A contract names this map and nothing
/// else of a store.
pub trait Lookup {
    /// The object stored under each id.
    ghost table: { Self → Table };

    /// The ids under which an object may be found, honest or not. Under all others none is.
    ghost ids: { Self → List Id };

    /// Whether results are those of the table.
    ghost is_honest: { Self → Type 0 };

    /// Whether a lookup may fail.
    ghost may_fail: { Self → Type 0 };
}

/// Tests whether objects exist.
pub trait Exists: Lookup {
    /// Returns whether an object of this id exists.
    fn exists(&self, id: oid<'_>) -> bool
        ensures table { Self.is_honest self.now
            → result ≡ is_some (Self.table self.now (viewed_id id.entry)) }
        ensures listed { IsTrue result → Contains (Self.ids self.now) (viewed_id id.entry) };
}

/// Gives the content of objects.
pub trait FindInto: Lookup {
    /// Puts the content of the object of this id into the buffer, in place of what it held, and
    /// returns the object's kind. Returns `None`, with an empty buffer, if there is no such object;
    /// `Failed` if the lookup failed; and `Memory` if no memory is left.
    fn find_into(&self, id: oid<'_>, buffer: &mut Vec<u8>) -> Result<Option<Kind>, Error>
        ensures kind { Self.is_honest self.now → IfOk result (λ kind.
            kind ≡ kind_at (Self.table self.now) (viewed_id id.entry)) }
        ensures content { Self.is_honest self.now
            → OnOk result
            (buffer.new.items ≡ content_at (Self.table self.now) (viewed_id id.entry)) }
        ensures listed { IfOk result (λ kind.
            IsSome kind → Contains (Self.ids self.now) (viewed_id id.entry)) }
        ensures failed { IsErrOf result Failed → Self.may_fail self.now };
}

/// Gives the kinds and sizes of objects.
pub trait FindHeader: Lookup {
    /// The kind of the object of this id and the length of its content; `None` if there is no such
    /// object. Returns `Failed` if the lookup failed, and `Memory` if no memory is left.
    fn try_header(&self, id: oid<'_>) -> Result<Option<Header>, Error>
        ensures header { Self.is_honest self.now → IfOk result (λ header.
            header ≡ header_at (Self.table self.now) (viewed_id id.entry)) }
        ensures listed { IfOk result (λ header.
            IsSome header → Contains (Self.ids self.now) (viewed_id id.entry)) }
        ensures failed { IsErrOf result Failed → Self.may_fail self.now };
}

impl<T: Lookup> Lookup for &T {
    ghost table = { λ objects. T.table objects.now };

    ghost ids = { λ objects. T.ids objects.now };

    ghost is_honest = { λ objects. T.is_honest objects.now };

    ghost may_fail = { λ objects. T.may_fail objects.now };
}

impl<T: Exists> Exists for &T {
    fn exists(&self, id: oid<'_>) -> bool {
        (**self).exists(id)
    }
}

impl<T: FindInto> FindInto for &T {
    fn find_into(&self, id: oid<'_>, buffer: &mut Vec<u8>) -> Result<Option<Kind>, Error> {
        (**self).find_into(id, buffer)
    }
}

impl<T: FindHeader> FindHeader for &T {
    fn try_header(&self, id: oid<'_>) -> Result<Option<Header>, Error> {
        (**self).try_header(id)
    }
}

impl<T: Lookup, A: Allocator> Lookup for Rc<T, A> {
    ghost table = { λ objects. T.table (rc_value objects) };

    ghost ids = { λ objects. T.ids (rc_value objects) };

    ghost is_honest = { λ objects. T.is_honest (rc_value objects) };

    ghost may_fail = { λ objects. T.may_fail (rc_value objects) };
}

impl<T: Exists, A: Allocator> Exists for Rc<T, A> {
    fn exists(&self, id: oid<'_>) -> bool {
        (**self).exists(id)
    }
}

impl<T: FindInto, A: Allocator> FindInto for Rc<T, A> {
    fn find_into(&self, id: oid<'_>, buffer: &mut Vec<u8>) -> Result<Option<Kind>, Error> {
        (**self).find_into(id, buffer)
    }
}

impl<T: FindHeader, A: Allocator> FindHeader for Rc<T, A> {
    fn try_header(&self, id: oid<'_>) -> Result<Option<Header>, Error> {
        (**self).try_header(id)
    }
}
