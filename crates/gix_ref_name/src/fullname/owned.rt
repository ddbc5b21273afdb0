//! `FullName`, which owns its bytes: made, copied, viewed, printed, its category and last component, put into or out of a namespace.

ghost use Rattle.std.specs.Prelude.{◌≡◌, ◌++◌, ◌&&◌, not, ℕ, List, IsTrue, IsFalse, IfOk, OnErr, MatchResult, MatchOption, length, drop, Some, if◌then◌else◌};
ghost use Rattle.bstr.specs.BStr.{bstr_bytes};
ghost use Rattle.gix_object_lines.specs.NameTest.{is_full_name};

use crate::category::Category;
use crate::front::{with_front, without_front};
use crate::fullname::view::FullNameRef;
use crate::name::{Error, InvalidName, PartialNameRef};
use crate::namespace::Namespace;
use bstr::BStr;
use gix_object_lines::ByteString;
use gix_object_lines::lines::is_full_name;
use std::alloc::{AllocError, Global};
use std::fmt;
use std::marker::Model;

/// A full name, as `refs/heads/main` or `HEAD`. Contracts see the list of its bytes.
#[derive(Debug, Drop, PartialEq, Eq, PartialOrd, Ord, Hash)]
pub struct FullName {
    pub(crate) bytes: ByteString,
}

impl Model for FullName {
    ghost Value = { List ℕ };

    ghost view = { λ name. name.bytes };

    ghost invariant = { λ name. IsTrue (is_full_name name.bytes) };

    ghost inverse = { λ bytes. record { bytes = bytes } };
}

impl FullName {
    ghost use Rattle.gix_ref_name.specs.Names.{name_of, part_of, Makes};
    ghost use Rattle.gix_ref_name.specs.Fronts.{IsLastPart, with_front};
    ghost use Rattle.gix_ref_name.specs.Namespaces.{outside_of};
    ghost use Rattle.gix_ref_name.specs.Categories.{Tells, HasNoCategory, IsShortName};

    /// The name of these bytes, which are taken over; `InvalidName` if they break a rule of full
    /// names.
    pub fn new(bytes: ByteString) -> Result<FullName, InvalidName>
        ensures { MatchResult result (λ name. (name ≡ bytes) × IsTrue (is_full_name bytes))
            (λ _. IsFalse (is_full_name bytes)) }
    {
        if is_full_name(bytes.as_bytes()) {
            Ok(FullName { bytes })
        } else {
            Err(InvalidName)
        }
    }

    /// The name of a copy of these bytes; `Invalid` if they break a rule of full names, `Memory` if
    /// no memory is left.
    pub fn from_bytes(alloc: Global, bytes: &[u8]) -> Result<FullName, Error>
        ensures { Makes is_full_name bytes.now result }
    {
        if !is_full_name(bytes) {
            return Err(Error::Invalid);
        }
        match ByteString::from_slice(alloc, bytes) {
            Ok(bytes) => Ok(FullName { bytes }),
            Err(_) => Err(Error::Memory),
        }
    }

    /// A view of the name.
    pub fn as_ref(&self) -> FullNameRef<'_>
        ensures { name_of result ≡ self.now }
    {
        FullNameRef {
            bytes: self.bytes.as_bstr(),
        }
    }

    /// The bytes of the name.
    pub fn as_bstr(&self) -> BStr<'_>
        ensures bytes { bstr_bytes result ≡ self.now }
        ensures full { IsTrue (is_full_name self.now) }
    {
        self.bytes.as_bstr()
    }

    /// The path, which has the bytes of the name.
    pub fn to_path(&self) -> &[u8]
        ensures { result.now ≡ self.now }
    {
        self.bytes.as_bytes()
    }

    /// The bytes of the name, taken out.
    pub fn into_inner(self) -> ByteString
        ensures bytes { result ≡ self }
        ensures full { IsTrue (is_full_name self) }
    {
        let FullName { bytes } = self;
        bytes
    }

    /// The name as a partial one, since each full name is one.
    pub fn as_partial_name(&self) -> PartialNameRef<'_>
        ensures { part_of result ≡ self.now }
    {
        self.as_ref().as_partial_name()
    }

    /// The name in the namespace: its front is put before the name, unless the name begins with it.
    /// Returns `Invalid` if that breaks a rule of full names, and `Memory` if no memory is left.
    pub fn prefix_namespace(&self, alloc: Global, namespace: &Namespace) -> Result<FullName, Error>
        ensures { Makes is_full_name (with_front namespace.now self.now) result }
    {
        let Ok(bytes) = with_front(alloc, namespace.as_bytes(), self.bytes.as_bytes()) else {
            return Err(Error::Memory);
        };
        match FullName::new(bytes) {
            Ok(name) => Ok(name),
            Err(_) => Err(Error::Invalid),
        }
    }

    /// The name without the namespace's front. It is the same name if it doesn't begin with the
    /// front, or if what is left is no full name.
    pub fn strip_namespace(
        &self,
        alloc: Global,
        namespace: &Namespace,
    ) -> Result<FullName, AllocError>
        ensures { IfOk result (λ name. name ≡ outside_of namespace.now self.now) }
    {
        let rest = without_front(self.bytes.as_bytes(), namespace.as_bytes());
        match FullNameRef::new(rest) {
            Ok(name) => name.to_owned(alloc),
            Err(_) => self.try_clone(),
        }
    }

    /// The name's category and its short name; `None` if it has no category.
    pub fn category_and_short_name(&self) -> Option<(Category<'_>, BStr<'_>)>
        ensures { MatchOption result (HasNoCategory self.now)
            (λ found. Tells self.now found.0 (bstr_bytes found.1)) }
    {
        self.as_ref().category_and_short_name()
    }

    /// The name's category; `None` if it has none.
    pub fn category(&self) -> Option<Category<'_>>
        ensures { MatchOption result (HasNoCategory self.now)
            (λ category. (short : List ℕ) × Tells self.now category short) }
    {
        self.as_ref().category()
    }

    /// The short name, and the whole if the name has no category.
    pub fn shorten(&self) -> BStr<'_>
        ensures { IsShortName self.now (bstr_bytes result) }
    {
        self.as_ref().shorten()
    }

    /// The last component of the name.
    pub fn file_name(&self) -> BStr<'_>
        ensures { IsLastPart self.now (bstr_bytes result) }
    {
        self.as_ref().file_name()
    }

    /// A name of the same bytes.
    pub fn try_clone(&self) -> Result<FullName, AllocError>
        ensures { IfOk result (λ copy. copy ≡ self.now) }
    {
        let bytes = self.bytes.try_clone()?;
        Ok(FullName { bytes })
    }
}

impl fmt::Display for FullName {
    ghost use Rattle.gix_ref_name.specs.Names.{printed};

    ghost output = { λ name. Some (printed name) };

    fn fmt<W: fmt::Write>(&self, f: &mut fmt::Formatter<W>) -> fmt::Result {
        fmt::Display::fmt(&self.bytes.as_bstr(), f)
    }
}
