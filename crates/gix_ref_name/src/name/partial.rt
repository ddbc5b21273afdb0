//! `PartialName` and the calls of `PartialNameRef`: made of bytes, `str` or a view, joined, copied and printed.

ghost use Rattle.std.specs.Prelude.{◌≡◌, ◌++◌, ◌∷◌, ℕ, List, IsTrue, IsFalse, IfOk, OnErr, MatchResult, Some, refl};
ghost use Rattle.bstr.specs.BStr.{bstr_bytes};
ghost use Rattle.gix_object_lines.specs.NameTest.{is_partial_name};

use crate::fullname::FullNameRef;
use crate::name::error::{Error, InvalidName};
use crate::name::view::PartialNameRef;
use bstr::BStr;
use gix_object_lines::ByteString;
use gix_object_lines::lines::is_partial_name;
use std::alloc::{AllocError, Global};
use std::fmt;
use std::marker::Model;

/// A name that rules may complete, as `main`. Contracts see the list of its bytes.
#[derive(Debug, Drop, PartialEq, Eq, PartialOrd, Ord, Hash)]
pub struct PartialName {
    bytes: ByteString,
}

impl Model for PartialName {
    ghost Value = { List ℕ };

    ghost view = { λ name. name.bytes };

    ghost invariant = { λ name. IsTrue (is_partial_name name.bytes) };

    ghost inverse = { λ bytes. record { bytes = bytes } };
}

impl PartialName {
    ghost use Rattle.gix_ref_name.specs.Names.{part_of, Makes};

    /// The name of these bytes, which are taken over; `InvalidName` if they break a rule of partial
    /// names.
    pub fn new(bytes: ByteString) -> Result<PartialName, InvalidName>
        ensures { MatchResult result (λ name. (name ≡ bytes) × IsTrue (is_partial_name bytes))
            (λ _. IsFalse (is_partial_name bytes)) }
    {
        if is_partial_name(bytes.as_bytes()) {
            Ok(PartialName { bytes })
        } else {
            Err(InvalidName)
        }
    }

    /// The name of a copy of these bytes; `Invalid` if they break a rule of partial names, `Memory`
    /// if no memory is left.
    pub fn from_bytes(alloc: Global, bytes: &[u8]) -> Result<PartialName, Error>
        ensures { Makes is_partial_name bytes.now result }
    {
        if !is_partial_name(bytes) {
            return Err(Error::Invalid);
        }
        match ByteString::from_slice(alloc, bytes) {
            Ok(bytes) => Ok(PartialName { bytes }),
            Err(_) => Err(Error::Memory),
        }
    }

    /// The name, a slash and the component; `Invalid` if that breaks a rule of partial names.
    pub fn join(self, component: BStr<'_>) -> Result<PartialName, Error>
        ensures { Makes is_partial_name (self ++ 47 ∷ bstr_bytes component.entry) result }
    {
        let Ok(bytes) = joined(self.bytes.into_vec(), component.as_bytes()) else {
            return Err(Error::Memory);
        };
        match PartialName::new(bytes) {
            Ok(name) => Ok(name),
            Err(_) => Err(Error::Invalid),
        }
    }

    /// A view of the name.
    pub fn as_ref(&self) -> PartialNameRef<'_>
        ensures { part_of result ≡ self.now }
    {
        PartialNameRef {
            bytes: self.bytes.as_bstr(),
        }
    }

    /// The bytes of the name.
    pub fn as_bstr(&self) -> BStr<'_>
        ensures { bstr_bytes result ≡ self.now }
    {
        self.bytes.as_bstr()
    }

    /// The bytes of the name, taken out.
    pub fn into_inner(self) -> ByteString
        ensures { result ≡ self }
    {
        let PartialName { bytes } = self;
        bytes
    }

    /// A name of the same bytes.
    pub fn try_clone(&self) -> Result<PartialName, AllocError>
        ensures { IfOk result (λ copy. copy ≡ self.now) }
    {
        Ok(PartialName {
            bytes: self.bytes.try_clone()?,
        })
    }
}

// The bytes, a slash and the component.
fn joined(mut bytes: Vec<u8>, component: &[u8]) -> Result<ByteString, AllocError>
    ensures { IfOk result (λ text. text ≡ bytes.items ++ 47 ∷ component.now) }
{
    bytes.push(b'/')?;
    bytes.extend_from_slice(component)?;
    Ok(ByteString::new(bytes))
}

impl<'a> PartialNameRef<'a> {
    ghost use Rattle.gix_ref_name.specs.Names.{name_of, part_of};

    /// The view of these bytes; `InvalidName` if they break a rule of partial names.
    pub fn new(bytes: &'a [u8]) -> Result<PartialNameRef<'a>, InvalidName>
        ensures { MatchResult result
            (λ name. (part_of name ≡ bytes.now) × IsTrue (is_partial_name bytes.now))
            (λ _. IsFalse (is_partial_name bytes.now)) }
    {
        if is_partial_name(bytes) {
            Ok(PartialNameRef {
                bytes: BStr::new(bytes),
            })
        } else {
            Err(InvalidName)
        }
    }

    /// The bytes of the name.
    pub fn as_bstr(self) -> BStr<'a>
        ensures bytes { bstr_bytes result ≡ part_of self.entry }
        ensures partial { IsTrue (is_partial_name (bstr_bytes result)) }
    {
        self.bytes
    }

    /// The path, which has the bytes of the name.
    pub fn to_partial_path(self) -> &'a [u8]
        ensures { result.now ≡ part_of self.entry }
    {
        self.bytes.as_bytes()
    }

    /// A name that owns a copy of the bytes.
    pub fn to_owned(self, alloc: Global) -> Result<PartialName, AllocError>
        ensures { IfOk result (λ name. name ≡ part_of self.entry) }
    {
        Ok(PartialName {
            bytes: ByteString::from_slice(alloc, self.bytes.as_bytes())?,
        })
    }
}

impl<'a> TryFrom<&'a [u8]> for PartialNameRef<'a> {
    ghost use Rattle.gix_ref_name.specs.Names.{part_of};

    type Error = InvalidName;

    ghost try_from_gives = { λ bytes r. MatchResult r
        (λ name. (part_of name ≡ bytes.now) × IsTrue (is_partial_name bytes.now))
        (λ _. IsFalse (is_partial_name bytes.now)) };

    fn try_from(bytes: &'a [u8]) -> Result<PartialNameRef<'a>, InvalidName> {
        PartialNameRef::new(bytes)
    }
}

impl<'a> TryFrom<&'a str> for PartialNameRef<'a> {
    ghost use Rattle.gix_ref_name.specs.Names.{part_of};

    type Error = InvalidName;

    ghost try_from_gives = { λ text r. MatchResult r
        (λ name. (part_of name ≡ text.now) × IsTrue (is_partial_name text.now))
        (λ _. IsFalse (is_partial_name text.now)) };

    fn try_from(text: &'a str) -> Result<PartialNameRef<'a>, InvalidName> {
        PartialNameRef::new(text.as_bytes())
    }
}

impl<'a> From<FullNameRef<'a>> for PartialNameRef<'a> {
    ghost use Rattle.gix_ref_name.specs.Names.{name_of, part_of};

    ghost from_gives = { λ name part. part_of part ≡ name_of name };

    fn from(name: FullNameRef<'a>) -> PartialNameRef<'a> {
        name.as_partial_name()
    }
}

impl fmt::Display for PartialNameRef<'_> {
    ghost use Rattle.gix_ref_name.specs.Names.{part_of, printed};

    ghost output = { λ name. Some (printed (part_of name)) };

    fn fmt<W: fmt::Write>(&self, f: &mut fmt::Formatter<W>) -> fmt::Result {
        fmt::Display::fmt(&self.bytes, f)
    }
}

impl fmt::Display for PartialName {
    ghost use Rattle.gix_ref_name.specs.Names.{printed};

    ghost output = { λ name. Some (printed name) };

    fn fmt<W: fmt::Write>(&self, f: &mut fmt::Formatter<W>) -> fmt::Result {
        fmt::Display::fmt(&self.bytes.as_bstr(), f)
    }
}
