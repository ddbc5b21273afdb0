//! The calls of `FullNameRef`: of bytes or `str`, as a partial name, category, short and file name, copied, printed.

ghost use Rattle.std.specs.Prelude.{◌≡◌, ℕ, List, IsTrue, IsFalse, IfOk, MatchResult, MatchOption, unwrap_or, codes, Some};
ghost use Rattle.bstr.specs.BStr.{bstr_bytes};
ghost use Rattle.gix_object_lines.specs.NameTest.{is_full_name};
ghost use Rattle.gix_ref_name.specs.Names.{name_of, part_of, printed};
ghost use Rattle.gix_ref_name.specs.Fronts.{IsLastPart};
ghost use Rattle.gix_ref_name.specs.Categories.{Tells, HasNoCategory, IsShortName};

use crate::category::{Category, category_of};
use crate::fullname::owned::FullName;
use crate::fullname::view::FullNameRef;
use crate::name::{InvalidName, PartialNameRef};
use bstr::BStr;
use gix_object_lines::ByteString;
use gix_object_lines::cut::rsplit_once;
use gix_object_lines::lines::is_full_name;
use std::alloc::{AllocError, Global};
use std::fmt;

impl<'a> FullNameRef<'a> {
    /// The view of these bytes; `InvalidName` if they break a rule of full names.
    pub fn new(bytes: &'a [u8]) -> Result<FullNameRef<'a>, InvalidName>
        ensures { MatchResult result
            (λ name. (name_of name ≡ bytes.now) × IsTrue (is_full_name bytes.now))
            (λ _. IsFalse (is_full_name bytes.now)) }
    {
        if is_full_name(bytes) {
            Ok(FullNameRef {
                bytes: BStr::new(bytes),
            })
        } else {
            Err(InvalidName)
        }
    }

    /// The bytes of the name.
    pub fn as_bstr(self) -> BStr<'a>
        ensures bytes { bstr_bytes result ≡ name_of self.entry }
        ensures full { IsTrue (is_full_name (bstr_bytes result)) }
    {
        self.bytes
    }

    /// The path, which has the bytes of the name.
    pub fn to_path(self) -> &'a [u8]
        ensures { result.now ≡ name_of self.entry }
    {
        self.bytes.as_bytes()
    }

    /// The name as a partial one, since each full name is one.
    pub fn as_partial_name(self) -> PartialNameRef<'a>
        ensures { part_of result ≡ name_of self.entry }
    {
        PartialNameRef { bytes: self.bytes }
    }

    /// The name's category and its short name; `None` if it has no category.
    pub fn category_and_short_name(self) -> Option<(Category<'a>, BStr<'a>)>
        ensures { MatchOption result (HasNoCategory (name_of self.entry))
            (λ found. Tells (name_of self.entry) found.0 (bstr_bytes found.1)) }
    {
        category_of(self.bytes.as_bytes())
    }

    /// The name's category; `None` if it has none.
    pub fn category(self) -> Option<Category<'a>>
        ensures { MatchOption result (HasNoCategory (name_of self.entry))
            (λ category. (short : List ℕ) × Tells (name_of self.entry) category short) }
    {
        let (category, _) = self.category_and_short_name()?;
        Some(category)
    }

    /// The short name, and the whole if the name has no category.
    pub fn shorten(self) -> BStr<'a>
        ensures { IsShortName (name_of self.entry) (bstr_bytes result) }
    {
        match self.category_and_short_name() {
            Some((_, short)) => short,
            None => self.bytes,
        }
    }

    /// The last component of the name.
    pub fn file_name(self) -> BStr<'a>
        ensures { IsLastPart (name_of self.entry) (bstr_bytes result) }
    {
        match rsplit_once(self.bytes.as_bytes(), b'/') {
            Some((_, last)) => BStr::new(last),
            None => self.bytes,
        }
    }

    /// A name that owns a copy of the bytes.
    pub fn to_owned(self, alloc: Global) -> Result<FullName, AllocError>
        ensures { IfOk result (λ name. name ≡ name_of self.entry) }
    {
        let bytes = ByteString::from_slice(alloc, self.bytes.as_bytes())?;
        Ok(FullName { bytes })
    }
}

impl<'a> TryFrom<&'a [u8]> for FullNameRef<'a> {
    type Error = InvalidName;

    ghost try_from_gives = { λ bytes r. MatchResult r
        (λ name. (name_of name ≡ bytes.now) × IsTrue (is_full_name bytes.now))
        (λ _. IsFalse (is_full_name bytes.now)) };

    fn try_from(bytes: &'a [u8]) -> Result<FullNameRef<'a>, InvalidName> {
        FullNameRef::new(bytes)
    }
}

impl<'a> TryFrom<&'a str> for FullNameRef<'a> {
    type Error = InvalidName;

    ghost try_from_gives = { λ text r. MatchResult r
        (λ name. (name_of name ≡ text.now) × IsTrue (is_full_name text.now))
        (λ _. IsFalse (is_full_name text.now)) };

    fn try_from(text: &'a str) -> Result<FullNameRef<'a>, InvalidName> {
        FullNameRef::new(text.as_bytes())
    }
}

impl fmt::Display for FullNameRef<'_> {
    ghost output = { λ name. Some (printed (name_of name)) };

    fn fmt<W: fmt::Write>(&self, f: &mut fmt::Formatter<W>) -> fmt::Result {
        fmt::Display::fmt(&self.bytes, f)
    }
}
