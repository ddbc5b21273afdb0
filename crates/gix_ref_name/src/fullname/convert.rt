//! `From` and `TryFrom` between full names and `ByteString`, `String` and `BStr`, which take no memory.

ghost use Rattle.std.specs.Prelude.{◌≡◌, IsTrue, IsFalse, MatchResult, string_bytes};
ghost use Rattle.bstr.specs.BStr.{bstr_bytes};
ghost use Rattle.gix_object_lines.specs.NameTest.{is_full_name};
ghost use Rattle.gix_ref_name.specs.Names.{name_of};

use crate::fullname::owned::FullName;
use crate::fullname::view::FullNameRef;
use crate::name::InvalidName;
use bstr::BStr;
use gix_object_lines::ByteString;

impl TryFrom<ByteString> for FullName {
    type Error = InvalidName;

    ghost try_from_gives = { λ bytes r. MatchResult r
        (λ name. (name ≡ bytes) × IsTrue (is_full_name bytes))
        (λ _. IsFalse (is_full_name bytes)) };

    fn try_from(bytes: ByteString) -> Result<FullName, InvalidName> {
        FullName::new(bytes)
    }
}

impl TryFrom<String> for FullName {
    type Error = InvalidName;

    ghost try_from_gives = { λ text r. MatchResult r
        (λ name. (name ≡ string_bytes text) × IsTrue (is_full_name (string_bytes text)))
        (λ _. IsFalse (is_full_name (string_bytes text))) };

    fn try_from(text: String) -> Result<FullName, InvalidName> {
        FullName::new(ByteString::new(text.into_bytes()))
    }
}

impl From<FullName> for ByteString {
    ghost from_gives = { λ name bytes. bytes ≡ name };

    fn from(name: FullName) -> ByteString {
        name.into_inner()
    }
}

impl<'a> TryFrom<BStr<'a>> for FullNameRef<'a> {
    type Error = InvalidName;

    ghost try_from_gives = { λ text r. MatchResult r
        (λ name. (name_of name ≡ bstr_bytes text) × IsTrue (is_full_name (bstr_bytes text)))
        (λ _. IsFalse (is_full_name (bstr_bytes text))) };

    fn try_from(text: BStr<'a>) -> Result<FullNameRef<'a>, InvalidName> {
        FullNameRef::new(text.as_bytes())
    }
}

impl<'a> TryFrom<&'a String> for FullNameRef<'a> {
    type Error = InvalidName;

    ghost try_from_gives = { λ text r. MatchResult r
        (λ name. (name_of name ≡ string_bytes text.now)
        × IsTrue (is_full_name (string_bytes text.now)))
        (λ _. IsFalse (is_full_name (string_bytes text.now))) };

    fn try_from(text: &'a String) -> Result<FullNameRef<'a>, InvalidName> {
        FullNameRef::new(text.as_bytes())
    }
}

impl<'a> From<FullNameRef<'a>> for BStr<'a> {
    ghost from_gives = { λ name text. bstr_bytes text ≡ name_of name };

    fn from(name: FullNameRef<'a>) -> BStr<'a> {
        name.as_bstr()
    }
}
