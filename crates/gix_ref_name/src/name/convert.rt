//! `From` and `TryFrom` to partial names of `ByteString`, `String`, `BStr` and owned names, which take no memory.

ghost use Rattle.std.specs.Prelude.{◌≡◌, IsTrue, IsFalse, MatchResult, string_bytes};
ghost use Rattle.bstr.specs.BStr.{bstr_bytes};
ghost use Rattle.gix_object_lines.specs.NameTest.{is_partial_name};
ghost use Rattle.gix_ref_name.specs.Names.{part_of};

use crate::fullname::FullName;
use crate::name::error::InvalidName;
use crate::name::partial::PartialName;
use crate::name::view::PartialNameRef;
use bstr::BStr;
use gix_object_lines::ByteString;

impl TryFrom<ByteString> for PartialName {
    type Error = InvalidName;

    ghost try_from_gives = { λ bytes r. MatchResult r
        (λ name. (name ≡ bytes) × IsTrue (is_partial_name bytes))
        (λ _. IsFalse (is_partial_name bytes)) };

    fn try_from(bytes: ByteString) -> Result<PartialName, InvalidName> {
        PartialName::new(bytes)
    }
}

impl TryFrom<String> for PartialName {
    type Error = InvalidName;

    ghost try_from_gives = { λ text r. MatchResult r
        (λ name. (name ≡ string_bytes text) × IsTrue (is_partial_name (string_bytes text)))
        (λ _. IsFalse (is_partial_name (string_bytes text))) };

    fn try_from(text: String) -> Result<PartialName, InvalidName> {
        PartialName::new(ByteString::new(text.into_bytes()))
    }
}

impl<'a> TryFrom<BStr<'a>> for PartialNameRef<'a> {
    type Error = InvalidName;

    ghost try_from_gives = { λ text r. MatchResult r
        (λ name. (part_of name ≡ bstr_bytes text) × IsTrue (is_partial_name (bstr_bytes text)))
        (λ _. IsFalse (is_partial_name (bstr_bytes text))) };

    fn try_from(text: BStr<'a>) -> Result<PartialNameRef<'a>, InvalidName> {
        PartialNameRef::new(text.as_bytes())
    }
}

impl<'a> TryFrom<&'a ByteString> for PartialNameRef<'a> {
    type Error = InvalidName;

    ghost try_from_gives = { λ bytes r. MatchResult r
        (λ name. (part_of name ≡ bytes.now) × IsTrue (is_partial_name bytes.now))
        (λ _. IsFalse (is_partial_name bytes.now)) };

    fn try_from(bytes: &'a ByteString) -> Result<PartialNameRef<'a>, InvalidName> {
        PartialNameRef::new(bytes.as_bytes())
    }
}

impl<'a> TryFrom<&'a String> for PartialNameRef<'a> {
    type Error = InvalidName;

    ghost try_from_gives = { λ text r. MatchResult r
        (λ name. (part_of name ≡ string_bytes text.now)
        × IsTrue (is_partial_name (string_bytes text.now)))
        (λ _. IsFalse (is_partial_name (string_bytes text.now))) };

    fn try_from(text: &'a String) -> Result<PartialNameRef<'a>, InvalidName> {
        PartialNameRef::new(text.as_bytes())
    }
}

impl<'a> From<&'a PartialName> for PartialNameRef<'a> {
    ghost from_gives = { λ name part. part_of part ≡ name.now };

    fn from(name: &'a PartialName) -> PartialNameRef<'a> {
        name.as_ref()
    }
}

impl<'a> From<&'a FullName> for PartialNameRef<'a> {
    ghost from_gives = { λ name part. part_of part ≡ name.now };

    fn from(name: &'a FullName) -> PartialNameRef<'a> {
        name.as_partial_name()
    }
}
