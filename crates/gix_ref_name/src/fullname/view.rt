//! Views of full names: the type itself, apart from what the contracts say of it.

ghost use Rattle.std.specs.Prelude.{IsTrue};
ghost use Rattle.bstr.specs.BStr.{bstr_bytes};
ghost use Rattle.gix_object_lines.specs.NameTest.{is_full_name};

use bstr::BStr;

/// A view of the bytes of a full name, as `refs/heads/main` or `HEAD`. Views are ordered by their
/// bytes.
#[derive(Debug, Clone, Copy, PartialEq, Eq, PartialOrd, Ord, Hash)]
pub struct FullNameRef<'a> {
    pub(crate) bytes: BStr<'a>,
    ghost full: { IsTrue (is_full_name (bstr_bytes bytes)) },
}
