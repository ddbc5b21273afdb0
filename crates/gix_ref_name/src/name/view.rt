//! Views of partial names: the type itself, apart from what the contracts say of it.

ghost use Rattle.std.specs.Prelude.{IsTrue};
ghost use Rattle.bstr.specs.BStr.{bstr_bytes};
ghost use Rattle.gix_object_lines.specs.NameTest.{is_partial_name};

use bstr::BStr;

/// A view of the bytes of a name that may be completed, as `main` or `refs/heads/main`. Views are
/// ordered by their bytes.
#[derive(Debug, Clone, Copy, PartialEq, Eq, PartialOrd, Ord, Hash)]
pub struct PartialNameRef<'a> {
    pub(crate) bytes: BStr<'a>,
    ghost partial: { IsTrue (is_partial_name (bstr_bytes bytes)) },
}
