//! Full names of references.

ghost use Rattle.std.specs.Prelude.{◌≡◌, ◌↔◌, IsTrue, All, Contains};
ghost use Rattle.gix_object_lines.specs.FullName.{IsCapital, IsFullName};
ghost use Rattle.gix_object_lines.specs.NameTest as test;

use crate::lines::name::is_partial_name;

/// Returns whether the bytes are a full name of a reference: a partial name of two components or
/// more, as `refs/heads/main`, or one of capital letters and `_` alone, as `HEAD`.
pub fn is_full_name(name: &[u8]) -> bool
    ensures ruled { IsTrue result ↔ IsFullName name.now }
    ensures tested { result ≡ test.is_full_name name.now }
{
    is_partial_name(name) && (has_slash(name) || is_capitals(name))
}

fn has_slash(name: &[u8]) -> bool
    ensures ruled { IsTrue result ↔ Contains name.now 47 }
    ensures tested { result ≡ test.has_slash name.now }
{
    name.contains(&b'/')
}

/// Returns whether the bytes are capital letters and `_` alone, as those of `HEAD` and `FETCH_HEAD`
/// are.
pub fn is_capitals(name: &[u8]) -> bool
    ensures ruled { IsTrue result ↔ All IsCapital name.now }
    ensures tested { result ≡ test.is_capitals name.now }
{
    name.iter().all(|byte| is_capital(*byte))
}

fn is_capital(byte: u8) -> bool
    ensures ruled { IsTrue result ↔ IsCapital byte }
    ensures tested { result ≡ test.is_capital byte }
{
    (b'A' <= byte && byte <= b'Z') || byte == b'_'
}
