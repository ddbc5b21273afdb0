//! Names of references.

ghost use Rattle.std.specs.Prelude.{◌≡◌, ◌↔◌, ◌⊎◌, IsTrue, Any, Contains, codes};
ghost use Rattle.gix_object_lines.specs.Bytes.{IsBeginningOf};
ghost use Rattle.gix_object_lines.specs.PartialName.{EndsWith, Holds, IsBarred, IsPartialName};
ghost use Rattle.gix_object_lines.specs.NameTest as test;

use memchr::memmem;

/// Returns whether the bytes are a name of a reference, whole or a part that is completed by rules,
/// as `main` is.
///
/// Its components are separated by single slashes; none begins with `.` or ends with `.lock`. It
/// isn't empty nor `@`, doesn't end with `.`, and holds no `..`, no `@{`, no byte below 32, no byte
/// 127, no space and none of `~ ^ : ? * [ \`.
pub fn is_partial_name(name: &[u8]) -> bool
    ensures ruled { IsTrue result ↔ IsPartialName name.now }
    ensures tested { result ≡ test.is_partial_name name.now }
{
    obeys_rules(name)
}

fn obeys_rules(name: &[u8]) -> bool
    ensures { IsTrue result ↔ IsPartialName name.now }
{
    if name.is_empty() {
        return false;
    }
    if name == b"@".as_slice() {
        return false;
    }
    if has_barred_start(name) {
        return false;
    }
    if has_barred_end(name) {
        return false;
    }
    if holds_barred_edge(name) {
        return false;
    }
    if holds_double(name) {
        return false;
    }
    if holds(name, b"@{") {
        return false;
    }
    !holds_barred_byte(name)
}

fn has_barred_start(name: &[u8]) -> bool
    ensures { IsTrue result
        ↔ (IsBeginningOf (codes ".") name.now ⊎ IsBeginningOf (codes "/") name.now) }
{
    name.starts_with(b".") || name.starts_with(b"/")
}

fn has_barred_end(name: &[u8]) -> bool
    ensures { IsTrue result
        ↔ (EndsWith (codes ".lock") name.now
        ⊎ (EndsWith (codes ".") name.now ⊎ EndsWith (codes "/") name.now)) }
{
    if ends_with(name, b".lock") {
        return true;
    }
    ends_with(name, b".") || ends_with(name, b"/")
}

fn ends_with(name: &[u8], back: &[u8]) -> bool
    ensures { IsTrue result ↔ EndsWith back.now name.now }
{
    name.ends_with(back)
}

// Returns whether some component but the first begins with a dot, or one but the last ends with
// `.lock`.
fn holds_barred_edge(name: &[u8]) -> bool
    ensures { IsTrue result ↔ (Holds (codes "/.") name.now ⊎ Holds (codes ".lock/") name.now) }
{
    holds(name, b"/.") || holds(name, b".lock/")
}

fn holds_double(name: &[u8]) -> bool
    ensures { IsTrue result ↔ (Holds (codes "..") name.now ⊎ Holds (codes "//") name.now) }
{
    holds(name, b"..") || holds(name, b"//")
}

fn holds(name: &[u8], part: &[u8]) -> bool
    ensures { IsTrue result ↔ Holds part.now name.now }
{
    memmem::find(name, part).is_some()
}

fn holds_barred_byte(name: &[u8]) -> bool
    ensures { IsTrue result ↔ Any IsBarred name.now }
{
    name.iter().any(|byte| is_barred(*byte))
}

fn is_barred(byte: u8) -> bool
    ensures { IsTrue result ↔ IsBarred byte }
{
    byte < b' ' || byte == 127 || is_mark(byte)
}

fn is_mark(byte: u8) -> bool
    ensures { IsTrue result ↔ Contains (codes " ~^:?*[\\") byte }
{
    b" ~^:?*[\\".contains(&byte)
}
