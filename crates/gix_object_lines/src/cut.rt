//! Cuts of bytes at a byte, after a front and before a back.

ghost use Rattle.std.specs.Prelude.{ℕ, List, ◌≡◌, ◌≢◌, ◌++◌, ◌∷◌, ◌↔◌, IsTrue, MatchOption};
ghost use Rattle.gix_object_lines.specs.Bytes.{IsBeginningOf, Lacks};

use memchr::{memchr, memrchr};

/// The bytes before and after the first byte of this value; `None` if there is none.
pub fn split_once(bytes: &[u8], byte: u8) -> Option<(&[u8], &[u8])>
    ensures { MatchOption result (Lacks byte bytes.now)
        (λ cut. (bytes.now ≡ cut.0.now ++ byte ∷ cut.1.now) × Lacks byte cut.0.now) }
{
    let at = memchr(byte, bytes)?;
    Some((&bytes[..at], &bytes[at + 1..]))
}

/// The bytes before and after the last byte of this value; `None` if there is none.
pub fn rsplit_once(bytes: &[u8], byte: u8) -> Option<(&[u8], &[u8])>
    ensures { MatchOption result (Lacks byte bytes.now)
        (λ cut. (bytes.now ≡ cut.0.now ++ byte ∷ cut.1.now) × Lacks byte cut.1.now) }
{
    let at = memrchr(byte, bytes)?;
    Some((&bytes[..at], &bytes[at + 1..]))
}

/// The bytes after this front; `None` if they don't begin with it.
pub fn strip_prefix<'a>(bytes: &'a [u8], front: &[u8]) -> Option<&'a [u8]>
    ensures { MatchOption result ((rest : List ℕ) → bytes.now ≢ front.now ++ rest)
        (λ rest. bytes.now ≡ front.now ++ rest.now) }
{
    bytes.strip_prefix(front)
}

/// The bytes after this word and a space; `None` if they don't begin with both.
pub fn strip_word<'a>(bytes: &'a [u8], word: &[u8]) -> Option<&'a [u8]>
    ensures { MatchOption result ((rest : List ℕ) → bytes.now ≢ word.now ++ 32 ∷ rest)
        (λ rest. bytes.now ≡ word.now ++ 32 ∷ rest.now) }
{
    let rest = strip_prefix(bytes, word)?;
    strip_prefix(rest, b" ")
}

/// The bytes before this back; `None` if they don't end with it.
pub fn strip_suffix<'a>(bytes: &'a [u8], back: &[u8]) -> Option<&'a [u8]>
    ensures { MatchOption result ((rest : List ℕ) → bytes.now ≢ rest ++ back.now)
        (λ rest. bytes.now ≡ rest.now ++ back.now) }
{
    bytes.strip_suffix(back)
}

/// Returns whether no byte has this value.
pub fn lacks(bytes: &[u8], byte: u8) -> bool
    ensures { IsTrue result ↔ Lacks byte bytes.now }
{
    memchr(byte, bytes).is_none()
}

/// Returns whether the bytes begin with this front.
pub fn starts_with(bytes: &[u8], front: &[u8]) -> bool
    ensures { IsTrue result ↔ IsBeginningOf front.now bytes.now }
{
    strip_prefix(bytes, front).is_some()
}
