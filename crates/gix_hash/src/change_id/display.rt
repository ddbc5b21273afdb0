//! What prints in reverse hexadecimal.

ghost use Rattle.std.specs.Prelude.{◌≡◌, ℕ, List, ◌∷◌, [], length, take, Some, IsTrue, ◌↔◌};
ghost use Rattle.gix_hash.specs.ReverseDisplays.{shown_reverse_hex};

use crate::change_id::spelling::reverse_hex_digits;
use crate::oid;
use crate::spelling::written;
use std::fmt;

/// The first digits of an id in reverse hexadecimal, as `{}` prints them.
#[derive(Debug, Clone, Copy, PartialEq, Eq, PartialOrd, Ord, Hash)]
pub struct ReverseHexDisplay<'a> {
    pub(crate) inner: oid<'a>,
    pub(crate) hex_len: usize,
}

impl ReverseHexDisplay<'_> {
    /// Returns whether it prints this text.
    pub fn eq_str(&self, text: &str) -> bool
        ensures { IsTrue result ↔ (shown_reverse_hex self.now ≡ text.now) }
    {
        self.eq_bytes(text.as_bytes())
    }

    // Returns whether it prints these bytes.
    pub(crate) fn eq_bytes(&self, text: &[u8]) -> bool
        ensures { IsTrue result ↔ (shown_reverse_hex self.now ≡ text.now) }
    {
        let mut buffer = [0u8; 64];
        self.shown(&mut buffer).as_bytes() == text
    }

    fn shown<'b>(&self, buffer: &'b mut [u8; 64]) -> &'b str
        ensures { result.now ≡ shown_reverse_hex self.now }
    {
        let bytes = self.inner.as_bytes();
        let digits = reverse_hex_digits(bytes);
        written(&digits[..self.hex_len.min(2 * bytes.len())], buffer)
    }
}

impl fmt::Display for ReverseHexDisplay<'_> {
    ghost output = { λ d. Some (shown_reverse_hex d) };

    fn fmt<W: fmt::Write>(&self, f: &mut fmt::Formatter<W>) -> fmt::Result {
        let mut buffer = [0u8; 64];
        f.write_str(self.shown(&mut buffer))
    }
}
