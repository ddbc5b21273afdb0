//! What an id prints as.

ghost use Rattle.std.specs.Prelude.{◌≡◌, ℕ, List, ◌∷◌, [], length, take, Some, IsTrue, ◌↔◌};
ghost use Rattle.gix_hash.specs.Displays.{shown_hex};

use crate::oid;
use crate::spelling::{hex_digits, written};
use std::fmt;

/// The first digits of an id in lower-case hexadecimal, as `{}` prints them.
#[derive(Debug, Clone, Copy, PartialEq, Eq, PartialOrd, Ord, Hash)]
pub struct HexDisplay<'a> {
    pub(crate) inner: oid<'a>,
    pub(crate) hex_len: usize,
}

impl HexDisplay<'_> {
    /// Returns whether it prints this text.
    pub fn eq_str(&self, text: &str) -> bool
        ensures { IsTrue result ↔ (shown_hex self.now ≡ text.now) }
    {
        let mut buffer = [0u8; 64];
        self.shown(&mut buffer) == text
    }

    fn shown<'b>(&self, buffer: &'b mut [u8; 64]) -> &'b str
        ensures { result.now ≡ shown_hex self.now }
    {
        let bytes = self.inner.as_bytes();
        let digits = hex_digits(bytes);
        written(&digits[..self.hex_len.min(2 * bytes.len())], buffer)
    }
}

impl fmt::Display for HexDisplay<'_> {
    ghost output = { λ d. Some (shown_hex d) };

    fn fmt<W: fmt::Write>(&self, f: &mut fmt::Formatter<W>) -> fmt::Result {
        let mut buffer = [0u8; 64];
        f.write_str(self.shown(&mut buffer))
    }
}
