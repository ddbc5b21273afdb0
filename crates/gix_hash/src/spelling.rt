//! Digits as text, in buffers of a fixed size.

ghost use Rattle.std.specs.Prelude.{◌≡◌, ◌≤◌, ◌*◌, ℕ, List, length, take};
ghost use Rattle.std.specs.Str.{IsAscii};
ghost use Rattle.gix_hash.specs.Id.{digits_of};
ghost use Rattle.gix_hash.specs.Spelling.{hex_text};

use std::str;

/// The bytes' digits in lower-case hexadecimal, at the start of a buffer.
pub fn hex_digits(bytes: &[u8]) -> [u8; 64]
    requires { length bytes.now ≤ 32 }
    ensures { take (2 * length bytes.now) result ≡ hex_text (digits_of bytes.now) }
{
    let mut digits = [0u8; 64];
    let _ = hex::encode_to_slice(bytes, &mut digits[..2 * bytes.len()]);
    digits
}

/// Copies ASCII text to the start of a buffer.
pub fn written<'b>(text: &[u8], buffer: &'b mut [u8]) -> &'b str
    requires fits { length text.now ≤ length buffer.old }
    requires ascii { IsAscii text.now }
    ensures { result.now ≡ text.now }
{
    buffer[..text.len()].copy_from_slice(text);
    unsafe { str::from_utf8_unchecked(&buffer[..text.len()]) }
}
