//! Digits as text in reverse hexadecimal, in buffers of a fixed size.

ghost use Rattle.std.specs.Prelude.{◌≡◌, ◌≤◌, ◌*◌, ◌-◌, ℕ, List, length, take, drop, map, replicate, MatchOption, Any, None};
ghost use Rattle.hex.specs.Hex.{hex_digit_value};
ghost use Rattle.gix_hash.specs.Id.{digits_of};
ghost use Rattle.gix_hash.specs.ReverseSpelling.{reverse_hex_text, reverse_digit_value};

/// The bytes' digits in reverse hexadecimal, at the start of a buffer.
pub(crate) fn reverse_hex_digits(bytes: &[u8]) -> [u8; 64]
    requires { length bytes.now ≤ 32 }
    ensures { take (2 * length bytes.now) result ≡ reverse_hex_text (digits_of bytes.now) }
{
    let mut digits = [0u8; 64];
    'bytes: for i in 0..bytes.len() {
        let byte = bytes[i];
        digits[2 * i] = b'z' - byte / 16;
        digits[2 * i + 1] = b'z' - byte % 16;
    }
    digits
}

const HEX_CHARACTERS: &[u8; 16] = b"0123456789abcdef";

// The value of a reverse digit, in either letter case.
fn reverse_digit(letter: u8) -> Option<u8>
    ensures { result ≡ reverse_digit_value letter }
{
    match letter {
        b'k'..=b'z' => Some(b'z' - letter),
        b'K'..=b'Z' => Some(b'Z' - letter),
        _ => None,
    }
}

/// The hexadecimal text, with zeros after it, of the digits that a text of at most 64 reverse
/// digits spells: `None` if a character is no reverse digit.
pub(crate) fn hex_from_reverse(letters: &[u8]) -> Option<[u8; 64]>
    requires { length letters.now ≤ 64 }
    ensures { MatchOption result (Any (λ c. reverse_digit_value c ≡ None) letters.now)
        (λ text.
        (map hex_digit_value (take (length letters.now) text)
        ≡ map reverse_digit_value letters.now)
        × (drop (length letters.now) text ≡ replicate (64 - length letters.now) 48)) }
{
    let mut text = [b'0'; 64];
    'letters: for i in 0..letters.len() {
        text[i] = HEX_CHARACTERS[reverse_digit(letters[i])? as usize];
    }
    Some(text)
}
