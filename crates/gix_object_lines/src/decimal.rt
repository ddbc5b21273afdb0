//! Decimal numbers of headers.
//!
//! A time's may be negative and begin with zeros: `lines` reads them.

ghost use Rattle.std.specs.Prelude.{◌≡◌, ◌<◌, decimal, MatchOption};
ghost use Rattle.gix_object_lines.specs.Decimal.{IsNoUnsigned};
ghost use Rattle.gix_object_lines.specs.Time.{two_digits};

/// The number that the digits spell: without a sign or a leading zero (`0` alone is zero), and at
/// most 18,446,744,073,709,551,615. `None` if they spell none.
pub fn read_unsigned(text: &[u8]) -> Option<u64>
    ensures { MatchOption result (IsNoUnsigned text.now) (λ n. text.now ≡ decimal n) }
{
    let number: u64 = str::from_utf8(text).ok()?.parse().ok()?;
    let mut digits = itoa::Buffer::new();
    if digits.format(number).as_bytes() == text {
        Some(number)
    } else {
        None
    }
}

/// The two digits of a number below 100.
pub fn two_digits(n: u8) -> [u8; 2]
    requires { n < 100 }
    ensures { result ≡ two_digits n }
{
    [b'0' + n / 10, b'0' + n % 10]
}
