//! The digits of a time.

ghost use Rattle.std.specs.Prelude.{ℕ, ℤ, [], ◌∷◌, ◌++◌, ◌≡◌, ◌≢◌, ◌<◌, MatchOption, FitsSigned};
ghost use Rattle.std.specs.Int.{w64};
ghost use Rattle.gix_object_lines.specs.Time.{SpellsSeconds, SpellsOffset, IsSpellableOffset, two_digits, offset_text};
ghost use Rattle.gix_object_lines.specs.Clock.{SpellsClock};

use crate::decimal::two_digits;

const SECONDS_PER_MINUTE: u32 = 60;

const SECONDS_PER_HOUR: u32 = 3_600;

/// Digits, perhaps after a `-`, as a number of 64 bits.
pub(crate) fn read_seconds(text: &[u8]) -> Option<i64>
    ensures { MatchOption result
        ((seconds : ℤ) → FitsSigned w64 seconds → ¬ SpellsSeconds text.now seconds)
        (λ seconds. SpellsSeconds text.now seconds) }
{
    // `parse` reads a `+` too.
    if text.starts_with(b"+") {
        return None;
    }
    std::str::from_utf8(text).ok()?.parse::<i64>().ok()
}

/// A sign, two digits of hours and two of minutes, in seconds.
pub(crate) fn read_offset(text: &[u8]) -> Option<i32>
    ensures { MatchOption result ((offset : ℤ) → ¬ SpellsOffset text.now offset)
        (λ offset. SpellsOffset text.now offset) }
{
    let &[sign, a, b, c, d] = text else {
        return None;
    };
    let amount = read_clock(a, b, c, d)?;
    match sign {
        b'+' => Some(amount),
        b'-' => Some(-amount),
        _ => None,
    }
}

// Two digits of hours and two of minutes, in seconds.
fn read_clock(a: u8, b: u8, c: u8, d: u8) -> Option<i32>
    ensures { MatchOption result
        ((hours minutes : ℕ) → hours < 100 → minutes < 100
        → a ∷ b ∷ c ∷ d ∷ [] ≢ two_digits hours ++ two_digits minutes)
        (λ amount. SpellsClock (a ∷ b ∷ c ∷ d ∷ []) amount) }
{
    let hours = read_two_digits(a, b)?;
    let minutes = read_two_digits(c, d)?;
    Some((SECONDS_PER_HOUR * u32::from(hours) + SECONDS_PER_MINUTE * u32::from(minutes)) as i32)
}

fn read_two_digits(tens: u8, ones: u8) -> Option<u8>
    ensures { MatchOption result ((n : ℕ) → n < 100 → tens ∷ ones ∷ [] ≢ two_digits n)
        (λ n. (n < 100) × (tens ∷ ones ∷ [] ≡ two_digits n)) }
{
    if tens.is_ascii_digit() && ones.is_ascii_digit() {
        Some(10 * (tens - b'0') + (ones - b'0'))
    } else {
        None
    }
}

/// The sign, hours and minutes of an offset in seconds; `None` if it isn't whole minutes below 100
/// hours.
pub(crate) fn spell_offset(offset: i32) -> Option<[u8; 5]>
    ensures { MatchOption result (¬ IsSpellableOffset offset)
        (λ text. (text ≡ offset_text offset) × IsSpellableOffset offset) }
{
    let amount = offset.unsigned_abs();
    if amount % SECONDS_PER_MINUTE != 0 || amount >= 100 * SECONDS_PER_HOUR {
        return None;
    }
    let sign = if offset < 0 { b'-' } else { b'+' };
    let hours = amount / SECONDS_PER_HOUR;
    let minutes = (amount - SECONDS_PER_HOUR * hours) / SECONDS_PER_MINUTE;
    let [a, b] = two_digits(hours as u8);
    let [c, d] = two_digits(minutes as u8);
    Some([sign, a, b, c, d])
}
