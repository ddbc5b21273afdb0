//! Octal texts of modes.

ghost use Rattle.std.specs.Prelude.{◌≡◌, ◌<◌, ◌≤◌, ◌^◌, false, drop, length, MatchOption, MatchResult};
ghost use Rattle.std.specs.Fmt.{digits, WritesOnOk};
ghost use Rattle.std.specs.Str.Parse.{IsNumeral, digits_value};
ghost use Rattle.bstr.specs.BStr.{bstr_bytes};
ghost use Rattle.std.specs.Char.{digit_value};
ghost use Rattle.gix_object_tree.specs.ModeText.{mode_of, mode_text, SpellsMode, SpellsNoMode, text_before};

use crate::tree::EntryMode;
use bstr::BStr;
use gix_object_lines::cut::split_once;
use std::convert::TryFrom;
use std::fmt;

impl EntryMode {
    /// The mode that the bytes before the first space spell, or all bytes if there is none: at most
    /// seven octal digits of a number of 16 bits. `None` if they spell none.
    pub fn from_bytes(bytes: &[u8]) -> Option<EntryMode>
        ensures { MatchOption result (SpellsNoMode (text_before 32 bytes.now))
            (λ mode. SpellsMode (text_before 32 bytes.now) (mode_of mode)) }
    {
        match split_once(bytes, b' ') {
            Some((text, _)) => read_mode(text),
            None => read_mode(bytes),
        }
    }

    /// The mode's octal digits without a zero before them, except for a tree's mode that was read
    /// with one.
    pub fn as_bytes<'b>(&self, backing: &'b mut [u8; 6]) -> BStr<'b>
        ensures text { bstr_bytes result ≡ mode_text (mode_of self.now) }
        ensures short { length (bstr_bytes result) ≤ 6 }
    {
        if self.padded {
            return BStr::new(b"040000");
        }
        let first = write_octal(self.value, backing);
        BStr::new(&backing[first..])
    }
}

// Bytes that spell no mode are the error.
impl<'a> TryFrom<&'a [u8]> for EntryMode {
    type Error = &'a [u8];

    ghost try_from_gives = { λ bytes r. MatchResult r
        (λ mode. SpellsMode (text_before 32 bytes.now) (mode_of mode))
        (λ back. (back ≡ bytes) × SpellsNoMode (text_before 32 bytes.now)) };

    fn try_from(bytes: &'a [u8]) -> Result<EntryMode, &'a [u8]> {
        match EntryMode::from_bytes(bytes) {
            Some(mode) => Ok(mode),
            None => Err(bytes),
        }
    }
}

impl fmt::Octal for EntryMode {
    /// Writes the text of `as_bytes`.
    fn fmt<W: fmt::Write>(&self, f: &mut fmt::Formatter<W>) -> fmt::Result
        ensures { WritesOnOk W.write_str_gives f.old result (mode_text (mode_of self.now)) f.new }
    {
        if self.padded {
            return f.write_str("040000");
        }
        fmt::Octal::fmt(&self.value, f)
    }
}

/// The mode that the text spells.
pub(crate) fn read_mode(text: &[u8]) -> Option<EntryMode>
    ensures { MatchOption result (SpellsNoMode text.now)
        (λ mode. SpellsMode text.now (mode_of mode)) }
{
    if text.len() > 7 {
        return None;
    }
    let value = read_octal(text)?;
    Some(EntryMode {
        value,
        padded: value == 0o040000 && text[0] == b'0',
    })
}

// The number of 16 bits that octal digits write.
fn read_octal(text: &[u8]) -> Option<u16>
    ensures { MatchOption result (IsNumeral 8 text.now → 2 ^ 16 ≤ digits_value 8 text.now)
        (λ number. IsNumeral 8 text.now × (digits_value 8 text.now ≡ number) × (number < 2 ^ 16)) }
{
    if text.is_empty() {
        return None;
    }
    let mut number: u32 = 0;
    for byte in text {
        number = number * 8 + octal_digit(*byte)?;
        if number > 0o177777 {
            return None;
        }
    }
    Some(number as u16)
}

fn octal_digit(byte: u8) -> Option<u32>
    ensures { MatchOption result (8 ≤ digit_value byte)
        (λ digit. (digit ≡ digit_value byte) × (digit < 8)) }
{
    match byte {
        b'0'..=b'7' => Some((byte - b'0') as u32),
        _ => None,
    }
}

// Writes the number's octal digits at the end of the bytes, and returns where they begin.
fn write_octal(number: u16, bytes: &mut [u8; 6]) -> usize
    ensures within { result ≤ 6 }
    ensures digits { drop result bytes.new ≡ digits 8 false number }
{
    let mut rest = number;
    let mut at = 6;
    'digits: while at > 1 {
        at -= 1;
        bytes[at] = b'0' + (rest % 8) as u8;
        rest /= 8;
        if rest == 0 {
            return at;
        }
    }
    bytes[0] = b'0' + (rest % 8) as u8;
    0
}
