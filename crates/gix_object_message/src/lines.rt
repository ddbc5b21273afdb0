//! Lines of bytes.

ghost use Rattle.std.specs.Prelude.{◌≡◌, ◌++◌, [], ◌∷◌, length, ◌<◌, MatchOption};
ghost use Rattle.gix_object_message.specs.Lines.{lines_of, is_empty_line};

use memchr::memchr;

/// The first line, with its line feed, and what follows; `None` if nothing is left.
pub(crate) fn split_line(text: &[u8]) -> Option<(&[u8], &[u8])>
    ensures { MatchOption result (text.now ≡ [])
        (λ cut. (text.now ≡ cut.0.now ++ cut.1.now) × (0 < length cut.0.now)
        × (lines_of text.now ≡ cut.0.now ∷ lines_of cut.1.now)) }
{
    if text.is_empty() {
        return None;
    }
    match memchr(b'\n', text) {
        Some(at) => Some(text.split_at(at + 1)),
        None => Some((text, &[])),
    }
}

/// Returns whether a line is nothing but its end, LF or CR LF.
pub(crate) fn is_empty_line(line: &[u8]) -> bool
    ensures { result ≡ is_empty_line line.now }
{
    line == b"\n".as_slice() || line == b"\r\n".as_slice()
}
