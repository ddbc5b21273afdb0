//! The first line of a text and what follows it, and a line without its line feed or CR LF.

ghost use Rattle.std.specs.Prelude.{◌≡◌, ◌≢◌, ◌∷◌, [], ◌++◌, ◌<◌, length};
ghost use Rattle.std.specs.Option.{option_map};
ghost use Rattle.gix_ref_format.specs.Lines.{without_last, cut_line, lines};

use gix_object_lines::cut::split_once;

/// The first line, with the line feed that ends it if one does, and what follows it.
pub(crate) fn split_line(text: &[u8]) -> (&[u8], &[u8])
    requires { text.now ≢ [] }
    ensures lines { lines text.now ≡ result.0.now ∷ lines result.1.now }
    ensures whole { text.now ≡ result.0.now ++ result.1.now }
    ensures shorter { length result.1.now < length text.now }
{
    match split_once(text, b'\n') {
        Some((line, _)) => text.split_at(line.len() + 1),
        None => (text, b""),
    }
}

/// The text without this byte at its end, if it ends so.
pub(crate) fn strip_last(text: &[u8], byte: u8) -> &[u8]
    ensures { result.now ≡ without_last byte text.now }
{
    if text.ends_with(&[byte]) {
        &text[..text.len() - 1]
    } else {
        text
    }
}

/// The text of a line without its end, a line feed or CR LF; `None` if no line feed ends it.
pub(crate) fn text_of_line(line: &[u8]) -> Option<&[u8]>
    ensures { option_map (λ text. text.now) result ≡ cut_line line.now }
{
    if line.ends_with(b"\n") {
        Some(strip_last(&line[..line.len() - 1], b'\r'))
    } else {
        None
    }
}
