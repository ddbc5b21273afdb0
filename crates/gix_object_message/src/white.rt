//! White space: space, tab, LF, form feed and CR.

ghost use Rattle.std.specs.Prelude.{◌≡◌};
ghost use Rattle.gix_object_message.specs.White.{trim, trim_end};

/// The text without white space at its ends.
pub(crate) fn trim(text: &[u8]) -> &[u8]
    ensures value { result.now ≡ trim text.now }
    ensures bare { trim_end result.now ≡ result.now }
{
    text.trim_ascii_start().trim_ascii_end()
}

/// The text without white space at its end.
pub(crate) fn trim_end(text: &[u8]) -> &[u8]
    ensures { result.now ≡ trim_end text.now }
{
    text.trim_ascii_end()
}
