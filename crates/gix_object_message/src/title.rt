//! Where the title of a message ends.

ghost use Rattle.std.specs.Prelude.{◌≡◌};
ghost use Rattle.gix_object_message.specs.Title.{title_of, behind_title, PartsMessage};

use memchr::memmem;

/// The title of a message, and what follows the empty line after it: all before the first LF LF or
/// CR LF CR LF, and all after that. Without such a line all is title.
pub(crate) fn split_title(message: &[u8]) -> (&[u8], &[u8])
    ensures title { result.0.now ≡ title_of message.now }
    ensures rest { result.1.now ≡ behind_title message.now }
    ensures parts { PartsMessage message.now result.0.now result.1.now }
{
    let short = memmem::find(message, b"\n\n");
    let long = memmem::find(message, b"\r\n\r\n");
    match (short, long) {
        (Some(short), Some(long)) => {
            if short < long {
                (&message[..short], &message[short + 2..])
            } else {
                (&message[..long], &message[long + 4..])
            }
        }
        (Some(short), None) => (&message[..short], &message[short + 2..]),
        (None, Some(long)) => (&message[..long], &message[long + 4..]),
        (None, None) => (message, &[]),
    }
}
