//! Where a text's signature begins.

ghost use Rattle.std.specs.Prelude.{IsTrue, IsFalse, MatchOption};
ghost use Rattle.gix_object_signature.specs.Armor.{BeginsArmor, BeginsNoArmor};
ghost use Rattle.gix_object_signature.specs.declared.format.Format.{Format};
ghost use Rattle.gix_object_tag.specs.Signature.{IsSigned, IsUnsigned};

use gix_object_signature::Format;
use memchr::memrchr;

/// Cuts a text where its signature begins: at the last armor at a line's start. `None` if it has
/// none.
pub(crate) fn split_signature(text: &[u8]) -> Option<(&[u8], &[u8])>
    ensures { MatchOption result (IsUnsigned text.now)
        (λ cut. IsSigned text.now cut.0.now cut.1.now) }
{
    let mut end = text.len();
    'lines: while let Some(line_feed) = memrchr(b'\n', &text[..end]) {
        if begins_armor(&text[line_feed + 1..]) {
            return Some(text.split_at(line_feed + 1));
        }
        end = line_feed;
    }
    if begins_armor(text) {
        return Some(text.split_at(0));
    }
    None
}

fn begins_armor(text: &[u8]) -> bool
    ensures yes { IsTrue result → (format : Format) × BeginsArmor text.now format }
    ensures no { IsFalse result → BeginsNoArmor text.now }
{
    Format::from_signature(text).is_some()
}
