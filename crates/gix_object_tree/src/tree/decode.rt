//! Reading one entry.

ghost use Rattle.std.specs.Prelude.{◌<◌, ℕ, List, length, IsOk, IfOk, IfErr};
ghost use Rattle.gix_object_tree.specs.Entry.{Item, item_of, SpellsEntry, EntryFault};

use crate::tree::EntryRef;
use crate::tree::mode_text::read_mode;
use bstr::BStr;
use gix_hash::{Kind, oid};
use gix_object_lines::cut::split_once;
use gix_object_lines::decode::Error;

/// The entry that begins the input, and what follows it. Returns `FieldName` if no mode and space
/// begin it, `LineEnd` if no zero byte ends the name, and `HexDigits` if fewer bytes follow than an
/// id has.
pub(crate) fn read_entry(input: &[u8], hash_kind: Kind) -> Result<(EntryRef<'_>, &[u8]), Error>
    ensures read { IfOk result
        (λ read. SpellsEntry hash_kind input.now (item_of read.0) read.1.now) }
    ensures shorter { IfOk result (λ read. length read.1.now < length input.now) }
    ensures every { (item : Item) (rest : List ℕ) → SpellsEntry hash_kind input.now item rest
        → IsOk result }
    ensures refused { IfErr result (λ error. EntryFault hash_kind input.now error) }
{
    let (text, rest) = split_once(input, b' ').ok_or(Error::FieldName)?;
    let mode = read_mode(text).ok_or(Error::FieldName)?;
    let (filename, rest) = split_once(rest, 0).ok_or(Error::LineEnd)?;
    let (id, rest) = rest
        .split_at_checked(hash_kind.len_in_bytes())
        .ok_or(Error::HexDigits)?;
    let entry = EntryRef {
        mode,
        filename: BStr::new(filename),
        oid: oid::from_bytes_unchecked(id),
    };
    Ok((entry, rest))
}
