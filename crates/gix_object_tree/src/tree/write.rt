//! Writing trees.

ghost use Rattle.std.specs.Prelude.{◌≡◌, ◌≤◌, ◌+◌, ◌^◌, None, MatchOption, length, map};
ghost use Rattle.gix_object_lines.specs.Writes.{Writes};
ghost use Rattle.gix_object_lines.specs.declared.kind.Kind.TheVariants.{Tree as TreeKind};
ghost use Rattle.gix_object_tree.specs.Entry.{item_of, own_item};
ghost use Rattle.gix_object_tree.specs.Writing.{entry_text, tree_text, tree_refusal};
ghost use Rattle.std.specs.Prelude.{[], ◌∷◌};

use crate::tree::entry::AsEntry;
use crate::tree::{EntryRef, Tree, TreeRef};
use gix_object_lines::write::{Error, FilenameError, write_parts};
use gix_object_lines::{Kind, WriteTo};
use std::io;

// The entries are written in their own order. The error is `NullbyteInFilename` if a name holds a
// zero byte.
impl<'a> WriteTo for TreeRef<'a> {
    ghost text = { λ tree. tree_text (map item_of tree.entries.items) };

    ghost refusal = { λ tree. tree_refusal (map item_of tree.entries.items) };

    ghost object_kind = { λ _. TreeKind };

    fn write_to<W: io::Write>(&self, out: &mut W) -> Result<(), Error> {
        write_entries(self.entries.as_slice(), out)
    }

    fn kind(&self) -> Kind {
        Kind::Tree
    }

    fn size(&self) -> Option<u64> {
        length_of(self.entries.as_slice())
    }
}

// As the tree whose entries borrow its parts.
impl WriteTo for Tree {
    ghost text = { λ tree. tree_text (map own_item tree.entries.items) };

    ghost refusal = { λ tree. tree_refusal (map own_item tree.entries.items) };

    ghost object_kind = { λ _. TreeKind };

    fn write_to<W: io::Write>(&self, out: &mut W) -> Result<(), Error> {
        write_entries(self.entries.as_slice(), out)
    }

    fn kind(&self) -> Kind {
        Kind::Tree
    }

    fn size(&self) -> Option<u64> {
        length_of(self.entries.as_slice())
    }
}

// Writes the entries in order, up to the first whose name holds a zero byte.
fn write_entries<T: AsEntry, W: io::Write>(entries: &[T], out: &mut W) -> Result<(), Error>
    ensures { Writes (W.contents out.old) (W.contents out.new)
        (tree_text (map T.item entries.now)) (tree_refusal (map T.item entries.now)) result }
{
    for entry in entries {
        write_entry(entry.as_entry(), out)?;
    }
    Ok(())
}

// Writes the entry, or nothing if its name holds a zero byte.
fn write_entry<W: io::Write>(entry: EntryRef<'_>, out: &mut W) -> Result<(), Error>
    ensures { Writes (W.contents out.old) (W.contents out.new)
        (tree_text (item_of entry.entry ∷ [])) (tree_refusal (item_of entry.entry ∷ [])) result }
{
    let name = entry.filename.as_bytes();
    if name.contains(&0) {
        return Err(Error::Filename(FilenameError::NullbyteInFilename));
    }
    let mut backing = [0; 6];
    let mode = entry.mode.as_bytes(&mut backing);
    let parts: [&[u8]; 5] = [mode.as_bytes(), b" ", name, b"\0", entry.oid.as_bytes()];
    match write_parts(out, &parts) {
        Ok(()) => Ok(()),
        Err(error) => Err(Error::Writer(error)),
    }
}

// How many bytes the entries take; `None` if that is more than 64 bits hold.
fn length_of<T: AsEntry>(entries: &[T]) -> Option<u64>
    ensures { MatchOption result (2 ^ 64 ≤ length (tree_text (map T.item entries.now)))
        (λ total. total ≡ length (tree_text (map T.item entries.now))) }
{
    let mut total: u64 = 0;
    for entry in entries {
        total = add_entry(total, entry.as_entry())?;
    }
    Some(total)
}

// The number of bytes before the entry, and of its own.
fn add_entry(before: u64, entry: EntryRef<'_>) -> Option<u64>
    ensures { let text = entry_text (item_of entry.entry) in
        MatchOption result (2 ^ 64 ≤ before + length text) (λ total. total ≡ before + length text) }
{
    let mut backing = [0; 6];
    let mode = entry.mode.as_bytes(&mut backing).as_bytes().len();
    let id = entry.oid.as_bytes().len();
    before
        .checked_add(entry.filename.as_bytes().len() as u64)?
        .checked_add(mode as u64 + id as u64 + 2)
}
