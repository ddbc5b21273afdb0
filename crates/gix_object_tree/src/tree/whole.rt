//! Trees whose entries are borrowed from their content.

ghost use Rattle.std.specs.Prelude.{◌≡◌, [], List, map, IfOk, IfErr, MatchResult};
ghost use Rattle.gix_object_lines.specs.declared.decode.Error.TheVariants.{Memory};
ghost use Rattle.gix_object_tree.specs.Entry.{Item, item_of, own_item, SpellsTree, TreeFault};

use crate::tree::decode::read_entry;
use crate::tree::{Entry, EntryRef, Tree};
use gix_hash::{Kind, ObjectId};
use gix_object_lines::ByteString;
use gix_object_lines::decode::Error;
use std::alloc::{AllocError, Global};

/// A tree whose entries are borrowed from its content.
#[derive(Debug, Drop, PartialEq, Eq)]
pub struct TreeRef<'a> {
    /// The entries, in the order of the content.
    pub entries: Vec<EntryRef<'a>>,
}

impl<'a> TreeRef<'a> {
    /// The tree that the content spells, its ids of this hash function. The error is that of the
    /// first entry that fails: `FieldName` if no mode begins it, `LineEnd` if no zero byte ends its
    /// name, `HexDigits` if its id is cut off. Returns `Memory` if no memory is left. The order of
    /// the entries isn't tested.
    pub fn from_bytes(
        alloc: Global,
        content: &'a [u8],
        hash_kind: Kind,
    ) -> Result<TreeRef<'a>, Error>
        ensures read { IfOk result
            (λ tree. SpellsTree hash_kind content.now (map item_of tree.entries.items)) }
        ensures every { (items : List Item) → SpellsTree hash_kind content.now items
            → MatchResult result (λ tree. map item_of tree.entries.items ≡ items)
            (λ fault. fault ≡ Memory) }
        ensures refused { IfErr result (λ fault. TreeFault hash_kind content.now fault) }
    {
        let mut entries = Vec::new(alloc);
        let mut rest = content;
        'entries: while !rest.is_empty() {
            let (entry, after) = read_entry(rest, hash_kind)?;
            if entries.push(entry).is_err() {
                return Err(Error::Memory);
            }
            rest = after;
        }
        Ok(TreeRef { entries })
    }

    /// The tree without entries. It takes no memory.
    pub fn empty(alloc: Global) -> TreeRef<'a>
        ensures { map item_of result.entries.items ≡ [] }
    {
        TreeRef {
            entries: Vec::new(alloc),
        }
    }

    /// The tree with copies of its names.
    pub fn to_owned(&self) -> Result<Tree, AllocError>
        ensures { IfOk result
            (λ tree. map own_item tree.entries.items ≡ map item_of self.now.entries.items) }
    {
        let alloc = *self.entries.allocator();
        let mut entries = Vec::with_capacity(alloc, self.entries.len())?;
        for entry in &self.entries {
            entries.push(entry.to_owned(alloc)?)?;
        }
        Ok(Tree { entries })
    }

    /// The tree with copies of its names: see `to_owned`.
    pub fn into_owned(self) -> Result<Tree, AllocError>
        ensures { IfOk result
            (λ tree. map own_item tree.entries.items ≡ map item_of self.entry.entries.items) }
    {
        self.to_owned()
    }
}

impl<'a> EntryRef<'a> {
    /// The entry with a copy of its name.
    pub fn to_owned(&self, alloc: Global) -> Result<Entry, AllocError>
        ensures { IfOk result (λ entry. own_item entry ≡ item_of self.now) }
    {
        Ok(Entry {
            mode: self.mode,
            filename: ByteString::from_slice(alloc, self.filename.as_bytes())?,
            oid: ObjectId::from(self.oid),
        })
    }
}

impl<'a> From<&'a Entry> for EntryRef<'a> {
    ghost from_gives = { λ entry given. item_of given ≡ own_item entry.now };

    fn from(entry: &'a Entry) -> EntryRef<'a> {
        EntryRef {
            mode: entry.mode,
            filename: entry.filename.as_bstr(),
            oid: entry.oid.as_oid(),
        }
    }
}
