//! Trees, entry by entry.

ghost use Rattle.std.specs.Prelude.{◌≡◌, ◌-◌, ◌≤◌, List, length, map, IfOk, IfErr, MatchResult};
ghost use Rattle.std.specs.Iterator.{at_most};
ghost use Rattle.gix_object_lines.specs.declared.decode.Error.TheVariants.{Memory};
ghost use Rattle.gix_object_tree.specs.Entry.{Item, item_of, SpellsTree, TreeFault};
ghost use Rattle.gix_object_tree.specs.Reading.{Steps, place_of, start};

use crate::tree::decode::read_entry;
use crate::tree::{EntryRef, TreeRef};
use gix_hash::Kind;
use gix_object_lines::decode::Error;
use std::alloc::Global;

/// The entries of a tree, in their order, read one by one from its bytes.
///
/// Each begins where the one before ended, and borrows from the bytes. After an error nothing more
/// is given. It takes no memory.
#[derive(Debug, Clone, Copy, Drop)]
pub struct TreeRefIter<'a> {
    rest: &'a [u8],
    hash_kind: Kind,
}

impl<'a> TreeRefIter<'a> {
    /// The entries of these bytes, in a repository of this kind of ids.
    pub fn from_bytes(content: &'a [u8], hash_kind: Kind) -> TreeRefIter<'a>
        ensures { place_of result ≡ start hash_kind content.now }
    {
        TreeRefIter {
            rest: content,
            hash_kind,
        }
    }

    /// All entries to come. Returns the error of the first that can't be read, or `Memory` if no
    /// memory is left.
    pub fn entries(self, alloc: Global) -> Result<Vec<EntryRef<'a>>, Error>
        ensures read { IfOk result
            (λ entries. SpellsTree (place_of self.entry).kind (place_of self.entry).input
            (map item_of entries.items)) }
        ensures every { (items : List Item)
            → SpellsTree (place_of self.entry).kind (place_of self.entry).input items
            → MatchResult result (λ entries. map item_of entries.items ≡ items)
            (λ fault. fault ≡ Memory) }
        ensures refused { IfErr result
            (λ fault. TreeFault (place_of self.entry).kind (place_of self.entry).input fault) }
    {
        Ok(TreeRef::from_bytes(alloc, self.rest, self.hash_kind)?.entries)
    }

    /// The place of the next entry in a content that ends with these entries: the length of what
    /// was read.
    pub fn offset_to_next_entry(&self, content: &[u8]) -> usize
        requires { length (place_of self.now).input ≤ length content.now }
        ensures { result ≡ length content.now - length (place_of self.now).input }
    {
        content.len() - self.rest.len()
    }
}

impl<'a> Iterator for TreeRefIter<'a> {
    type Item = Result<EntryRef<'a>, Error>;

    ghost next_gives = { λ before item after. Steps (place_of before) item (place_of after) };

    ghost remaining = { λ entries. at_most (length (place_of entries).input) };

    fn next(&mut self) -> Option<Result<EntryRef<'a>, Error>> {
        if self.rest.is_empty() {
            return None;
        }
        match read_entry(self.rest, self.hash_kind) {
            Ok((entry, rest)) => {
                self.rest = rest;
                Some(Ok(entry))
            }
            Err(error) => {
                self.rest = b"";
                Some(Err(error))
            }
        }
    }
}
