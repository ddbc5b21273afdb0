//! Walking over a buffer's records in the order of names: all, or those whose names have a prefix.

ghost use Rattle.std.specs.Prelude.{◌≡◌};
ghost use Rattle.std.specs.List.{filter};
ghost use Rattle.std.specs.List.Sorted.{IsPartitionedBy};
ghost use Rattle.std.specs.Iterator.{YieldsFirstBy, item_count};
ghost use Rattle.gix_object_lines.specs.NameTest as spec;
ghost use Rattle.gix_ref_format.specs.Packed.{record_of};
ghost use Rattle.gix_ref_format.specs.PackedBuffer.{has_prefix};
ghost use Rattle.gix_ref_format.specs.PackedKept.{kept, records_left};

use crate::packed::Reference;
use crate::packed::buffer::{Buffer, Entry, name_of};
use std::cmp::Ordering;

/// The records of a buffer that are still to come, ascending by name.
#[derive(Debug, Clone, Copy)]
pub struct Records<'a> {
    rest: &'a [Entry],
}

impl Buffer {
    /// All records, ascending by name; those of one name as the file has them.
    pub fn iter(&self) -> Records<'_>
        ensures { records_left result ≡ kept self.now }
    {
        Records {
            rest: self.entries.as_slice(),
        }
    }

    /// The records whose names begin with this prefix, ascending by name. It searches for them, and
    /// walks over no others.
    pub fn iter_prefixed(&self, prefix: &[u8]) -> Records<'_>
        ensures { records_left result
            ≡ filter (λ r. spec.begins prefix.now r.name) (kept self.now) }
    {
        let entries = self.entries.as_slice();
        let first = entries.partition_point(|entry| name_of(entry).cmp(prefix) == Ordering::Less);
        let (_, above) = entries.split_at(first);
        Records {
            rest: leading_with(above, prefix),
        }
    }
}

// The entries whose names begin with this prefix, if they come before all others.
fn leading_with<'a>(entries: &'a [Entry], prefix: &[u8]) -> &'a [Entry]
    ensures { IsPartitionedBy (has_prefix prefix.now) entries.now
        → result.now ≡ filter (has_prefix prefix.now) entries.now }
{
    let count = entries.partition_point(|entry| begins(entry, prefix));
    let (found, _) = entries.split_at(count);
    found
}

// Returns whether its name begins with this prefix.
fn begins(entry: &Entry, prefix: &[u8]) -> bool
    ensures { result ≡ has_prefix prefix.now entry.now }
{
    name_of(entry).starts_with(prefix)
}

impl<'a> Iterator for Records<'a> {
    type Item = Reference<'a>;

    ghost next_gives = { YieldsFirstBy record_of records_left };

    ghost remaining = { item_count records_left };

    fn next(&mut self) -> Option<Reference<'a>> {
        let (first, rest) = self.rest.split_first()?;
        self.rest = rest;
        Some(first.as_reference())
    }
}
