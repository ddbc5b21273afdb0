//! Trees in memory, which count how often one is looked up, and may fail at one lookup.

ghost use Rattle.std.specs.Prelude.{map, None, ⊤};
ghost use Rattle.gix_hash.specs.Id.{id_of};

use gix_hash::{Kind, ObjectId, oid};
use gix_object_lines::encode::loose_header;
use gix_object_lookup::find::Error;
use gix_object_lookup::{FindInto, Lookup};
use std::alloc::{AllocError, Global};
use std::cell::Cell;

/// A tree's content under its id.
#[derive(Drop)]
pub struct Row {
    /// The id.
    pub oid: ObjectId,
    /// The content.
    pub content: Vec<u8>,
}

/// Trees by their ids.
#[derive(Drop)]
pub struct Trees {
    rows: Vec<Row>,
    asked: Cell<u64>,
    failing: Cell<u64>,
}

impl Trees {
    /// No trees.
    pub fn new(alloc: Global) -> Trees {
        Trees {
            rows: Vec::new(alloc),
            asked: Cell::new(0),
            failing: Cell::new(0),
        }
    }

    /// How often a tree was looked up since the count began.
    pub fn asked(&self) -> u64 {
        self.asked.get()
    }

    /// Begins the count once more. No lookup fails from here on.
    pub fn count_anew(&self) {
        self.asked.set(0);
        self.failing.set(0);
    }

    /// From here on the lookup of this number fails.
    pub fn fail_at(&self, number: u64) {
        self.failing.set(number);
    }

    /// Returns whether there is a tree of this id.
    pub fn has(&self, oid: &ObjectId) -> bool {
        for row in &self.rows {
            if row.oid == *oid {
                return true;
            }
        }
        false
    }

    /// One tree more.
    pub fn add(&mut self, row: Row) -> Result<(), AllocError> {
        Ok(self.rows.push(row)?)
    }

    // Counts a lookup, and returns whether it succeeds.
    fn goes_well(&self) -> bool {
        let asked = self.asked.get().saturating_add(1);
        self.asked.set(asked);
        asked != self.failing.get()
    }
}

// Nothing is claimed of what is found.
impl Lookup for Trees {
    ghost table = { λ _ _. None };

    ghost ids = { λ trees. map (λ row. id_of row.oid) trees.rows.items };

    ghost is_honest = { λ _. ⊥ };

    ghost may_fail = { λ _. ⊤ };
}

impl FindInto for Trees {
    fn find_into(
        &self,
        id: oid<'_>,
        buffer: &mut Vec<u8>,
    ) -> Result<Option<gix_object_lines::Kind>, Error> {
        if !self.goes_well() {
            return Err(Error::Failed);
        }
        buffer.clear();
        let wanted = ObjectId::from(id);
        for row in &self.rows {
            if row.oid == wanted {
                buffer.extend_from_slice(row.content.as_slice())?;
                return Ok(Some(gix_object_lines::Kind::Tree));
            }
        }
        Ok(None)
    }
}

/// A content under the id that Git gives it as a tree's.
pub fn row_of_content(kind: Kind, content: Vec<u8>) -> Row {
    let header = loose_header(gix_object_lines::Kind::Tree, content.len() as u64);
    let mut digest = gix_hash::hasher::hasher(kind);
    digest.update(header.as_slice());
    digest.update(content.as_slice());
    Row {
        oid: digest.try_finalize(),
        content,
    }
}
