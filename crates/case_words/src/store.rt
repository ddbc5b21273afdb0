//! A store of objects.

ghost use Rattle.std.specs.Prelude.{◌≡◌, ⊤};
ghost use Rattle.case_words.specs.Store.{ids_of, table_of};

use crate::stored::{Stored, stored_at};
use gix_hash::oid;
use gix_object_lines::Kind;
use gix_object_lookup::find::Error;
use gix_object_lookup::{FindInto, Lookup};
use std::alloc::{AllocError, Global};

/// Objects, the first of an id before others.
#[derive(Drop)]
pub struct Store {
    objects: Vec<Stored>,
}

impl Store {
    /// No objects.
    pub fn new(alloc: Global) -> Store {
        Store {
            objects: Vec::new(alloc),
        }
    }

    /// Keeps one more object.
    pub fn put(&mut self, stored: Stored) -> Result<(), AllocError> {
        self.objects.push(stored)?;
        Ok(())
    }
}

impl Lookup for Store {
    ghost table = { λ store. table_of store.objects.items };

    ghost ids = { λ store. ids_of store.objects.items };

    ghost is_honest = { λ store. ⊤ };

    ghost may_fail = { λ store. ⊤ };
}

impl FindInto for Store {
    fn find_into(&self, id: oid<'_>, buffer: &mut Vec<u8>) -> Result<Option<Kind>, Error> {
        buffer.clear();
        let Some(stored) = stored_at(&self.objects, id) else {
            return Ok(None);
        };
        buffer.extend_from_slice(stored.content.as_slice())?;
        Ok(Some(stored.kind))
    }
}
