//! A store of the objects that a line gives.

ghost use Rattle.std.specs.Prelude.{◌≡◌, true, false};
ghost use Rattle.case_words.specs.Store.{ids_of, table_of};

use case_words::{Stored, read_loose, stored_at};
use gix_hash::{Kind as HashKind, oid};
use gix_object_lines::{Header, Kind};
use gix_object_lookup::find::Error;
use gix_object_lookup::{Exists, FindHeader, FindInto, Lookup};
use std::alloc::Global;

/// Objects, the first of an id before others.
#[derive(Drop)]
pub struct Store {
    /// The hash function of their ids.
    pub kind: HashKind,
    /// The objects.
    pub objects: Vec<Stored>,
    /// Whether each lookup fails.
    pub is_broken: bool,
}

impl Store {
    /// The store of these loose objects, their ids of this hash function. `None` if one isn't
    /// loose, or if no memory is left.
    pub fn new(alloc: Global, kind: HashKind, loose: &[Vec<u8>]) -> Option<Store> {
        let mut objects = Vec::new(alloc);
        for object in loose {
            objects
                .push(read_loose(alloc, kind, object.as_slice())?)
                .ok()?;
        }
        Some(Store {
            kind,
            objects,
            is_broken: false,
        })
    }
}

impl Lookup for Store {
    ghost table = { λ store. table_of store.objects.items };

    ghost ids = { λ store. ids_of store.objects.items };

    ghost is_honest = { λ store. store.is_broken ≡ false };

    ghost may_fail = { λ store. store.is_broken ≡ true };
}

impl Exists for Store {
    fn exists(&self, id: oid<'_>) -> bool {
        stored_at(&self.objects, id).is_some()
    }
}

impl FindInto for Store {
    fn find_into(&self, id: oid<'_>, buffer: &mut Vec<u8>) -> Result<Option<Kind>, Error> {
        buffer.clear();
        if self.is_broken {
            return Err(Error::Failed);
        }
        let Some(stored) = stored_at(&self.objects, id) else {
            return Ok(None);
        };
        buffer.extend_from_slice(stored.content.as_slice())?;
        Ok(Some(stored.kind))
    }
}

impl FindHeader for Store {
    fn try_header(&self, id: oid<'_>) -> Result<Option<Header>, Error> {
        if self.is_broken {
            return Err(Error::Failed);
        }
        let Some(stored) = stored_at(&self.objects, id) else {
            return Ok(None);
        };
        Ok(Some(Header {
            kind: stored.kind,
            size: stored.content.len() as u64,
        }))
    }
}
