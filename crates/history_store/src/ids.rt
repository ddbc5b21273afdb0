//! A set of ids (`Ids`), one ascending list for each first byte: added to, searched by id or prefix, iterated.
ghost use Rattle.std.specs.Prelude.{IsTrue};
ghost use Rattle.history_store.specs.Ids.{are_lists};

use crate::prefixes::{Hit, Lookup, are_of_kind, hit_of};
use gix_hash::{Kind, ObjectId, Prefix, prefix_run};
use std::alloc::{AllocError, Global};

/// The result if no list is searched.
const NOTHING: Lookup = Lookup {
    hit: Hit::Absent,
    calls: 0,
};

/// A set of ids. A list is made when an id of its first byte comes, or of a later one: 256 at most.
#[derive(Drop)]
pub struct Ids {
    lists: Vec<Vec<ObjectId>>,
    ghost in_order: { IsTrue (are_lists 0 lists.items) },
}

impl Ids {
    ghost use Rattle.std.specs.Prelude.{◌≡◌, ◌≤◌, length, OnOk};
    ghost use Rattle.std.specs.FinMap.{contains_key, empty, len};
    ghost use Rattle.gix_hash.specs.Id.{Id, id_of};
    ghost use Rattle.history_store.specs.Ids.{AreOfKind, IsAscending, with_id, with_id_if};
    ghost use Rattle.history_texts.specs.IdLists.{is_one_of};
    ghost use Rattle.history_store.specs.KeptIds.{HasRoom, kept, left};
    ghost use Rattle.history_store.specs.Prefixes.{CanName, IsHit};
    ghost use Rattle.gix_hash.specs.Run.{IsWithinTwiceDigits};

    /// Returns a set without ids.
    pub fn new(alloc: Global) -> Self
        ensures { kept result ≡ empty }
    {
        Ids {
            lists: Vec::new(alloc),
        }
    }

    /// Makes room for an id, so that to insert it takes no memory. Fails only if memory runs out.
    /// The set stays as it was, also after an error.
    pub fn make_room(&mut self, alloc: Global, id: &ObjectId) -> Result<(), AllocError>
        ensures ids { kept self.new ≡ kept self.old }
        ensures room { OnOk result (HasRoom self.new (id_of id.now)) }
    {
        let byte = usize::from(id.first_byte());
        self.make_lists(alloc, byte + 1)?;
        self.lists[byte].reserve(1)
    }

    // Makes empty lists until there are so many. Fails only if memory runs out.
    fn make_lists(&mut self, alloc: Global, count: usize) -> Result<(), AllocError>
        ensures ids { kept self.new ≡ kept self.old }
        ensures enough { OnOk result (count ≤ length self.new.lists.items) }
    {
        while self.lists.len() < count {
            self.lists.push(Vec::new(alloc))?;
        }
        Ok(())
    }

    /// Puts an id in the set, for which room was made.
    pub fn insert(&mut self, id: ObjectId)
        requires { HasRoom self.old (id_of id) }
        ensures { kept self.new ≡ with_id (kept self.old) (id_of id) }
    {
        // An id has the digits of its kind, two for each of its bytes.
        let _bytes = id.as_bytes();
        let list = &mut self.lists[usize::from(id.first_byte())];
        if let Err(place) = list.binary_search(&id) {
            // There is room, so that it is never refused.
            let _inserted = list.insert(place, id);
        }
    }

    /// Puts an id in the set, for which room was made, if it is to be.
    pub fn insert_if(&mut self, is: bool, id: ObjectId)
        requires { HasRoom self.old (id_of id) }
        ensures { kept self.new ≡ with_id_if is (kept self.old) (id_of id) }
    {
        if is {
            self.insert(id);
        }
    }

    /// Returns whether an id is in the set. It is found by a binary search of one list.
    pub fn contains(&self, id: &ObjectId) -> bool
        ensures { result ≡ contains_key (kept self.now) (id_of id.now) }
    {
        match self.lists.get(usize::from(id.first_byte())) {
            Some(list) => list.binary_search(id).is_ok(),
            None => false,
        }
    }

    /// Returns which id a prefix names. One list is searched, and `cmp_oid` is called at most twice
    /// as often as the number of ids has binary digits. The ids must be of the given kind: a list
    /// with others isn't searched.
    pub fn lookup(&self, kind: Kind, prefix: &Prefix) -> Lookup
        requires { CanName kind prefix.now }
        ensures hit { AreOfKind kind (kept self.now)
            → IsHit (kept self.now) prefix.now result.hit }
        ensures calls { IsWithinTwiceDigits result.calls (len (kept self.now)) }
    {
        let byte = usize::from(prefix.as_oid().first_byte());
        let Some(list) = self.lists.get(byte) else {
            return NOTHING;
        };
        if !are_of_kind(list, kind) {
            return NOTHING;
        }
        let run = prefix_run(list, prefix);
        Lookup {
            hit: hit_of(list, run),
            calls: run.calls,
        }
    }

    /// Returns the ids; those of one kind ascend.
    pub fn iter(&self) -> IdIter<'_>
        ensures ids { (id : Id) → contains_key (kept self.now) id ≡ is_one_of (left result) id }
        ensures ascending { IsAscending (left result) }
    {
        IdIter {
            list: &[],
            lists: self.lists.as_slice(),
        }
    }
}

/// The ids of a set, list after list.
#[derive(Clone, Copy)]
pub struct IdIter<'a> {
    list: &'a [ObjectId],
    lists: &'a [Vec<ObjectId>],
}

impl<'a> Iterator for IdIter<'a> {
    ghost use Rattle.std.specs.Iterator.{item_count, YieldsFirst};
    ghost use Rattle.history_store.specs.KeptIds.{left};

    type Item = ObjectId;

    ghost next_gives = { YieldsFirst left };

    ghost remaining = { item_count left };

    fn next(&mut self) -> Option<ObjectId> {
        'lists: loop {
            if let Some((id, rest)) = self.list.split_first() {
                self.list = rest;
                return Some(*id);
            }
            let (list, rest) = self.lists.split_first()?;
            self.list = list.as_slice();
            self.lists = rest;
        }
    }
}
