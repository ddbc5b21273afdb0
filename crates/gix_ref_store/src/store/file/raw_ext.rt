//! The methods of `ReferenceExt`: a reference's log, the next reference (`follow`), and peeling to an object.

ghost use Rattle.std.specs.Prelude.{◌≡◌, is_some, IfErr, IfOk, IfSome, MatchResult, None, Some};
ghost use Rattle.gix_hash.specs.Id.{id_of};
ghost use Rattle.gix_ref_name.specs.Names.{name_of};
ghost use Rattle.gix_ref_name.specs.Targets.{ToObject, target_view};
ghost use Rattle.gix_ref_store.specs.Finds.{OnExisting};
ghost use Rattle.gix_ref_store.specs.Finds as finds;
ghost use Rattle.gix_ref_store.specs.Follows.{EndsAt, EndsBy, FollowsTo, FollowFault, IsGiven, CantOpen, follow_from};
ghost use Rattle.gix_ref_store.specs.Follows as follows;
ghost use Rattle.gix_ref_store.specs.Logs.{log_text};
ghost use Rattle.gix_ref_store.specs.Logs as logs;
ghost use Rattle.gix_ref_store.specs.Lookups.{reads_now, reads_with};
ghost use Rattle.gix_ref_store.specs.Peels.{Peels, PeelFault, IsPeeled, LacksObject};
ghost use Rattle.gix_ref_store.specs.Peels as peels;
ghost use Rattle.gix_ref_store.specs.Stores.{base_of};
ghost use Rattle.gix_ref_store.specs.declared.reference.Reference.{Reference};

use crate::reference::Reference;
use crate::store::file::find::ExistingError;
use crate::store::file::follow::{end_from, named, named_in};
use crate::store::file::peel::peeled_end;
use crate::store::file::search::Search;
use crate::store::file::{LogPlatform, Store, follow, log, peel};
use gix_hash::ObjectId;
use gix_object_lookup::FindInto;
use gix_ref_file::Files;
use gix_ref_format::packed::Buffer;
use gix_ref_name::Target;
use std::alloc::Global;

/// References alone have what `ReferenceExt` requires.
pub trait Sealed {}

impl Sealed for Reference {}

/// What a reference leads to in its store. A call that is given packed references uses these, and
/// with `None`, only references with files of their own are found; `follow`, `peel_to_id` and
/// `peel_to_id_in_place` open those of the store first.
pub trait ReferenceExt: Sealed {
    /// The reference.
    ghost seen: { Self → Reference };

    /// The reference's log, to be read from either end.
    fn log_iter<'s, F: Files>(&self, alloc: Global, store: &'s Store<F>) -> LogPlatform<'s, '_, F>
        ensures store { result.store.now ≡ store.now }
        ensures name { name_of result.name ≡ (seen self.now).name };

    /// Returns whether the reference has a log, and `Io` if a reading failed.
    fn log_exists<F: Files>(&self, alloc: Global, store: &Store<F>) -> Result<bool, log::Error>
        ensures exists { F.is_honest store.now.files
            → let text = log_text store.now (F.history store.now.files).tree (seen self.now).name in
            IfOk result (λ found. found ≡ is_some text) }
        ensures failed { IfErr result (logs.MayTell F.reading_may_fail) };

    /// The id of the object that the reference leads to in the end, as `peel_to_id` returns it. The
    /// reference becomes the last of those on the way, points to the object of the id, and also has
    /// that as its peeled id. After an error it is as it was.
    fn peel_to_id_in_place<F: Files, T: FindInto>(
        &mut self,
        alloc: Global,
        store: &Store<F>,
        objects: &T,
    ) -> Result<ObjectId, peel::Error>
        ensures peeled { F.is_honest store.now.files → T.is_honest objects.now
            → let tree = (F.history store.now.files).tree in let read = reads_now store.now tree in
            MatchResult result
            (λ id. Peels read (T.table objects.now) (seen self.old) (seen self.new).name (id_of id))
            (PeelFault (CantOpen (base_of store.now) tree) read (T.table objects.now)
            (seen self.old)) }
        ensures target { IfOk result (λ id.
            target_view (seen self.new).target ≡ ToObject (id_of id)) }
        ensures told { IfOk result (λ id. (seen self.new).peeled ≡ Some id) }
        ensures refused { IfErr result (λ _. self.new ≡ self.old) }
        ensures lacking { IfErr result (LacksObject (seen self.old)) }
        ensures failed { IfErr result
            (peels.MayTell F.reading_may_fail (T.may_fail objects.now)) };

    /// The id of the object that the reference leads to in the end: the one that its packed record
    /// has; otherwise names of others are followed to an object, as `follow_to_object_packed` does,
    /// and tags to what they name. Returns `NotFound` if an id on the way has no object, or a tag
    /// that names none or leads back to itself. If the record has the id, nothing is looked up, and
    /// the call fails only if packed references can't be opened.
    fn peel_to_id<F: Files, T: FindInto>(
        &self,
        alloc: Global,
        store: &Store<F>,
        objects: &T,
    ) -> Result<ObjectId, peel::Error>
        ensures peeled { F.is_honest store.now.files → T.is_honest objects.now
            → let tree = (F.history store.now.files).tree in let read = reads_now store.now tree in
            MatchResult result
            (λ id. IsPeeled read (T.table objects.now) (seen self.now) (id_of id))
            (PeelFault (CantOpen (base_of store.now) tree) read (T.table objects.now)
            (seen self.now)) }
        ensures lacking { IfErr result (LacksObject (seen self.now)) }
        ensures failed { IfErr result
            (peels.MayTell F.reading_may_fail (T.may_fail objects.now)) };

    /// What `peel_to_id_in_place` does, with these packed references. Fails as that does.
    fn peel_to_id_in_place_packed<F: Files, T: FindInto>(
        &mut self,
        alloc: Global,
        store: &Store<F>,
        objects: &T,
        packed: Option<&Buffer>,
    ) -> Result<ObjectId, peel::Error>
        ensures peeled { F.is_honest store.now.files → T.is_honest objects.now
            → let read = reads_with store.now (F.history store.now.files).tree packed.entry in
            MatchResult result
            (λ id. Peels read (T.table objects.now) (seen self.old) (seen self.new).name (id_of id))
            (PeelFault IsGiven read (T.table objects.now) (seen self.old)) }
        ensures target { IfOk result (λ id.
            target_view (seen self.new).target ≡ ToObject (id_of id)) }
        ensures told { IfOk result (λ id. (seen self.new).peeled ≡ Some id) }
        ensures refused { IfErr result (λ _. self.new ≡ self.old) }
        ensures lacking { IfErr result (λ _. (seen self.old).peeled ≡ None) }
        ensures failed { IfErr result
            (peels.MayTell F.reading_may_fail (T.may_fail objects.now)) };

    /// The id that `peel_to_id` returns, with these packed references. Fails as that does.
    fn peel_to_id_packed<F: Files, T: FindInto>(
        &self,
        alloc: Global,
        store: &Store<F>,
        objects: &T,
        packed: Option<&Buffer>,
    ) -> Result<ObjectId, peel::Error>
        ensures peeled { F.is_honest store.now.files → T.is_honest objects.now
            → let read = reads_with store.now (F.history store.now.files).tree packed.entry in
            MatchResult result
            (λ id. IsPeeled read (T.table objects.now) (seen self.now) (id_of id))
            (PeelFault IsGiven read (T.table objects.now) (seen self.now)) }
        ensures lacking { IfErr result (λ _. (seen self.now).peeled ≡ None) }
        ensures failed { IfErr result
            (peels.MayTell F.reading_may_fail (T.may_fail objects.now)) };

    /// Returns the id that `follow_to_object_packed` returns. The reference becomes the last of
    /// those on the way, which points to the object itself. After an error it is as it was.
    fn follow_to_object_in_place_packed<F: Files>(
        &mut self,
        alloc: Global,
        store: &Store<F>,
        packed: Option<&Buffer>,
    ) -> Result<ObjectId, follow::Error>
        ensures followed { F.is_honest store.now.files
            → let read = reads_with store.now (F.history store.now.files).tree packed.entry in
            let end = follow_from read (seen self.old) in
            MatchResult result (λ id. EndsBy (seen self.new) id end) (FollowFault IsGiven end) }
        ensures refused { IfErr result (λ _. self.new ≡ self.old) }
        ensures failed { IfErr result (follows.MayTell F.reading_may_fail) };

    /// The id of the object that this reference points to, over at most 5 names of others. Returns
    /// `DepthLimitExceeded` if there are more, `Cycle` if one of them is met again, and `Follow`
    /// with `NotFound` if no reference has it.
    fn follow_to_object_packed<F: Files>(
        &self,
        alloc: Global,
        store: &Store<F>,
        packed: Option<&Buffer>,
    ) -> Result<ObjectId, follow::Error>
        ensures followed { F.is_honest store.now.files
            → let read = reads_with store.now (F.history store.now.files).tree packed.entry in
            let end = follow_from read (seen self.now) in
            MatchResult result (λ id. EndsAt (id_of id) end) (FollowFault IsGiven end) }
        ensures failed { IfErr result (follows.MayTell F.reading_may_fail) };

    /// The reference that this one points to; `None` if it points to an object. Returns `NotFound`
    /// if no reference has the name, and `PackedOpen` if the packed references can't be opened.
    fn follow<F: Files>(
        &self,
        alloc: Global,
        store: &Store<F>,
    ) -> Option<Result<Reference, ExistingError>>
        ensures followed { F.is_honest store.now.files
            → let tree = (F.history store.now.files).tree in
            FollowsTo (CantOpen (base_of store.now) tree) (reads_now store.now tree)
            (target_view (seen self.now).target) result }
        ensures failed { IfSome result (λ next. IfErr next
            (OnExisting (Unit {0}) (finds.MayTell F.reading_may_fail))) };

    /// The reference that this one points to, as `follow` returns it, with these packed references.
    fn follow_packed<F: Files>(
        &self,
        alloc: Global,
        store: &Store<F>,
        packed: Option<&Buffer>,
    ) -> Option<Result<Reference, ExistingError>>
        ensures followed { F.is_honest store.now.files
            → let read = reads_with store.now (F.history store.now.files).tree packed.entry in
            FollowsTo IsGiven read (target_view (seen self.now).target) result }
        ensures failed { IfSome result (λ next. IfErr next
            (OnExisting (Unit {0}) (finds.MayTell F.reading_may_fail))) };
}

impl ReferenceExt for Reference {
    ghost seen = { λ r. r };

    fn log_iter<'s, F: Files>(&self, alloc: Global, store: &'s Store<F>) -> LogPlatform<'s, '_, F> {
        LogPlatform {
            store,
            name: self.name.as_ref(),
            buffer: Vec::new(alloc),
        }
    }

    fn log_exists<F: Files>(&self, alloc: Global, store: &Store<F>) -> Result<bool, log::Error> {
        store.reflog_exists(alloc, self.name.as_ref())
    }

    fn peel_to_id_in_place<F: Files, T: FindInto>(
        &mut self,
        alloc: Global,
        store: &Store<F>,
        objects: &T,
    ) -> Result<ObjectId, peel::Error> {
        match store.open_packed_buffer(alloc)? {
            Some(packed) => {
                self.peel_to_id_in_place_packed(alloc, store, objects, Some(&packed))
            }
            None => self.peel_to_id_in_place_packed(alloc, store, objects, None),
        }
    }

    fn peel_to_id<F: Files, T: FindInto>(
        &self,
        alloc: Global,
        store: &Store<F>,
        objects: &T,
    ) -> Result<ObjectId, peel::Error> {
        match store.open_packed_buffer(alloc)? {
            Some(packed) => self.peel_to_id_packed(alloc, store, objects, Some(&packed)),
            None => self.peel_to_id_packed(alloc, store, objects, None),
        }
    }

    fn peel_to_id_in_place_packed<F: Files, T: FindInto>(
        &mut self,
        alloc: Global,
        store: &Store<F>,
        objects: &T,
        packed: Option<&Buffer>,
    ) -> Result<ObjectId, peel::Error> {
        let search = Search {
            alloc,
            store,
            packed,
        };
        let (id, end) = peeled_end(&search, self, objects)?;
        if let Some(end) = end {
            self.name = end.name;
        }
        self.target = Target::Object(id);
        self.peeled = Some(id);
        Ok(id)
    }

    fn peel_to_id_packed<F: Files, T: FindInto>(
        &self,
        alloc: Global,
        store: &Store<F>,
        objects: &T,
        packed: Option<&Buffer>,
    ) -> Result<ObjectId, peel::Error> {
        let search = Search {
            alloc,
            store,
            packed,
        };
        let (id, _) = peeled_end(&search, self, objects)?;
        Ok(id)
    }

    fn follow_to_object_in_place_packed<F: Files>(
        &mut self,
        alloc: Global,
        store: &Store<F>,
        packed: Option<&Buffer>,
    ) -> Result<ObjectId, follow::Error> {
        let search = Search {
            alloc,
            store,
            packed,
        };
        let (id, end) = end_from(&search, self)?;
        if let Some(end) = end {
            *self = end;
        }
        Ok(id)
    }

    fn follow_to_object_packed<F: Files>(
        &self,
        alloc: Global,
        store: &Store<F>,
        packed: Option<&Buffer>,
    ) -> Result<ObjectId, follow::Error> {
        let search = Search {
            alloc,
            store,
            packed,
        };
        let (id, _) = end_from(&search, self)?;
        Ok(id)
    }

    fn follow<F: Files>(
        &self,
        alloc: Global,
        store: &Store<F>,
    ) -> Option<Result<Reference, ExistingError>> {
        match &self.target {
            Target::Object(_) => None,
            Target::Symbolic(name) => Some(named_in(alloc, store, name)),
        }
    }

    fn follow_packed<F: Files>(
        &self,
        alloc: Global,
        store: &Store<F>,
        packed: Option<&Buffer>,
    ) -> Option<Result<Reference, ExistingError>> {
        let search = Search {
            alloc,
            store,
            packed,
        };
        match &self.target {
            Target::Object(_) => None,
            Target::Symbolic(name) => Some(named(&search, name)),
        }
    }
}
