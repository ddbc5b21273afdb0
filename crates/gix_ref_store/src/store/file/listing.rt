//! Making a listing: all references, by prefix, below a name, loose ones or pseudo ones (`iter`, `Platform`).

ghost use Rattle.std.specs.BTreeMap.{IsOrdered};
ghost use Rattle.std.specs.Prelude.{◌≡◌, None, IfOk, IfErr, IsErrOf, MatchResult};
ghost use Rattle.gix_ref_file.specs.Tree.{path_cmp};
ghost use Rattle.gix_ref_format.specs.declared.packed.buffer.Error.TheVariants.{Io};
ghost use Rattle.gix_ref_store.specs.Asks.{is_asked};
ghost use Rattle.gix_ref_store.specs.Items.{left_in};
ghost use Rattle.gix_ref_store.specs.Listings.{IsListing, all_names, names_with, names_within, is_pseudo};
ghost use Rattle.gix_ref_store.specs.Lookups.{reads_with, reads_kept};
ghost use Rattle.gix_ref_store.specs.Opened.{KeepsPacked, PackedUnread};
ghost use Rattle.gix_ref_store.specs.Walks.{MayStop};

use crate::store::file::Store;
use crate::store::file::asked::Asked;
use crate::store::file::gather::put_packed;
use crate::store::file::iter::{Error, LooseThenPacked};
use crate::store::file::own::Names;
use crate::store::file::search::Search;
use gix_ref_file::Files;
use gix_ref_format::packed::{Buffer, buffer};
use std::alloc::Global;
use std::collections::BTreeMap;

/// A store and its packed references, for several listings.
#[derive(Drop)]
pub struct Platform<'s, F: Files> {
    pub(crate) store: &'s Store<F>,
    pub(crate) packed: Option<Buffer>,
}

impl<F: Files> Platform<'_, F> {
    /// All references below `refs/`, as `Store::iter_packed` returns them. Fails as that does.
    pub fn all(&self, alloc: Global) -> Result<LooseThenPacked<'_, '_, F>, Error>
        ensures store { IfOk result (λ items. items.search.store.now ≡ self.now.store.now) }
        ensures listed { F.is_honest self.now.store.now.files
            → let tree = (F.history self.now.store.now.files).tree in
            IfOk result (λ items. IsListing (reads_kept self.now.store.now tree self.now.packed)
            (all_names self.now.store.now) (left_in tree items)) }
        ensures failed { IfErr result (MayStop F.reading_may_fail) }
    {
        self.store.iter_packed(alloc, self.packed.as_ref())
    }

    /// The references below `refs/` whose names begin so, as `Store::iter_prefixed_packed` returns
    /// them. Fails as that does.
    pub fn prefixed(
        &self,
        alloc: Global,
        prefix: &[u8],
    ) -> Result<LooseThenPacked<'_, '_, F>, Error>
        ensures store { IfOk result (λ items. items.search.store.now ≡ self.now.store.now) }
        ensures listed { F.is_honest self.now.store.now.files
            → let tree = (F.history self.now.store.now.files).tree in
            IfOk result (λ items. IsListing (reads_kept self.now.store.now tree self.now.packed)
            (names_with self.now.store.now prefix.now) (left_in tree items)) }
        ensures failed { IfErr result (MayStop F.reading_may_fail) }
    {
        self.store
            .iter_prefixed_packed(alloc, prefix, self.packed.as_ref())
    }

    /// The reference of this name and those below it, as `Store::iter_within_packed` returns them.
    /// Fails as that does.
    pub fn within(&self, alloc: Global, folder: &[u8]) -> Result<LooseThenPacked<'_, '_, F>, Error>
        ensures store { IfOk result (λ items. items.search.store.now ≡ self.now.store.now) }
        ensures listed { F.is_honest self.now.store.now.files
            → let tree = (F.history self.now.store.now.files).tree in
            IfOk result (λ items. IsListing (reads_kept self.now.store.now tree self.now.packed)
            (names_within self.now.store.now folder.now) (left_in tree items)) }
        ensures failed { IfErr result (MayStop F.reading_may_fail) }
    {
        self.store
            .iter_within_packed(alloc, folder, self.packed.as_ref())
    }

    /// The pseudo references, as `Store::iter_pseudo` returns them. Fails as that does.
    pub fn pseudo(&self, alloc: Global) -> Result<LooseThenPacked<'_, '_, F>, Error>
        ensures store { IfOk result (λ items. items.search.store.now ≡ self.now.store.now) }
        ensures listed { F.is_honest self.now.store.now.files
            → let tree = (F.history self.now.store.now.files).tree in
            IfOk result (λ items. IsListing (reads_with self.now.store.now tree None) is_pseudo
            (left_in tree items)) }
        ensures failed { IfErr result (MayStop F.reading_may_fail) }
    {
        self.store.iter_pseudo(alloc)
    }
}

impl<F: Files> Store<F> {
    /// Opens the packed references as they are now, for listings with them. The errors are those of
    /// `open_packed_buffer`.
    pub fn iter(&self, alloc: Global) -> Result<Platform<'_, F>, buffer::Error>
        ensures store { IfOk result (λ platform. platform.store.now ≡ self.now) }
        ensures kept { F.is_honest self.now.files → let tree = (F.history self.now.files).tree in
            MatchResult result (λ platform. KeepsPacked self.now tree platform.packed)
            (PackedUnread self.now tree) }
        ensures failed { IsErrOf result Io → F.reading_may_fail }
    {
        let packed = self.open_packed_buffer(alloc)?;
        Ok(Platform {
            store: self,
            packed,
        })
    }

    /// All references below `refs/` with files of their own or records of this buffer, ascending by
    /// name, each name once: a file hides a record. A file that names no target is an error in its
    /// place, after which the listing goes on. Returns `Traversal` if a folder couldn't be listed.
    ///
    /// The files are read now, by one call for each and at most two for each folder. A file is read
    /// at its turn if a reading of it failed now.
    pub fn iter_packed<'s, 'p>(
        &'s self,
        alloc: Global,
        packed: Option<&'p Buffer>,
    ) -> Result<LooseThenPacked<'s, 'p, F>, Error>
        ensures store { IfOk result (λ items. items.search.store.now ≡ self.now) }
        ensures listed { F.is_honest self.now.files → let tree = (F.history self.now.files).tree in
            IfOk result (λ items. IsListing (reads_with self.now tree packed.entry)
            (all_names self.now) (left_in tree items)) }
        ensures failed { IfErr result (MayStop F.reading_may_fail) }
    {
        self.listed(alloc, self.every_name(), packed)
    }

    /// The same of those whose names begin so, by their bytes: `refs/heads/fe` lists
    /// `refs/heads/feature`, and `refs/heads/a/` only what is below `refs/heads/a`. Below `refs` no
    /// folder is listed in which none of them can be. Fails as `iter_packed` does.
    pub fn iter_prefixed_packed<'s, 'p>(
        &'s self,
        alloc: Global,
        prefix: &[u8],
        packed: Option<&'p Buffer>,
    ) -> Result<LooseThenPacked<'s, 'p, F>, Error>
        ensures store { IfOk result (λ items. items.search.store.now ≡ self.now) }
        ensures listed { F.is_honest self.now.files → let tree = (F.history self.now.files).tree in
            IfOk result (λ items. IsListing (reads_with self.now tree packed.entry)
            (names_with self.now prefix.now) (left_in tree items)) }
        ensures failed { IfErr result (MayStop F.reading_may_fail) }
    {
        let front = self.known(alloc, prefix)?;
        let asked = Asked {
            front: front.as_bytes(),
            is_whole: false,
            composes: self.options.precompose_unicode,
        };
        self.listed(alloc, asked, packed)
    }

    /// The reference of this name, and those whose names are below it, by components as `git
    /// for-each-ref` takes them: `refs/heads/a` lists itself and `refs/heads/a/b`, and not
    /// `refs/heads/ab`; with a slash at its end it lists what begins so. Below `refs` no folder is
    /// listed in which none of them can be. Fails as `iter_packed` does.
    pub fn iter_within_packed<'s, 'p>(
        &'s self,
        alloc: Global,
        folder: &[u8],
        packed: Option<&'p Buffer>,
    ) -> Result<LooseThenPacked<'s, 'p, F>, Error>
        ensures store { IfOk result (λ items. items.search.store.now ≡ self.now) }
        ensures listed { F.is_honest self.now.files → let tree = (F.history self.now.files).tree in
            IfOk result (λ items. IsListing (reads_with self.now tree packed.entry)
            (names_within self.now folder.now) (left_in tree items)) }
        ensures failed { IfErr result (MayStop F.reading_may_fail) }
    {
        let front = self.known(alloc, folder)?;
        let asked = Asked {
            front: front.as_bytes(),
            is_whole: true,
            composes: self.options.precompose_unicode,
        };
        self.listed(alloc, asked, packed)
    }

    /// The references below `refs/` with files of their own, ascending by name, as `iter_packed`
    /// returns them. Fails as that does.
    pub fn loose_iter(&self, alloc: Global) -> Result<LooseThenPacked<'_, '_, F>, Error>
        ensures store { IfOk result (λ items. items.search.store.now ≡ self.now) }
        ensures listed { F.is_honest self.now.files → let tree = (F.history self.now.files).tree in
            IfOk result (λ items. IsListing (reads_with self.now tree None) (all_names self.now)
            (left_in tree items)) }
        ensures failed { IfErr result (MayStop F.reading_may_fail) }
    {
        self.listed(alloc, self.every_name(), None)
    }

    /// The same of those whose names begin so. Fails as `iter_packed` does.
    pub fn loose_iter_prefixed(
        &self,
        alloc: Global,
        prefix: &[u8],
    ) -> Result<LooseThenPacked<'_, '_, F>, Error>
        ensures store { IfOk result (λ items. items.search.store.now ≡ self.now) }
        ensures listed { F.is_honest self.now.files → let tree = (F.history self.now.files).tree in
            IfOk result (λ items. IsListing (reads_with self.now tree None)
            (names_with self.now prefix.now) (left_in tree items)) }
        ensures failed { IfErr result (MayStop F.reading_may_fail) }
    {
        self.iter_prefixed_packed(alloc, prefix, None)
    }

    /// The pseudo references of the worktree, ascending by name: `HEAD`, and names of capital
    /// letters and `_` that end so, read as `iter_packed` reads. Returns `Traversal` if the
    /// worktree's folder couldn't be listed.
    pub fn iter_pseudo(&self, alloc: Global) -> Result<LooseThenPacked<'_, '_, F>, Error>
        ensures store { IfOk result (λ items. items.search.store.now ≡ self.now) }
        ensures listed { F.is_honest self.now.files → let tree = (F.history self.now.files).tree in
            IfOk result (λ items. IsListing (reads_with self.now tree None) is_pseudo
            (left_in tree items)) }
        ensures failed { IfErr result (MayStop F.reading_may_fail) }
    {
        let mut names = BTreeMap::new(alloc);
        self.put_pseudo(alloc, &mut names)?;
        Ok(self.items(alloc, None, names))
    }

    // All names below `refs/` are wanted.
    fn every_name(&self) -> Asked<'static>
        ensures { is_asked result ≡ all_names self.now }
    {
        Asked {
            front: b"",
            is_whole: false,
            composes: self.options.precompose_unicode,
        }
    }

    // The references of the wanted names.
    fn listed<'s, 'p>(
        &'s self,
        alloc: Global,
        asked: Asked<'_>,
        packed: Option<&'p Buffer>,
    ) -> Result<LooseThenPacked<'s, 'p, F>, Error>
        ensures store { IfOk result (λ items. items.search.store.now ≡ self.now) }
        ensures listed { F.is_honest self.now.files → let tree = (F.history self.now.files).tree in
            IfOk result (λ items. IsListing (reads_with self.now tree packed.entry)
            (is_asked asked.entry) (left_in tree items)) }
        ensures failed { IfErr result (MayStop F.reading_may_fail) }
    {
        let mut names = BTreeMap::new(alloc);
        self.put_loose(alloc, asked, &mut names)?;
        match packed {
            Some(buffer) => {
                put_packed(alloc, buffer, asked, &mut names)?;
                Ok(self.items(alloc, packed, names))
            }
            None => Ok(self.items(alloc, packed, names)),
        }
    }

    // The references of these names.
    fn items<'s, 'p>(
        &'s self,
        alloc: Global,
        packed: Option<&'p Buffer>,
        names: Names,
    ) -> LooseThenPacked<'s, 'p, F>
        ensures store { result.search.store.now ≡ self.now }
        ensures packed { result.search.packed ≡ packed.entry }
        ensures names { result.names ≡ names.entries }
        ensures order { IsOrdered path_cmp names }
    {
        LooseThenPacked {
            search: Search {
                alloc,
                store: self,
                packed,
            },
            names: names.into_iter(),
        }
    }
}
