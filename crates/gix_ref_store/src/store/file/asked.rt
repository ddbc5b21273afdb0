//! Which names a listing wants: all, by prefix or below a name; which folder and paths may have them.

ghost use Rattle.std.specs.Prelude.{◌≡◌, ◌<◌, ◌++◌, ◌∷◌, [], ℕ, List, Some, IsTrue, IsFalse, IfOk, IfSome, MatchOption, length};
ghost use Rattle.gix_object_lines.specs.NameTest.{begins, is_full_name};
ghost use Rattle.gix_ref_store.specs.Asks.{is_asked};
ghost use Rattle.gix_ref_store.specs.Asks as spec;
ghost use Rattle.gix_ref_store.specs.Listings as listings;

use crate::store::file::init::is_below;
use crate::store::file::known::as_known;
use gix_object_lines::ByteString;
use gix_object_lines::lines::is_full_name;
use gix_ref_file::paths::parent;
use gix_ref_name::FullName;
use gix_ref_name::compose::precompose_unicode;
use std::alloc::{AllocError, Global};

// The names below `refs/` that a listing wants.
#[derive(Clone, Copy)]
pub(crate) struct Asked<'a> {
    // How they begin, as the store knows names.
    pub(crate) front: &'a [u8],
    // Whether that is the name of one, and all others are below it.
    pub(crate) is_whole: bool,
    // Whether the store knows names with their characters composed.
    pub(crate) composes: bool,
}

impl Asked<'_> {
    // A folder in which all wanted names are. It is `refs` if another could have more than one path.
    pub(crate) fn folder(&self) -> &[u8]
        ensures some { 0 < length result.now }
        ensures all { (name : List ℕ) → IsTrue (is_asked self.now name)
            → IsTrue (begins (result.now ++ 47 ∷ []) name) }
    {
        let folder = parent(self.front);
        if self.composes || folder.is_empty() || !is_full_name(folder) {
            return b"refs";
        }
        folder
    }

    // Returns whether a name below `refs/` is wanted.
    fn fits(self, name: &[u8]) -> bool
        ensures { result ≡ spec.fits self.entry name.now }
    {
        if self.is_whole {
            is_within(self.front, name)
        } else {
            name.starts_with(self.front)
        }
    }

    // Returns whether wanted names may be at this path of a file or below it.
    pub(crate) fn may_be_at(self, alloc: Global, path: &[u8]) -> Result<bool, AllocError>
        ensures { IfOk result (λ may. IsTrue (spec.leads self.entry path.now) → IsTrue may) }
    {
        if self.leads(path) {
            return Ok(true);
        }
        if !self.composes {
            return Ok(false);
        }
        let composed = precompose_unicode(alloc, path)?;
        Ok(self.leads(composed.as_bytes()))
    }

    // The same of a path as the store knows it.
    fn leads(self, path: &[u8]) -> bool
        ensures { result ≡ spec.leads self.entry path.now }
    {
        self.fits(path) || is_below(path, self.front)
    }

    // The name of a file's path or of a record, as the store knows it; `None` if it isn't wanted.
    pub(crate) fn name_of(self, alloc: Global, path: &[u8]) -> Result<Option<FullName>, AllocError>
        ensures full { IfOk result (λ found. IfSome found (λ name. IsTrue (is_full_name name))) }
        ensures asked { IfOk result (λ found.
            IfSome found (λ name. IsTrue (is_asked self.entry name))) }
        ensures found { IsTrue (is_full_name path.now) → IsTrue (is_asked self.entry path.now)
            → IfOk result (λ found. found ≡ Some path.now) }
    {
        let name = as_known(alloc, self.composes, ByteString::from_slice(alloc, path)?)?;
        if name.as_bytes().starts_with(b"refs/") && self.fits(name.as_bytes()) {
            return Ok(full_name(name));
        }
        Ok(None)
    }
}

// The name of these bytes, if they are a full one.
fn full_name(bytes: ByteString) -> Option<FullName>
    ensures { MatchOption result (IsFalse (is_full_name bytes))
        (λ name. (name ≡ bytes) × IsTrue (is_full_name bytes)) }
{
    match FullName::new(bytes) {
        Ok(name) => Some(name),
        Err(_) => None,
    }
}

// Returns whether the name is this one, or below it, as Git takes patterns of names.
fn is_within(folder: &[u8], name: &[u8]) -> bool
    ensures { result ≡ listings.is_within folder.now name.now }
{
    name == folder || is_below(folder, name) || (folder.ends_with(b"/") && name.starts_with(folder))
}
