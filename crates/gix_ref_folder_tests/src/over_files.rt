//! A system over files.
ghost use Rattle.std.specs.Prelude.{◌≡◌, ◌≢◌, ◌++◌, ◌∷◌, ℕ, List, string_bytes, IfOk, OnErr, MatchOption};
ghost use Rattle.gix_ref_folder.specs.Systems.{AreRootNames};
ghost use Rattle.gix_ref_folder.specs.declared.part.Part.{Part};
ghost use Rattle.gix_ref_folder.specs.declared.part.Part.TheVariants.{Objects, Names};

use crate::reports::{newly, reported};
use gix_object_lines::cut::strip_prefix;
use gix_ref_file::{Files, Place};
use gix_ref_folder::{Found, Part, System};
use std::alloc::Global;
use std::io::{self, ErrorKind};

/// The calls of a system that has one folder, each of whose two parts is kept in files.
///
/// It is honest of both parts at once, if the files are honest and those of a part hold nothing of
/// the other: each clause of [`System`] is then proved. A call at a place outside the folder fails
/// and changes nothing.
#[derive(Drop)]
pub struct OverFiles<F: Files> {
    alloc: Global,
    root: String,
    objects: F,
    names: F,
}

impl<F: Files> OverFiles<F> {
    ghost use Rattle.gix_ref_folder_tests.specs.OverFiles.{root_of, files_of, IsSpot, IsHonestAt};

    /// Returns the system with a folder at this root.
    pub fn new(alloc: Global, root: String, objects: F, names: F) -> Self
        ensures root { root_of result ≡ string_bytes root }
        ensures objects { files_of result Objects ≡ objects }
        ensures names { files_of result Names ≡ names }
    {
        OverFiles {
            alloc,
            root,
            objects,
            names,
        }
    }

    // Returns the part that a place belongs to, and its path there; an error if the place is
    // outside the folder.
    fn spot<'a>(&self, place: &'a str) -> io::Result<(Part, &'a [u8])>
        ensures spot { IfOk result (λ spot. IsSpot (root_of self.now) spot.0 spot.1.now place.now) }
        ensures outside { OnErr result ((path : List ℕ) → place.now ≢ root_of self.now ++ 47 ∷ path) }
    {
        let Some(path) = below(self.root.as_bytes(), place.as_bytes()) else {
            return Err(io::Error::new(ErrorKind::NotFound, "not in the folder"));
        };
        if Part::Objects.has(path) {
            return Ok((Part::Objects, path));
        }
        Ok((Part::Names, path))
    }

    fn files(&self, part: Part) -> &F
        ensures { result.now ≡ files_of self.now part }
    {
        match part {
            Part::Objects => &self.objects,
            Part::Names => &self.names,
        }
    }

    // Returns the names right in the root, of both parts.
    fn root_names(&self, alloc: Global) -> io::Result<Vec<Vec<u8>>>
        ensures { (root : List ℕ) (part : Part) → IsHonestAt F.is_honest F.history self.now root
            → IfOk result (λ names.
            AreRootNames part (F.history (files_of self.now part)).tree names.items) }
    {
        let mut names = reported(self.objects.list(alloc, b""))?;
        let mut others = reported(self.names.list(alloc, b""))?;
        names.append(&mut others)?;
        Ok(names)
    }
}

// Returns what follows a folder's path and a slash; `None` if the place isn't below the folder.
fn below<'a>(root: &[u8], place: &'a [u8]) -> Option<&'a [u8]>
    ensures { MatchOption result ((path : List ℕ) → place.now ≢ root.now ++ 47 ∷ path)
        (λ path. place.now ≡ root.now ++ 47 ∷ path.now) }
{
    let rest = strip_prefix(place, root)?;
    strip_prefix(rest, b"/")
}

impl<F: Files> System for OverFiles<F> {
    ghost use Rattle.gix_ref_folder_tests.specs.OverFiles.{files_of, IsHonestAt};

    ghost history = { λ system root part. F.history (files_of system part) };

    ghost is_honest = { λ system root part. IsHonestAt F.is_honest F.history system root };

    fn kind(&self, place: &str) -> io::Result<Found> {
        let (part, path) = self.spot(place)?;
        match reported(self.files(part).kind_of(path)) {
            Ok(Place::File(len)) => Ok(Found::File(len)),
            Ok(Place::Folder) => Ok(Found::Folder),
            Ok(Place::Absent) => Err(io::Error::new(ErrorKind::NotFound, "nothing is there")),
            Err(error) => Err(error),
        }
    }

    fn read(&self, alloc: Global, place: &str, most: u64) -> io::Result<Option<Vec<u8>>> {
        let (part, path) = self.spot(place)?;
        let mut bytes = Vec::new(alloc);
        match reported(self.files(part).read(path, &mut bytes))? {
            Some(count) if count as u64 > most => {
                Err(io::Error::new(ErrorKind::FileTooLarge, "File too large"))
            }
            Some(_) => Ok(Some(bytes)),
            None => Ok(None),
        }
    }

    fn read_at(&self, place: &str, at: u64, buffer: &mut [u8]) -> io::Result<Option<usize>> {
        let (part, path) = self.spot(place)?;
        reported(self.files(part).read_at(path, at, buffer))
    }

    fn list(&self, alloc: Global, place: &str) -> io::Result<Vec<Vec<u8>>> {
        let (part, path) = self.spot(place)?;
        reported(self.files(part).list(alloc, path))
    }

    fn list_root(&self, alloc: Global, place: &str) -> io::Result<Vec<Vec<u8>>> {
        if place.as_bytes() == self.root.as_bytes() {
            return self.root_names(alloc);
        }
        Err(io::Error::new(ErrorKind::NotFound, "not the folder"))
    }

    fn create_new(&mut self, place: &str, bytes: &[u8]) -> io::Result<()> {
        let (part, path) = self.spot(place)?;
        match part {
            Part::Objects => newly(self.objects.create_new(self.alloc, path, bytes)),
            Part::Names => newly(self.names.create_new(self.alloc, path, bytes)),
        }
    }

    fn write(&mut self, place: &str, bytes: &[u8]) -> io::Result<()> {
        let (part, path) = self.spot(place)?;
        match part {
            Part::Objects => reported(self.objects.write(self.alloc, path, bytes)),
            Part::Names => reported(self.names.write(self.alloc, path, bytes)),
        }
    }

    fn append(&mut self, place: &str, bytes: &[u8]) -> io::Result<()> {
        let (part, path) = self.spot(place)?;
        match part {
            Part::Objects => reported(self.objects.append(self.alloc, path, bytes)),
            Part::Names => reported(self.names.append(self.alloc, path, bytes)),
        }
    }

    fn shorten(&mut self, place: &str, length: u64) -> io::Result<()> {
        let (part, path) = self.spot(place)?;
        match part {
            Part::Objects => reported(self.objects.shorten(self.alloc, path, length)),
            Part::Names => reported(self.names.shorten(self.alloc, path, length)),
        }
    }

    fn rename(&mut self, from: &str, to: &str) -> io::Result<()> {
        let (part, source) = self.spot(from)?;
        let (_, target) = self.spot(to)?;
        if !part.has(target) {
            return Err(io::Error::new(ErrorKind::CrossesDevices, "not in one part"));
        }
        match part {
            Part::Objects => reported(self.objects.rename(self.alloc, source, target)),
            Part::Names => reported(self.names.rename(self.alloc, source, target)),
        }
    }

    fn remove_file(&mut self, place: &str) -> io::Result<()> {
        let (part, path) = self.spot(place)?;
        match part {
            Part::Objects => reported(self.objects.remove_file(self.alloc, path)),
            Part::Names => reported(self.names.remove_file(self.alloc, path)),
        }
    }

    fn make_folder(&mut self, place: &str) -> io::Result<()> {
        let (part, path) = self.spot(place)?;
        match part {
            Part::Objects => reported(self.objects.make_folder(self.alloc, path)),
            Part::Names => reported(self.names.make_folder(self.alloc, path)),
        }
    }

    fn remove_folder(&mut self, place: &str) -> io::Result<()> {
        let (part, path) = self.spot(place)?;
        match part {
            Part::Objects => reported(self.objects.remove_empty_folder(self.alloc, path)),
            Part::Names => reported(self.names.remove_empty_folder(self.alloc, path)),
        }
    }

    ghost shown = { λ system root part honest. record {
      rooted = F.rooted (files_of system part) (honest.honest part);
      own = honest.own part;
    } };
}
