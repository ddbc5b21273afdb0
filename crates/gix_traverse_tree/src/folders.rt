//! For `entries_at`: splits paths into names, and numbers the folders that begin them.

ghost use Rattle.std.specs.Prelude.{◌≡◌, ◌≢◌, ◌<◌, ◌⊎◌, ⊤, ℕ, List, [], length, map, IfOk, OnOk, Some, None, MatchBool};
ghost use Rattle.gix_traverse_tree.specs.AtPaths.{names_of as names_between, BeginsOne};
ghost use Rattle.gix_traverse_tree.specs.Folders.{number_in, numbers_of, IsNumbered, NumbersName, NumbersPath, NumbersPaths};

use std::alloc::{AllocError, Global};
use std::collections::BTreeMap;

/// What begins some paths: the numbers of what is longer by a name.
#[derive(Drop)]
pub(crate) struct Folder<'a> {
    names: BTreeMap<&'a [u8], usize>,
}

impl<'a> Folder<'a> {
    // What no path goes on from. It takes no memory.
    fn empty(alloc: Global) -> Folder<'a>
        ensures { (name : List ℕ) → number_in result name ≡ None }
    {
        Folder {
            names: BTreeMap::new(alloc),
        }
    }

    /// Returns whether no path goes on from here.
    pub(crate) fn is_empty(&self) -> bool
        ensures { MatchBool result ((name : List ℕ) → number_in self.now name ≡ None)
            ((name : List ℕ) × (n : ℕ) × (number_in self.now name ≡ Some n)) }
    {
        self.names.is_empty()
    }

    /// The number of what is longer by this name.
    pub(crate) fn number(&self, name: &[u8]) -> Option<usize>
        ensures { result ≡ number_in self.now name.now }
    {
        self.names.get(name).copied()
    }

    // Gives a name a number.
    fn put(&mut self, name: &'a [u8], number: usize) -> Result<(), AllocError>
        ensures here { OnOk result (number_in self.new name.now ≡ Some number) }
        ensures others { (other : List ℕ) → other ≢ name.now
            → number_in self.new other ≡ number_in self.old other }
    {
        self.names.insert(name, number)?;
        Ok(())
    }
}

// The number of a name in the folder of this number.
fn number_at(folders: &[Folder<'_>], at: usize, name: &[u8]) -> Option<usize>
    requires { at < length folders.now }
    ensures { result ≡ numbers_of folders.now at name.now }
{
    folders[at].number(name)
}

// Gives a name in the folder of this number a number.
fn put_at<'a>(
    folders: &mut Vec<Folder<'a>>,
    at: usize,
    name: &'a [u8],
    number: usize,
) -> Result<(), AllocError>
    requires { at < length folders.old.items }
    ensures here { OnOk result (numbers_of folders.new.items at name.now ≡ Some number) }
    ensures others { (i : ℕ) (other : List ℕ) → (i ≡ at → other ≡ name.now → ⊥)
        → numbers_of folders.new.items i other ≡ numbers_of folders.old.items i other }
    ensures len { length folders.new.items ≡ length folders.old.items }
{
    folders[at].put(name, number)
}

// The number of a name in the folder of this number, a new one if there was none.
fn number_name<'a>(
    alloc: Global,
    folders: &mut Vec<Folder<'a>>,
    at: usize,
    name: &'a [u8],
) -> Result<usize, AllocError>
    requires within { at < length folders.old.items }
    requires numbered { IsNumbered folders.old.items }
    ensures { IfOk result (λ number. NumbersName at name.now number folders.old.items
        folders.new.items) }
{
    if let Some(number) = number_at(folders.as_slice(), at, name) {
        return Ok(number);
    }
    let number = folders.len();
    put_at(folders, at, name, number)?;
    folders.push(Folder::empty(alloc))?;
    Ok(number)
}

// The names of a path.
fn names_of(alloc: Global, path: &[u8]) -> Result<Vec<&[u8]>, AllocError>
    ensures { IfOk result (λ names. map (λ name. name.now) names.items ≡ names_between path.now) }
{
    path.split(|byte| *byte == b'/').collect(alloc)
}

// The number of a path; of what begins it each is numbered too.
fn number_path<'a>(
    alloc: Global,
    folders: &mut Vec<Folder<'a>>,
    path: &'a [u8],
) -> Result<usize, AllocError>
    requires some { 0 < length folders.old.items }
    requires numbered { IsNumbered folders.old.items }
    ensures { IfOk result (λ number. NumbersPath (names_between path.now) number
        folders.old.items folders.new.items) }
{
    let names = names_of(alloc, path)?;
    let mut at = 0;
    for name in names.as_slice() {
        at = number_name(alloc, folders, at, name)?;
    }
    Ok(at)
}

/// Numbers all that begins the paths, each once, and returns the paths' own numbers, in their
/// order. Nothing has the number 0.
pub(crate) fn number_paths<'a>(
    alloc: Global,
    folders: &mut Vec<Folder<'a>>,
    paths: &[&'a [u8]],
) -> Result<Vec<usize>, AllocError>
    ensures { IfOk result (λ numbers. NumbersPaths
        (map (λ path. names_between path.now) paths.now) numbers.items folders.new.items) }
{
    folders.clear();
    folders.push(Folder::empty(alloc))?;
    let mut numbers = Vec::new(alloc);
    for path in paths {
        let number = number_path(alloc, folders, path)?;
        numbers.push(number)?;
    }
    Ok(numbers)
}
