//! The trait of a system's calls (`System`): what each does at a path of the system's own.
ghost use Rattle.std.specs.Prelude.{◌≡◌, ◌≤◌, ℕ, List, None, length, option_map, IfOk, IfErr, IfSome, OnOk, IsTrue, IsFalse, IsSome};
ghost use Rattle.std.specs.IoError.{error_kind};
ghost use Rattle.std.specs.declared.io.ErrorKind.TheVariants.{AlreadyExists};
ghost use Rattle.gix_ref_file.specs.History.{History};
ghost use Rattle.gix_ref_file.specs.Tree.{node_at, bytes_of, bytes_at, is_folder, part, overwritten};
ghost use Rattle.gix_ref_file.specs.Changes.{to_create, to_write, to_append, to_shorten, to_remove_file, to_make_folder, to_remove_folder};
ghost use Rattle.gix_ref_folder.specs.Errors.{means_absent};
ghost use Rattle.gix_ref_folder.specs.Systems.{IsFound, AreNames, AreRootNames, Reads, Performs, Moves, IsShown};
ghost use Rattle.gix_ref_folder.specs.declared.part.Part.{Part};

use crate::part::Part;
use std::alloc::Global;
use std::io;

/// What a system has at a path.
#[derive(Clone, Copy, Debug, PartialEq, Eq)]
pub enum Found {
    /// A file of so many bytes.
    File(u64),
    /// A folder.
    Folder,
    /// What is neither, such as a link.
    Other,
}

/// The calls of a system, at paths of its own. Each returns the system's error if that refuses it.
///
/// Each clause is about one part of what is below a root, if the part is honest: there the calls do
/// what they say, and nobody else changes anything. Nothing is said of a path that isn't of an
/// honest part. An error says that something is absent only by its kind (`NotFound`,
/// `NotADirectory`, `InvalidFilename`). A change that fails, or is stopped with the process, leaves
/// all as before or as after it, and any beginning of what it was to write.
pub trait System {
    /// What a part of what is below a root holds, and what it held before.
    ghost history: { Self → List ℕ → Part → History };

    /// Whether the calls do what they say in a part of what is below a root, and nobody else
    /// changes it.
    ghost is_honest: { Self → List ℕ → Part → Type 0 };

    /// Returns what is at a path; an error if nothing is.
    fn kind(&self, place: &str) -> io::Result<Found>
        ensures found { Reads is_honest history self.now place.now
            (λ tree path. IfOk result (λ found. IsFound found (node_at tree path))) }
        ensures missing { Reads is_honest history self.now place.now
            (λ tree path. IfErr result (λ error. IsTrue (means_absent (error_kind error))
            → node_at tree path ≡ None)) };

    /// Returns a file's bytes, or `None` if no file is there: nothing, or a folder. A file of more
    /// than `most` bytes is an error (`FileTooLarge`), found by its length.
    fn read(&self, alloc: Global, place: &str, most: u64) -> io::Result<Option<Vec<u8>>>
        ensures { Reads is_honest history self.now place.now
            (λ tree path. IfOk result (λ found. option_map (λ bytes. bytes.items) found
            ≡ bytes_of (node_at tree path))) };

    /// Puts what a file has from a byte on into the beginning of a buffer, as much as fits, and
    /// returns how many bytes that is, or `None` if no file is there.
    fn read_at(&self, place: &str, at: u64, buffer: &mut [u8]) -> io::Result<Option<usize>>
        ensures count { Reads is_honest history self.now place.now
            (λ tree path. IfOk result (λ count.
            count ≡ option_map (λ bytes. length (part bytes at (length buffer.old)))
            (bytes_of (node_at tree path)))) }
        ensures bytes { Reads is_honest history self.now place.now
            (λ tree path. OnOk result (buffer.new
            ≡ overwritten buffer.old (part (bytes_at tree path) at (length buffer.old)))) }
        ensures fits { IfOk result (λ count. IfSome count (λ n. n ≤ length buffer.new)) }
        ensures len { length buffer.new ≡ length buffer.old };

    /// Returns the names right in a folder, in any order; an error if no folder is there.
    fn list(&self, alloc: Global, place: &str) -> io::Result<Vec<Vec<u8>>>
        ensures names { Reads is_honest history self.now place.now
            (λ tree path. IfOk result (λ names. AreNames tree path names.items)) }
        ensures missing { Reads is_honest history self.now place.now
            (λ tree path. IfErr result (λ error. IsTrue (means_absent (error_kind error))
            → IsFalse (is_folder (node_at tree path)))) };

    /// Returns the names right in a root, of all its parts, in any order.
    fn list_root(&self, alloc: Global, place: &str) -> io::Result<Vec<Vec<u8>>>
        ensures { (root : List ℕ) (part : Part) → is_honest self.now root part → place.now ≡ root
            → IfOk result (λ names. AreRootNames part (history self.now root part).tree names.items) };

    /// Makes a file of these bytes if nothing is there; `AlreadyExists` if something is.
    fn create_new(&mut self, place: &str, bytes: &[u8]) -> io::Result<()>
        ensures change { Performs is_honest history self.old self.new place.now
            (λ path. to_create path bytes.now) result }
        ensures free { Reads is_honest history self.old place.now
            (λ tree path. OnOk result (node_at tree path ≡ None)) }
        ensures taken { Reads is_honest history self.old place.now
            (λ tree path. IfErr result (λ error. error_kind error ≡ AlreadyExists
            → IsSome (node_at tree path))) };

    /// Makes a file of these bytes, or replaces the bytes of the file that is there.
    fn write(&mut self, place: &str, bytes: &[u8]) -> io::Result<()>
        ensures change { Performs is_honest history self.old self.new place.now
            (λ path. to_write path bytes.now) result };

    /// Appends these bytes to a file, or makes a file of them.
    fn append(&mut self, place: &str, bytes: &[u8]) -> io::Result<()>
        ensures change { Performs is_honest history self.old self.new place.now
            (λ path. to_append path bytes.now) result };

    /// Takes the end of a file off, so that its first `length` bytes are left; an error if it is shorter.
    fn shorten(&mut self, place: &str, length: u64) -> io::Result<()>
        ensures change { Performs is_honest history self.old self.new place.now
            (λ path. to_shorten path length) result };

    /// Gives a file another path, and replaces the file that is there, if there is one.
    fn rename(&mut self, from: &str, to: &str) -> io::Result<()>
        ensures change { Moves is_honest history self.old self.new from.now to.now result };

    /// Removes a file.
    fn remove_file(&mut self, place: &str) -> io::Result<()>
        ensures change { Performs is_honest history self.old self.new place.now to_remove_file result };

    /// Makes a folder.
    fn make_folder(&mut self, place: &str) -> io::Result<()>
        ensures change { Performs is_honest history self.old self.new place.now to_make_folder result };

    /// Removes a folder that is empty.
    fn remove_folder(&mut self, place: &str) -> io::Result<()>
        ensures change { Performs is_honest history self.old self.new place.now to_remove_folder result };

    /// So what exists in an honest part is of the part, and listings from the root reach it.
    ghost shown: { (system : Self) (root : List ℕ) (part : Part) → is_honest system root part
        → IsShown part (history system root part).tree };
}
