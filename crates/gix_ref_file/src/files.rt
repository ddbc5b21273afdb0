//! The trait of all files: readings of the current tree, changes of it, and what a stop may leave.
ghost use Rattle.std.specs.Prelude.{◌≡◌, ◌≤◌, ◌+◌, ◌++◌, ℕ, length, map, take, option_map, unwrap_or, is_none, IfOk, IfSome, OnOk, OnErr, IsErrOf};
ghost use Rattle.gix_ref_file.specs.declared.files.FileError.TheVariants.{Failed, Memory};
ghost use Rattle.gix_ref_file.specs.Tree.{node_at, place_of, bytes_of, bytes_at, part, overwritten, names_at, IsRooted};
ghost use Rattle.gix_ref_file.specs.Changes.{to_create, to_write, to_append, to_shorten, to_rename, to_remove_file, to_make_folder, to_remove_folder, allows};
ghost use Rattle.gix_ref_file.specs.History.{History, Makes, HasCause};

use std::alloc::{AllocError, AllocFailed, Global};
use thiserror::Error;

/// Why a call failed.
#[derive(Clone, Copy, Debug, PartialEq, Eq, Error)]
pub enum FileError {
    /// The tree doesn't allow the change, or a call to the storage failed.
    #[error("a call to the files failed")]
    Failed,
    /// Memory was refused.
    #[error("no memory is left")]
    Memory,
}

impl From<AllocError> for FileError {
    ghost from_gives = { λ _ e. e ≡ Memory };

    fn from(_: AllocError) -> Self {
        FileError::Memory
    }
}

impl<T: Drop> From<AllocFailed<T>> for FileError {
    ghost from_gives = { λ _ e. e ≡ Memory };

    fn from(_: AllocFailed<T>) -> Self {
        FileError::Memory
    }
}

/// What is at a path.
#[derive(Clone, Copy, Debug, PartialEq, Eq)]
pub enum Place {
    /// Nothing.
    Absent,
    /// A file of so many bytes.
    File(u64),
    /// A folder. The root, whose path is empty, is always one.
    Folder,
}

/// A tree of files and folders, named by paths: bytes, with `/` between the components. A path has
/// at most 4,096 bytes, and no component is empty, `.`, `..` or has a zero byte.
///
/// A file may be made at a path in a folder, unless a folder is at that path. A change that the
/// tree doesn't allow returns `Failed` and changes nothing. A change that is stopped or fails
/// leaves all as before or as after it, and of what it was to write any beginning. Each call
/// returns `Memory` if memory was refused, and may return `Failed` if the storage failed: a change
/// is then counted in `failures`, and a reading fails only if `reading_may_fail`. A change that
/// returns `Memory` has counted nothing.
pub trait Files {
    /// The current tree, and the earlier ones.
    ghost history: { Self → History };

    /// Whether readings report the current tree, and nothing but these calls changes it.
    ghost is_honest: { Self → Type 0 };

    /// How many changes failed that the tree allowed, up to the last `u64`.
    ghost failures: { Self → ℕ };

    /// Whether a reading may fail.
    ghost reading_may_fail: { Type 0 };

    /// Whether a change that returns an error has changed nothing.
    ghost is_atomic: { Type 0 };

    /// Returns what is at a path, and a file's length in bytes.
    fn kind_of(&self, path: &[u8]) -> Result<Place, FileError>
        ensures place { is_honest self.now
            → IfOk result (λ place. place ≡ place_of (node_at (history self.now).tree path.now)) }
        ensures failed { IsErrOf result Failed → reading_may_fail };

    /// Appends a file's bytes to `out` and returns how many they are, or `None` if there is no
    /// file. After an error `out` is as it was.
    fn read(&self, path: &[u8], out: &mut Vec<u8>) -> Result<Option<usize>, FileError>
        ensures count { is_honest self.now
            → IfOk result (λ count.
            count ≡ option_map length (bytes_of (node_at (history self.now).tree path.now))) }
        ensures bytes { is_honest self.now
            → OnOk result (out.new.items
            ≡ out.old.items ++ bytes_at (history self.now).tree path.now) }
        ensures front { take (length out.old.items) out.new.items ≡ out.old.items }
        ensures grown { IfOk result (λ count. length out.new.items
            ≡ length out.old.items + unwrap_or count 0) }
        ensures err { OnErr result (out.new.items ≡ out.old.items) }
        ensures failed { IsErrOf result Failed → reading_may_fail };

    /// Copies a file's bytes from byte `at` on into the beginning of `buffer`, as many as fit, and
    /// returns how many they are, or `None` if there is no file.
    fn read_at(&self, path: &[u8], at: u64, buffer: &mut [u8]) -> Result<Option<usize>, FileError>
        ensures count { is_honest self.now
            → IfOk result (λ count.
            count ≡ option_map (λ bytes. length (part bytes at (length buffer.old)))
            (bytes_of (node_at (history self.now).tree path.now))) }
        ensures bytes { is_honest self.now
            → OnOk result (buffer.new
            ≡ overwritten buffer.old
            (part (bytes_at (history self.now).tree path.now) at (length buffer.old))) }
        ensures fits { IfOk result (λ count. IfSome count (λ n. n ≤ length buffer.new)) }
        ensures len { length buffer.new ≡ length buffer.old }
        ensures failed { IsErrOf result Failed → reading_may_fail };

    /// Returns the names of the files and folders that are children of a folder, ascending by
    /// bytes; none if there is no folder.
    fn list(&self, alloc: Global, folder: &[u8]) -> Result<Vec<Vec<u8>>, FileError>
        ensures names { is_honest self.now
            → IfOk result (λ names. map (λ name. name.items) names.items
            ≡ names_at (history self.now).tree folder.now) }
        ensures failed { IsErrOf result Failed → reading_may_fail };

    /// Makes a file of these bytes and returns true, or returns false and changes nothing if
    /// something exists at the path already. Returns `Failed` if nothing exists there and no file
    /// may.
    fn create_new(&mut self, alloc: Global, path: &[u8], bytes: &[u8]) -> Result<bool, FileError>
        ensures honest { is_honest self.old → is_honest self.new }
        ensures is_new { is_honest self.old
            → IfOk result (λ made. made ≡ is_none (node_at (history self.old).tree path.now)) }
        ensures change { is_honest self.old
            → Makes (to_create path.now bytes.now) (history self.old) (history self.new) result }
        ensures cause { is_honest self.old
            → HasCause (allows (history self.old).tree (to_create path.now bytes.now))
            (failures self.old) (failures self.new) result }
        ensures later { failures self.old ≤ failures self.new }
        ensures unfailed { OnOk result (failures self.new ≡ failures self.old) }
        ensures memory { IsErrOf result Memory → failures self.new ≡ failures self.old }
        ensures atomic { is_atomic → OnErr result (history self.new ≡ history self.old) };

    /// Makes a file of these bytes, replacing a file that is there. Returns `Failed` if the path
    /// may hold no file.
    fn write(&mut self, alloc: Global, path: &[u8], bytes: &[u8]) -> Result<(), FileError>
        ensures honest { is_honest self.old → is_honest self.new }
        ensures change { is_honest self.old
            → Makes (to_write path.now bytes.now) (history self.old) (history self.new) result }
        ensures cause { is_honest self.old
            → HasCause (allows (history self.old).tree (to_write path.now bytes.now))
            (failures self.old) (failures self.new) result }
        ensures later { failures self.old ≤ failures self.new }
        ensures unfailed { OnOk result (failures self.new ≡ failures self.old) }
        ensures memory { IsErrOf result Memory → failures self.new ≡ failures self.old }
        ensures atomic { is_atomic → OnErr result (history self.new ≡ history self.old) };

    /// Appends these bytes to a file, or makes a file of them. Returns `Failed` if the path may
    /// hold no file.
    fn append(&mut self, alloc: Global, path: &[u8], bytes: &[u8]) -> Result<(), FileError>
        ensures honest { is_honest self.old → is_honest self.new }
        ensures change { is_honest self.old
            → Makes (to_append path.now bytes.now) (history self.old) (history self.new) result }
        ensures cause { is_honest self.old
            → HasCause (allows (history self.old).tree (to_append path.now bytes.now))
            (failures self.old) (failures self.new) result }
        ensures later { failures self.old ≤ failures self.new }
        ensures unfailed { OnOk result (failures self.new ≡ failures self.old) }
        ensures memory { IsErrOf result Memory → failures self.new ≡ failures self.old }
        ensures atomic { is_atomic → OnErr result (history self.new ≡ history self.old) };

    /// Takes the end of a file off, so that its first `length` bytes are left. Returns `Failed` if there is
    /// no file, or a shorter one.
    fn shorten(&mut self, alloc: Global, path: &[u8], length: u64) -> Result<(), FileError>
        ensures honest { is_honest self.old → is_honest self.new }
        ensures change { is_honest self.old
            → Makes (to_shorten path.now length) (history self.old) (history self.new) result }
        ensures cause { is_honest self.old
            → HasCause (allows (history self.old).tree (to_shorten path.now length))
            (failures self.old) (failures self.new) result }
        ensures later { failures self.old ≤ failures self.new }
        ensures unfailed { OnOk result (failures self.new ≡ failures self.old) }
        ensures memory { IsErrOf result Memory → failures self.new ≡ failures self.old }
        ensures atomic { is_atomic → OnErr result (history self.new ≡ history self.old) };

    /// Gives a file another path, replacing a file that is there. Returns `Failed` if there is no
    /// file at `from` or `to` may hold none.
    fn rename(&mut self, alloc: Global, from: &[u8], to: &[u8]) -> Result<(), FileError>
        ensures honest { is_honest self.old → is_honest self.new }
        ensures change { is_honest self.old
            → Makes (to_rename from.now to.now) (history self.old) (history self.new) result }
        ensures cause { is_honest self.old
            → HasCause (allows (history self.old).tree (to_rename from.now to.now))
            (failures self.old) (failures self.new) result }
        ensures later { failures self.old ≤ failures self.new }
        ensures unfailed { OnOk result (failures self.new ≡ failures self.old) }
        ensures memory { IsErrOf result Memory → failures self.new ≡ failures self.old }
        ensures atomic { is_atomic → OnErr result (history self.new ≡ history self.old) };

    /// Removes a file. Returns `Failed` if there is none.
    fn remove_file(&mut self, alloc: Global, path: &[u8]) -> Result<(), FileError>
        ensures honest { is_honest self.old → is_honest self.new }
        ensures change { is_honest self.old
            → Makes (to_remove_file path.now) (history self.old) (history self.new) result }
        ensures cause { is_honest self.old
            → HasCause (allows (history self.old).tree (to_remove_file path.now))
            (failures self.old) (failures self.new) result }
        ensures later { failures self.old ≤ failures self.new }
        ensures unfailed { OnOk result (failures self.new ≡ failures self.old) }
        ensures memory { IsErrOf result Memory → failures self.new ≡ failures self.old }
        ensures atomic { is_atomic → OnErr result (history self.new ≡ history self.old) };

    /// Makes a folder. Returns `Failed` if something is at the path, or the path may hold no file.
    fn make_folder(&mut self, alloc: Global, path: &[u8]) -> Result<(), FileError>
        ensures honest { is_honest self.old → is_honest self.new }
        ensures change { is_honest self.old
            → Makes (to_make_folder path.now) (history self.old) (history self.new) result }
        ensures cause { is_honest self.old
            → HasCause (allows (history self.old).tree (to_make_folder path.now))
            (failures self.old) (failures self.new) result }
        ensures later { failures self.old ≤ failures self.new }
        ensures unfailed { OnOk result (failures self.new ≡ failures self.old) }
        ensures memory { IsErrOf result Memory → failures self.new ≡ failures self.old }
        ensures atomic { is_atomic → OnErr result (history self.new ≡ history self.old) };

    /// Removes a folder. Returns `Failed` if there is none, for the root, and if the folder isn't
    /// empty.
    fn remove_empty_folder(&mut self, alloc: Global, path: &[u8]) -> Result<(), FileError>
        ensures honest { is_honest self.old → is_honest self.new }
        ensures change { is_honest self.old
            → Makes (to_remove_folder path.now) (history self.old) (history self.new) result }
        ensures cause { is_honest self.old
            → HasCause (allows (history self.old).tree (to_remove_folder path.now))
            (failures self.old) (failures self.new) result }
        ensures later { failures self.old ≤ failures self.new }
        ensures unfailed { OnOk result (failures self.new ≡ failures self.old) }
        ensures memory { IsErrOf result Memory → failures self.new ≡ failures self.old }
        ensures atomic { is_atomic → OnErr result (history self.new ≡ history self.old) };

    /// So every path can be reached by listings from the root.
    ghost rooted: { (files : Self) → is_honest files → IsRooted (history files).tree };
}
