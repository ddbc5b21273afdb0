//! Modes of entries: numbers whose first bits say what kind of thing is named.

ghost use Rattle.std.specs.Prelude.{◌≡◌, ◌↔◌, not, ◌/◌, ◌⊎◌, false, IsTrue, MatchResult};
ghost use Rattle.bstr.specs.BStr.{bstr_bytes};
ghost use Rattle.gix_object_tree.specs.Mode.{kind_value, kind_word, kind_name, kind_of, is_tree_value, IsEntryMode};
ghost use Rattle.gix_object_tree.specs.declared.tree.mode.EntryKind.TheVariants as kinds;

use bstr::BStr;
use std::convert::TryFrom;

/// What an entry names.
#[derive(Debug, Clone, Copy, PartialEq, Eq, PartialOrd, Ord, Hash)]
pub enum EntryKind {
    /// A tree.
    Tree,
    /// A file.
    Blob,
    /// A file that may be run.
    BlobExecutable,
    /// A symbolic link, whose blob holds its target.
    Link,
    /// A commit of another repository.
    Commit,
}

/// The mode of an entry: a number of 16 bits, and whether a zero precedes it, as some programs
/// write a tree's.
#[derive(Debug, Clone, Copy, PartialEq, Eq, PartialOrd, Ord, Hash)]
pub struct EntryMode {
    pub(crate) value: u16,
    pub(crate) padded: bool,
    ghost tree_alone: { IsTrue padded → value ≡ 16384 },
}

impl EntryKind {
    /// The kind's mode in octal digits, as Git writes it.
    pub fn as_octal_str(&self) -> BStr<'static>
        ensures { bstr_bytes result ≡ kind_word self.now }
    {
        match self {
            EntryKind::Tree => BStr::new(b"40000"),
            EntryKind::Blob => BStr::new(b"100644"),
            EntryKind::BlobExecutable => BStr::new(b"100755"),
            EntryKind::Link => BStr::new(b"120000"),
            EntryKind::Commit => BStr::new(b"160000"),
        }
    }

    /// The number of the kind's mode.
    pub const fn value(self) -> u16
        ensures { result ≡ kind_value self }
    {
        match self {
            EntryKind::Tree => 0o040000,
            EntryKind::Blob => 0o100644,
            EntryKind::BlobExecutable => 0o100755,
            EntryKind::Link => 0o120000,
            EntryKind::Commit => 0o160000,
        }
    }
}

impl EntryMode {
    /// The mode's number.
    pub const fn value(self) -> u16
        ensures { result ≡ self.value }
    {
        self.value
    }

    /// What an entry of this mode names. A file is executable if its owner may run it; a number of
    /// no other kind is a commit's.
    pub const fn kind(&self) -> EntryKind
        ensures { result ≡ kind_of self.now.value }
    {
        match self.value / 0o010000 {
            0o04 => EntryKind::Tree,
            0o10 => {
                if self.value / 0o000100 % 2 == 1 {
                    EntryKind::BlobExecutable
                } else {
                    EntryKind::Blob
                }
            }
            0o12 => EntryKind::Link,
            _ => EntryKind::Commit,
        }
    }

    /// Returns whether it is a tree's.
    pub const fn is_tree(&self) -> bool
        ensures { result ≡ is_tree_value self.now.value }
    {
        self.value / 0o010000 == 0o04
    }

    /// Returns whether it is a commit's.
    pub const fn is_commit(&self) -> bool
        ensures { IsTrue result ↔ (kind_of self.now.value ≡ kinds.Commit) }
    {
        matches!(self.kind(), EntryKind::Commit)
    }

    /// Returns whether it is a symbolic link's.
    pub const fn is_link(&self) -> bool
        ensures { IsTrue result ↔ (kind_of self.now.value ≡ kinds.Link) }
    {
        matches!(self.kind(), EntryKind::Link)
    }

    /// Returns whether it is not a tree's.
    pub const fn is_no_tree(&self) -> bool
        ensures { result ≡ not (is_tree_value self.now.value) }
    {
        !self.is_tree()
    }

    /// Returns whether it is a file's, which may be run or not.
    pub const fn is_blob(&self) -> bool
        ensures { IsTrue result ↔ (self.now.value / 4096 ≡ 8) }
    {
        self.value / 0o010000 == 0o10
    }

    /// Returns whether it is that of a file that may be run.
    pub const fn is_executable(&self) -> bool
        ensures { IsTrue result ↔ (kind_of self.now.value ≡ kinds.BlobExecutable) }
    {
        matches!(self.kind(), EntryKind::BlobExecutable)
    }

    /// Returns whether it is a file's or a symbolic link's.
    pub const fn is_blob_or_symlink(&self) -> bool
        ensures { IsTrue result
            ↔ ((self.now.value / 4096 ≡ 8) ⊎ (kind_of self.now.value ≡ kinds.Link)) }
    {
        self.is_blob() || self.is_link()
    }

    /// The kind's name: `tree`, `blob`, `exe`, `link` or `commit`.
    pub const fn as_str(&self) -> &'static str
        ensures { result.now ≡ kind_name (kind_of self.now.value) }
    {
        match self.kind() {
            EntryKind::Tree => "tree",
            EntryKind::Blob => "blob",
            EntryKind::BlobExecutable => "exe",
            EntryKind::Link => "link",
            EntryKind::Commit => "commit",
        }
    }
}

impl From<EntryKind> for EntryMode {
    ghost from_gives = { λ kind mode. (mode.value ≡ kind_value kind) × (mode.padded ≡ false) };

    fn from(kind: EntryKind) -> EntryMode {
        EntryMode {
            value: kind.value(),
            padded: false,
        }
    }
}

impl From<EntryMode> for EntryKind {
    ghost from_gives = { λ mode kind. kind ≡ kind_of mode.value };

    fn from(mode: EntryMode) -> EntryKind {
        mode.kind()
    }
}

// The mode of this number: a tree's, or one of those from the files' on. Any other number is the
// error.
impl TryFrom<u32> for EntryMode {
    type Error = u32;

    ghost try_from_gives = { λ number r. MatchResult r
        (λ mode. IsEntryMode number × (mode.value ≡ number) × (mode.padded ≡ false))
        (λ back. (back ≡ number) × (¬ IsEntryMode number)) };

    fn try_from(number: u32) -> Result<EntryMode, u32> {
        match number {
            0o040000 | 0o100000..=0o177777 => Ok(EntryMode {
                value: number as u16,
                padded: false,
            }),
            _ => Err(number),
        }
    }
}
