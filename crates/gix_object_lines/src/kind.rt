//! The kinds of objects.

ghost use Rattle.std.specs.Prelude.{◌≡◌, ◌↔◌, Some, IsTrue, MatchResult};
ghost use Rattle.gix_object_lines.specs.Kind.{kind_word, IsNoKind};
ghost use Rattle.gix_object_lines.specs.declared.kind.Kind.{Kind};
ghost use Rattle.gix_object_lines.specs.declared.kind.Kind.TheVariants.{Tree, Blob, Commit, Tag};

use std::fmt;

/// The kind of an object.
#[derive(Debug, Clone, Copy, PartialEq, Eq, PartialOrd, Ord, Hash)]
pub enum Kind {
    /// A folder: names, modes and ids.
    Tree,
    /// The content of a file.
    Blob,
    /// A tree with its history.
    Commit,
    /// A name and a message for another object.
    Tag,
}

/// Why bytes name no kind.
#[derive(Debug, Clone, Copy, PartialEq, Eq, thiserror::Error)]
pub enum Error {
    /// They are none of `tree`, `blob`, `commit` and `tag`.
    #[error("the word names no kind of object")]
    InvalidObjectKind,
}

impl Kind {
    /// The kind that the word names, in lower-case letters; `InvalidObjectKind` if it names none.
    pub fn from_bytes(s: &[u8]) -> Result<Kind, Error>
        ensures { MatchResult result (λ kind. s.now ≡ kind_word kind) (λ _. IsNoKind s.now) }
    {
        if s == b"tree".as_slice() {
            Ok(Kind::Tree)
        } else if s == b"blob".as_slice() {
            Ok(Kind::Blob)
        } else if s == b"commit".as_slice() {
            Ok(Kind::Commit)
        } else if s == b"tag".as_slice() {
            Ok(Kind::Tag)
        } else {
            Err(Error::InvalidObjectKind)
        }
    }

    /// The word that names the kind.
    pub fn as_bytes(&self) -> &'static [u8]
        ensures { result.now ≡ kind_word self.now }
    {
        match self {
            Kind::Tree => b"tree",
            Kind::Blob => b"blob",
            Kind::Commit => b"commit",
            Kind::Tag => b"tag",
        }
    }

    /// Returns whether it is the kind of commits.
    pub fn is_commit(&self) -> bool
        ensures { IsTrue result ↔ (self.now ≡ Commit) }
    {
        matches!(self, Kind::Commit)
    }

    /// Returns whether it is the kind of trees.
    pub fn is_tree(&self) -> bool
        ensures { IsTrue result ↔ (self.now ≡ Tree) }
    {
        matches!(self, Kind::Tree)
    }

    /// Returns whether it is the kind of tags.
    pub fn is_tag(&self) -> bool
        ensures { IsTrue result ↔ (self.now ≡ Tag) }
    {
        matches!(self, Kind::Tag)
    }

    /// Returns whether it is the kind of blobs.
    pub fn is_blob(&self) -> bool
        ensures { IsTrue result ↔ (self.now ≡ Blob) }
    {
        matches!(self, Kind::Blob)
    }
}

impl fmt::Display for Kind {
    ghost output = { λ kind. Some (kind_word kind) };

    fn fmt<W: fmt::Write>(&self, f: &mut fmt::Formatter<W>) -> fmt::Result {
        match self {
            Kind::Tree => f.write_str("tree"),
            Kind::Blob => f.write_str("blob"),
            Kind::Commit => f.write_str("commit"),
            Kind::Tag => f.write_str("tag"),
        }
    }
}
