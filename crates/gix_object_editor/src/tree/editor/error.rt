//! Why an edit is refused.

ghost use Rattle.std.specs.Prelude.{◌≡◌};
ghost use Rattle.gix_object_editor.specs.declared.tree.editor.error.Error.TheVariants.{FindExistingObject, Memory};

use gix_hash::ObjectId;
use gix_object_lines::ByteString;
use gix_object_lookup::find::existing_object;
use std::alloc::{AllocError, AllocFailed};

/// Why an edit is refused.
#[derive(Debug, Drop, thiserror::Error)]
pub enum Error {
    /// The path has no name, or an empty one.
    #[error("empty path components are not allowed")]
    EmptyPathComponent,
    /// A tree on the path couldn't be read.
    #[error(transparent)]
    FindExistingObject(existing_object::Error),
    /// The path of a file to remove has a folder.
    #[error("a folder can't be removed as a file")]
    CannotRemoveNonLeaf {
        /// The folder's name.
        filename: ByteString,
    },
    /// A tree on the path isn't well-formed.
    #[error("the tree {oid} is malformed")]
    MalformedTree {
        /// The tree's id.
        oid: ObjectId,
    },
    /// The id of what is grafted is the empty tree's.
    #[error("a tree without entries isn't grafted")]
    EmptyTree,
    /// No memory is left.
    #[error("out of memory")]
    Memory,
}

impl From<existing_object::Error> for Error {
    ghost from_gives = { λ error given. given ≡ FindExistingObject error };

    fn from(error: existing_object::Error) -> Error {
        Error::FindExistingObject(error)
    }
}

impl From<AllocError> for Error {
    ghost from_gives = { λ _ given. given ≡ Memory };

    fn from(_: AllocError) -> Error {
        Error::Memory
    }
}

impl<T: Drop> From<AllocFailed<T>> for Error {
    ghost from_gives = { λ _ given. given ≡ Memory };

    fn from(_: AllocFailed<T>) -> Error {
        Error::Memory
    }
}
