//! Git's objects: its parts' public items under the names of the crate `gix-object` 0.64.
#![tactic(auto)]

/// Commits.
pub mod commit {
    /// Messages, their bodies and trailers.
    pub mod message {
        /// What a body holds.
        pub mod body {
            pub use gix_object_message::{
                MessageBlock, MessageBlocks, SelectedTrailers, TrailerRef, Trailers,
            };
        }

        pub use gix_object_message::BodyRef;
    }

    /// The parts of a commit, one after another.
    pub mod ref_iter {
        pub use gix_object_commit::ref_iter::{CommitSignature, ParentIds, Signatures, Token};
    }

    pub use gix_object_commit::commit::{
        ExtraHeader, ExtraHeaders, FindAll, HeaderRef, MergeTags, Parents, SIGNATURE_FIELD_NAME,
        SIGNATURE_FIELD_NAME_SHA256, signature_field_name,
    };
    pub use gix_object_message::MessageRef;
}

/// The bytes of objects.
pub mod data {
    /// The test that an object has the expected id.
    pub mod verify {
        pub use gix_object_any::data::verify::Error;
    }
}

/// Reading, and why bytes are refused.
pub mod decode {
    pub use gix_object_lines::decode::{Error, LooseHeaderDecodeError, loose_header};
}

/// Spelling, and why a value is refused.
pub mod encode {
    pub use gix_object_lines::encode::{Error, loose_header};
}

/// The kinds of objects.
pub mod kind {
    pub use gix_object_lines::kind::Error;
}

/// Looking objects up by their ids.
pub mod find {
    /// Why an object that must exist isn't found.
    pub mod existing {
        pub use gix_object_lookup::find::existing::Error;
    }

    /// Why an object that must exist can't be read part by part.
    pub mod existing_iter {
        pub use gix_object_lookup::find::existing_iter::Error;
    }

    /// Why an object that must exist can't be read.
    pub mod existing_object {
        pub use gix_object_lookup::find::existing_object::Error;
    }

    pub use gix_object_lookup::find::{Error, Never};
}

/// Why an entry of a tree can't be looked up by its path.
pub mod lookup {
    pub use gix_object_lookup::lookup::Error;
}

/// Actors, times and the names of references.
pub mod lines {
    pub use gix_object_lines::lines::{
        Actor, ActorRef, Time, is_full_name, is_partial_name, read_actor, read_time, write_actor,
        write_actor_parts, write_time,
    };
}

/// Objects of any kind.
pub mod object {
    pub use gix_object_any::object::LooseDecodeError;
}

/// Signatures.
pub mod signature {
    /// Programs that sign and verify, as a runner starts them.
    pub mod run {
        pub use gix_object_signature::run::{Answer, RunError, Word};
    }

    /// Signing.
    pub mod sign {
        pub use gix_object_signature::sign::{Error, Options, is_literal_ssh_key};
    }

    /// Verifying.
    pub mod verify {
        pub use gix_object_signature::verify::{Error, Options, Outcome, Status, TrustLevel};
    }

    pub use gix_object_signature::{Format, SignatureRef, SignedData};
}

/// Tags.
pub mod tag {
    /// The parts of a tag, one after another.
    pub mod ref_iter {
        pub use gix_object_tag::tag::ref_iter::Token;
    }

    /// Writing tags.
    pub mod write {
        pub use gix_object_lines::write::TagNameError as Error;
    }
}

/// Trees.
pub mod tree {
    /// Editing a tree and the trees below it.
    pub mod editor {
        /// Writing the trees of an editor.
        pub mod write {
            pub use gix_object_editor::tree::editor::write::Error;
        }

        pub use gix_object_editor::tree::editor::{Cursor, Error};
    }

    /// Writing trees.
    pub mod write {
        pub use gix_object_lines::write::FilenameError as Error;
    }

    pub use gix_object_editor::tree::editor::Editor;
    pub use gix_object_tree::tree::{Entry, EntryKind, EntryMode, EntryRef, name_order};
}

/// Keeping objects, and why one isn't kept.
pub mod write {
    pub use gix_object_write::write::Error;
}

pub use gix_object_any::{Data, Object, ObjectRef};
pub use gix_object_commit::{Commit, CommitRef, CommitRefIter};
pub use gix_object_find::{Find, FindExt, FindObjectOrHeader, HeaderExt};
pub use gix_object_hash::{Blob, BlobRef, compute_hash, compute_stream_hash};
pub use gix_object_lines::write::Error as WriteToError;
pub use gix_object_lines::{ByteString, Header, Kind, WriteTo};
pub use gix_object_lookup::{Exists, FindHeader, FindInto, Lookup, TreeRefIterExt};
pub use gix_object_tag::{Tag, TagRef, TagRefIter};
pub use gix_object_tree::{Tree, TreeRef, TreeRefIter};
pub use gix_object_write::Write;
