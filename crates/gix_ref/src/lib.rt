//! References and their logs: its parts' public items under the names of `gix-ref` 0.67.
#![tactic(auto)]

/// Names that rules may complete, and why bytes are no name.
pub mod name {
    pub use gix_ref_name::name::{Error, InvalidName};
}

/// Namespaces.
pub mod namespace {
    pub use gix_ref_name::namespace::expand;
}

/// Names whose characters are composed.
pub mod compose {
    pub use gix_ref_name::compose::precompose_unicode;
}

/// Following references to objects.
pub mod peel {
    /// Why names and tags lead to no object.
    pub mod to_id {
        pub use gix_ref_store::store::file::peel::Error;
    }

    /// Why no object is reached over names.
    pub mod to_object {
        pub use gix_ref_store::store::file::follow::Error;
    }
}

/// References in files of their own, stores of them, and their logs.
pub mod file {
    /// Lookups.
    pub mod find {
        pub use gix_ref_store::store::file::find::Error;

        /// Lookups of references that must exist.
        pub mod existing {
            pub use gix_ref_store::store::file::find::ExistingError as Error;
        }
    }

    /// Listings.
    pub mod iter {
        /// Files and packed records as one listing.
        pub mod loose_then_packed {
            pub use gix_ref_store::store::file::iter::Error;
        }

        pub use gix_ref_store::store::file::Platform;
        pub use gix_ref_store::store::file::iter::LooseThenPacked;
    }

    /// Logs.
    pub mod log {
        /// Reading logs.
        pub mod iter {
            pub use gix_ref_log::iter::{
                Error, FileAt, Forward, IoError, ReadAt, Reverse, forward, reverse,
            };
            pub use gix_ref_store::store::file::LogPlatform as Platform;

            /// Why a line isn't given.
            pub mod decode {
                pub use gix_ref_log::iter::decode::{Error, LineNumber};
            }
        }

        /// Why bytes are no line of a log.
        pub mod decode {
            pub use gix_ref_log::decode::Error;
        }

        pub use gix_ref_log::LineRef;
        pub use gix_ref_store::store::file::log::{Error, LogFile};
    }

    /// References in files of their own.
    pub mod loose {
        pub use gix_ref_format::loose::Reference;
        pub use gix_ref_store::store::file::loose::LogExt;

        /// The texts of such files.
        pub mod reference {
            /// Reading them.
            pub mod decode {
                pub use gix_ref_format::loose::{Error, decode};
            }

            pub use gix_ref_format::loose::write;
        }
    }

    pub use gix_ref_store::store::file::{FolderError, ReferenceExt, Refused, Store};
    pub use gix_ref_transaction::file::{Begun, Transact, Transaction};
}

/// Packed references.
pub mod packed {
    /// The whole file.
    pub mod buffer {
        /// Opening it.
        pub mod open {
            pub use gix_ref_format::packed::buffer::Error;
        }
    }

    /// Lookups.
    pub mod find {
        /// Lookups of records that must exist.
        pub mod existing {
            pub use gix_ref_format::packed::FindError as Error;
        }
    }

    /// The records line by line.
    pub mod iter {
        pub use gix_ref_format::packed::iter::Error;
    }

    /// Writing the file.
    pub mod write {
        pub use gix_ref_format::packed::{
            Edit, edited, packed_text, write_header, write_record, written,
        };
    }

    /// Transactions of the file.
    pub mod transaction {
        /// Writing the new text beside the file.
        pub mod prepare {
            pub use gix_ref_lock::packed::PrepareError as Error;
        }

        /// Putting it in the file's place.
        pub mod commit {
            pub use gix_ref_lock::packed::CommitError as Error;
        }

        pub use gix_ref_lock::packed::{Error, LockError, RecordEdit};
    }

    pub use gix_ref_format::packed::{Buffer, Header, Iter, Peeled, Records, Reference};
    pub use gix_ref_lock::packed::Transaction;
}

/// Lines of logs.
pub mod log {
    pub use gix_ref_log::Line;

    /// Why a line isn't written.
    pub mod write {
        pub use gix_ref_log::write::Error;
    }
}

/// Stores.
pub mod store {
    /// What a store must know of its repository.
    pub mod init {
        pub use gix_ref_store::Options;
    }

    pub use gix_ref_store::WriteReflog;
}

/// Edits of references, and transactions of their own files and of packed records.
pub mod transaction {
    /// Preparing a transaction.
    pub mod prepare {
        pub use gix_ref_transaction::{PrepareError as Error, Refusal};
    }

    /// Committing it.
    pub mod commit {
        pub use gix_ref_lock::{CommitError as Error, LogError};
    }

    pub use gix_ref_edit::{
        Change, FindTarget, FindTargetError, LogChange, PreProcessError, PreviousValue, RefEdit,
        RefEditsExt, RefLog, SplitError, TwiceError,
    };
    pub use gix_ref_transaction::PackedRefs;
    pub use gix_ref_transaction::transaction::Transaction as Prepared;
}

pub use gix_ref_file::{FileError, Files, MemoryFiles, Place};
pub use gix_ref_folder::{Disk, Failure, Folder, Found, LastCall, Part, System};
pub use gix_ref_fuse::Fuse;
pub use gix_ref_name::{
    Category, FullName, FullNameRef, Kind, Namespace, PartialName, PartialNameRef, Target,
    TargetRef,
};
pub use gix_ref_store::Reference;
