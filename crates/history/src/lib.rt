//! A version store with Git's ids, names and logs: a repository, and a run of commands over it.
//!
//! [`create`] makes a repository of two file trees, [`Repository::open`] opens one, and [`run`]
//! reads commands, acts on each by [`answer`] and writes its reply. [`recover`] makes whole what a
//! stopped or failed call left. A command that changes files is two calls,
//! [`Repository::store_objects`] and [`Repository::move_names`], and a run changes files only by
//! what these call. [`in_memory`] runs a stream of commands over a new repository.
#![tactic(auto)]

mod act;
mod changing;
mod commit;
mod deleting;
pub mod in_memory;
mod indexing;
mod moves;
mod moving;
mod packing;
mod renaming;
mod reply;
mod repository;
mod running;
mod switching;
mod tagging;

/// How a store of objects is looked up: what is stored under an id.
pub mod lookups {
    pub use gix_object::{Data, Exists, Find, FindHeader, FindInto, Header, Kind, Lookup, find};
}

/// The parts of a [`Command`], as it is read.
pub mod commands {
    pub use history_model::FileKind;
    pub use history_word::{
        ActorLine, CommitCommand, Delete, Edit, Expect, Field, Graft, LogCommand, LogItem,
        MoveCommand, Order, Put, Rename, Show, TagCommand, To,
    };
}

pub use act::answer;
pub use gix_hash::{Kind, ObjectId, Prefix, oid};
pub use gix_traverse_graph::{Graph, Row};
pub use history_model::{Cause, End, Fault, laws};
pub use history_recovery::{RecoverError, recover};
pub use history_repository::{NamedBy, OpenError, OpenRefusal, Stopped};
pub use history_store::{
    CreateError, Hit, IdIter, LogEntry, Lookup, MovedName, Object, Objects, ObjectsRefusal,
    PutError, create,
};
pub use history_word::{Broken, Bytes, Collected, Command, Received, Sink, Source, Stream};
pub use moves::{Done, Moves};
pub use reply::Reply;
pub use repository::Repository;
pub use running::{RunError, run};
