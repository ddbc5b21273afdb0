//! Objects and names as files: each object under its id; HEAD, names with ids and logs, and `packed-refs`.
#![tactic(auto)]

mod changing;
mod creation;
mod edits;
mod faults;
mod folders;
mod head;
mod ids;
mod listed;
mod meeting;
mod names;
mod objects;
mod opening;
mod packed;
mod packs;
mod prefixes;
mod put;

pub use changing::MovedName;
pub use creation::{CreateError, create};
pub use gix_object_lines::Kind as ObjectKind;
pub use history_texts::{
    Actor, LogEntry, Named, NamedBy, NewObject, OpenError, Part, Stray, UNFINISHED, commit_bytes,
    commit_tree, has_twice, hex_digits, is_actor_part, is_name, is_written_tree, log_lines,
    named_by, object_place, parse_commit, parse_header, parse_lower_hex, parse_time, plain_commit,
    survey, tag_bytes, tag_target, title,
};
pub use ids::IdIter;
pub use listed::NamedId;
pub use names::Names;
pub use objects::{Object, Objects, PutMadeError};
pub use opening::{ObjectsRefusal, OpenedObjects, open_objects};
pub use packed::PACKED;
pub use packs::PackedName;
pub use prefixes::{Hit, Lookup};
pub use put::PutError;
