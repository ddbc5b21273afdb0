//! What a repository's files contain: actors, objects, lines of logs; and the folder's two parts.
#![tactic(auto)]

mod actor;
mod commit;
mod id_text;
pub mod laws;
mod log_entry;
mod object;
mod open_error;
mod parts;
mod place;
mod tag;
mod written;

pub use actor::{Actor, is_actor_part, parse_time};
pub use commit::{commit_bytes, commit_tree, parse_commit, plain_commit};
pub use id_text::{hex_digits, parse_lower_hex};
pub use log_entry::{LogEntry, log_lines};
pub use object::{NewObject, parse_header};
pub use open_error::{NamedBy, OpenError};
pub use parts::{Part, Stray, survey};
pub use place::{UNFINISHED, object_place};
pub use tag::{tag_bytes, tag_target};
pub use written::{
    Named, has_twice, is_before_1970, is_name, is_tag_of_other, is_written_tree, named_by, title,
};
