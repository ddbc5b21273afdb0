//! Git's object ids, their kinds, views and digits, prefixes of ids, and digests: the crate `gix-hash` 0.26.
#![tactic(auto)]

mod change_id;
mod display;
pub mod hasher;
mod id_view;
pub mod io;
pub mod kind;
pub mod laws;
mod object_id;
pub mod prefix;
mod run;
pub mod spelling;
pub mod verify;
pub mod write;

pub use crate::change_id::{ChangeId, ReverseHexDisplay};
pub use crate::display::HexDisplay;
pub use crate::hasher::Hasher;
pub use crate::id_view::{Error, oid};
pub use crate::io::{bytes, bytes_of_file, bytes_with_hasher};
pub use crate::kind::Kind;
pub use crate::object_id::{ObjectId, decode};
pub use crate::prefix::Prefix;
pub use crate::run::{Run, can_run, prefix_run};
