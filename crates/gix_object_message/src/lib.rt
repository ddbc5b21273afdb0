//! Messages of commits and tags, their titles, trailers and blocks, after `gix-object` 0.64.
#![tactic(auto)]

mod blocks;
mod body;
mod lines;
mod message;
mod paragraph;
mod runs;
mod summary;
mod title;
mod trailer;
mod trailers;
mod white;

pub use crate::blocks::{MessageBlock, MessageBlocks};
pub use crate::body::BodyRef;
pub use crate::message::MessageRef;
pub use crate::trailer::TrailerRef;
pub use crate::trailers::{SelectedTrailers, Trailers};
