//! Blobs, and the ids of Git's objects, after the crate `gix-object` 0.64.
#![tactic(auto)]

mod blob;
mod hash;
mod stream_hash;

pub use crate::blob::{Blob, BlobRef};
pub use crate::hash::compute_hash;
pub use crate::stream_hash::compute_stream_hash;
