//! Packed records under edits of references: which change, and the lock that holds their new text.

mod error;
mod packed_refs;
mod records;

pub use error::RepackError;
pub use packed_refs::PackedRefs;
pub use records::repack;
