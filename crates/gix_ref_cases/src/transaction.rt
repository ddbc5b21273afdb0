//! Cases of `gix_ref_lock` and `gix_ref_transaction`.

mod cases;
mod edits;
mod loose;
mod objects;
mod ref_edits;
mod trees;

pub use cases::put_answer;
