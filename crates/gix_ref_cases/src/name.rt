//! Cases of `gix_ref_name` and `gix_ref_edit`.

mod cases;
mod full;
mod lists;
mod operations;
mod partial;
mod targets;

pub use operations::put_answer;
