//! Cases of `gix_object_find` and `gix_object_write`.

mod asked;
mod errors;
mod keeping;
mod kinds;
mod operations;
mod paths;
mod store;

pub use operations::put_answer;
