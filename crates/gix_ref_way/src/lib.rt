//! The way of a file: the folders that it is in, folders in its place, and files that block it.
#![tactic(auto)]

mod anew;
mod error;
mod files;
mod folders;
mod way;

pub use crate::anew::write_anew;
pub use crate::error::Way;
pub use crate::files::{has_file_above, has_file_below, is_file};
pub use crate::folders::{is_folder, make_folders};
pub use crate::way::{make_way, try_make_way};
