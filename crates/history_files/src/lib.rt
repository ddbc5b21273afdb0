//! Whole file maps over stores of trees: what is at a path, all files, and edits.
#![tactic(auto)]

mod editing;
mod edits;
mod error;
mod found;
mod found_each;
mod kept;
pub mod laws;
mod listing;
mod named_trees;
mod opening;
mod paths;
mod read_edits;
mod read_paths;
mod read_trees;
mod trees;

pub use editing::edit_files;
pub use edits::{Change, Edit, EditError, make_edits};
pub use error::ReadError;
pub use found::{Found, entry_at};
pub use found_each::entries_at;
pub use gix_traverse_tree::EntriesState;
pub use kept::{files_by_trees, read_below};
pub use listing::{File, files};
pub use named_trees::{NamedTrees, entries_at_once};
pub use opening::open_editor;
pub use paths::is_file_path;
pub use read_edits::read_for_edits;
pub use read_paths::read_on_paths;
pub use read_trees::{ReadTrees, TreeStore};
pub use trees::{EditedFiles, EditedTree};
