//! A repository over two file trees: how it is opened, and what it reads of its names and objects.
#![tactic(auto)]

mod fields;
mod folder;
mod held;
mod held_objects;
mod naming;
mod open;
mod open_error;
mod read_objects;
mod repository;
mod shown;
mod stopped;
mod stored;
mod words;

pub use fields::{into_kept, is_bad_path, is_too_long, kept};
pub use held::{Held, commit_held, id_before, id_held, peeled_held, read_held};
pub use held_objects::{HeldObjects, HeldStore};
pub use history_texts::{NamedBy, OpenError};
pub use naming::{is_private, test_name};
pub use open_error::OpenRefusal;
pub use read_objects::ReadObjects;
pub use repository::Repository;
pub use shown::{ALL_NAMES, Shown, read_shown};
pub use stopped::Stopped;
pub use stored::{
    MeantCommit, PeeledCommit, content, found_below, root_meant, root_peeled, rooted, tree_before,
};
pub use words::{Standing, WordMeaning, first_standing, read_commit_of, read_word, test_all};
