//! The replies to the commands that change no file, and the rows that `index` keeps.
//! The commands are `names`, `files`, `past`, `log` and `show`.
#![tactic(auto)]

mod differing;
mod listed;
mod listing;
mod logs;
mod pasts;
mod reading;
mod rows;
mod showing;

pub use listed::list_names;
pub use listing::list_files;
pub use logs::log;
pub use pasts::past;
pub use rows::all_rows;
pub use showing::show;
