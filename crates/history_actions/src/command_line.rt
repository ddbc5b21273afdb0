//! The program's command line: its actions, and how its words are read.

mod asked;
mod line;
mod version;

pub use crate::command_line::asked::{Action, AskError, Asked, read_words};
