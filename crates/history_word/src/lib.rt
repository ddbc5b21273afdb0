//! Sources and sinks of the program's bytes, the reader that makes commands of them, and the lines of replies.
#![tactic(auto)]

mod buffer;
mod command;
mod draft;
mod heading;
pub mod laws;
mod lines;
mod logs;
mod memory;
mod place;
mod reader;
mod sizes;
mod stream;
mod streams;
mod targets;
mod words;

pub use buffer::Buffer;
pub use command::{
    ActorLine, Command, CommitCommand, Delete, Edit, Expect, Field, Graft, LogCommand, LogItem,
    MoveCommand, Order, Put, Rename, Show, TagCommand, To,
};
pub use lines::{field, kind_word, line};
pub use memory::{Bytes, Collected};
pub use reader::{Received, Stop, read_command};
pub use stream::Stream;
pub use streams::{Broken, Sink, Source, write_all};
