//! A run over a new repository in memory: `create`, `Repository::open` and `run` as one call.

mod answer;
mod opened;
mod patient;
pub mod rows;
mod served;

pub use crate::in_memory::answer::{Answer, AnswerError, answer_stream};
pub use crate::in_memory::opened::{NewError, new_repository};
pub use crate::in_memory::patient::Patient;
pub use crate::in_memory::served::serve;
