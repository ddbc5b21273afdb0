//! Commits of tests with the replies of git, and repositories in memory after them.
#![tactic(auto)]

mod repositories;
mod streams;

pub use repositories::{first_command, opened_after, parts_after};
pub use streams::{
    ByKind, INPUT, KINDS, LISTED, REPLIES, SECOND, SECOND_REPLY, TWO_BRANCHES, made_id,
};
