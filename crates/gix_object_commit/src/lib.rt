//! Git's commits: their lines, read token by token or whole, owned, written and signed, after `gix-object` 0.64.
#![tactic(auto)]

pub mod commit;
pub mod encoding;
pub mod extra_headers;
pub mod header;
pub mod laws;
pub mod person;
pub mod ref_iter;
pub mod signature_name;

pub use crate::commit::{Commit, CommitRef};
pub use crate::ref_iter::CommitRefIter;
