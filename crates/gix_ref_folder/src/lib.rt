//! One part of a real folder, as files.
#![tactic(auto)]

mod disk;
mod failure;
mod failures;
mod folder;
mod last_call;
mod own;
mod part;
mod system;
mod system_errors;

pub use disk::Disk;
pub use failure::Failure;
pub use folder::{Folder, LONGEST_ROOT};
pub use last_call::LastCall;
pub use part::Part;
pub use system::{Found, System};
