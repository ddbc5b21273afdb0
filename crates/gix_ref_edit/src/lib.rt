//! Edits of references, as a transaction takes them, after the crate `gix-ref` 0.67.
#![tactic(auto)]

mod change;
mod copies;
mod ext;
mod log;
mod names;
mod splits;

pub use crate::change::{Change, PreviousValue, RefEdit};
pub use crate::ext::{PreProcessError, RefEditsExt};
pub use crate::log::{LogChange, RefLog};
pub use crate::names::TwiceError;
pub use crate::splits::{FindTarget, FindTargetError, SplitError};
