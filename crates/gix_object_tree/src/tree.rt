//! Trees, and what their entries are made of.

mod decode;
pub(crate) mod entry;
mod hash;
mod mode;
mod mode_text;
mod order;
mod owned;
mod ref_iter;
mod search;
mod well_formed;
mod whole;
mod write;

pub use entry::{Entry, EntryRef};
pub use mode::{EntryKind, EntryMode};
pub use order::name_order;
pub use owned::Tree;
pub use ref_iter::TreeRefIter;
pub use whole::TreeRef;
