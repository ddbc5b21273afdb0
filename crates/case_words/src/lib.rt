//! What programs of cases share: words of a line, a page of results, files and objects in memory.
#![tactic(auto)]

mod bytes;
mod case;
mod digits;
mod files;
mod ids;
mod page;
mod session;
mod sizes;
mod store;
mod stored;
mod trees;

pub use bytes::read_bytes;
pub use case::Case;
pub use digits::{Texts, read_digits, read_texts, text_of};
pub use files::{Trial, act_on, call_by, sound};
pub use ids::{read_id, read_kind};
pub use page::Page;
pub use session::{Session, answer};
pub use sizes::answer_sizes;
pub use store::Store;
pub use stored::{Stored, read_loose, stored_at};
pub use trees::{Row, Trees, row_of_content};
