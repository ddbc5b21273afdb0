//! Cases of `history_files`.

mod case;
mod session;
mod store;

pub use session::answer;
