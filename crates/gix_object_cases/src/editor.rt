//! Cases of `gix_object_editor`.

mod case;
mod session;

pub use session::put_answer;
