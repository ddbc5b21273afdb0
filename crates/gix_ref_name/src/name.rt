//! Partial names, which rules may complete, and why bytes are no name.

mod convert;
mod error;
mod partial;
mod view;

pub use crate::name::error::{Error, InvalidName};
pub use crate::name::partial::PartialName;
pub use crate::name::view::PartialNameRef;
