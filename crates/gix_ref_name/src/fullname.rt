//! Full names of references.

mod convert;
mod owned;
mod view;
mod views;

pub use crate::fullname::owned::FullName;
pub use crate::fullname::view::FullNameRef;
