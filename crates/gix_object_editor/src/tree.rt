//! Trees that are edited.

pub mod editor;
