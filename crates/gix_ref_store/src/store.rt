//! Stores of references.

pub mod file;
