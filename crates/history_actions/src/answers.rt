//! The result of an action.

use crate::failure::Failure;
use gix_ref_file::Files;

/// The result of an action, and the folder's two parts as it leaves them.
#[derive(Drop)]
pub struct Performed<F: Files> {
    pub answer: Result<(), Failure>,
    pub objects: F,
    pub names: F,
}
