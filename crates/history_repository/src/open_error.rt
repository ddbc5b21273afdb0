//! Why a folder isn't opened, with its two parts (`OpenRefusal`).

use gix_ref_file::Files;
use history_texts::OpenError;

/// Why a folder isn't opened, and its two parts, as they were given.
#[derive(Drop)]
pub struct OpenRefusal<F: Files> {
    pub error: OpenError,
    pub objects: F,
    pub names: F,
}
