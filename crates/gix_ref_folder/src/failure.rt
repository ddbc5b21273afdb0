//! A call that failed (`Failure`): its path, the system's error, and its text.
ghost use Rattle.std.specs.Prelude.{◌≡◌, ◌++◌, ◌∷◌, ℕ, List, IfOk};
ghost use Rattle.gix_ref_folder.specs.Errors.{failed_path, failed_error, IsFailureOf};

use std::alloc::{AllocError, Global};
use std::io;

/// A call that failed: its path, and the system's reason.
#[derive(Drop)]
pub struct Failure {
    path: Vec<u8>,
    error: io::Error,
}

impl Failure {
    // Keeps only the error if memory for the path is refused.
    pub(crate) fn new(alloc: Global, path: &[u8], error: io::Error) -> Self
        ensures { IsFailureOf path.now error result }
    {
        Failure {
            path: Vec::from_slice(alloc, path).unwrap_or(Vec::new(alloc)),
            error,
        }
    }

    /// Returns the path, from the folder's root on. It is empty for the root, and if memory to keep
    /// it was refused.
    pub fn path(&self) -> &[u8]
        ensures { result.now ≡ failed_path self.now }
    {
        &self.path
    }

    /// Returns the system's error.
    pub fn error(&self) -> io::Error
        ensures { result ≡ failed_error self.now }
    {
        self.error
    }

    /// Returns the path and the system's reason, as `objects/8f: Permission denied`; an error if
    /// memory ran out.
    pub fn text(&self, alloc: Global) -> Result<Vec<u8>, AllocError>
        ensures { IfOk result (λ text. (reason : List ℕ)
            × (text.items ≡ failed_path self.now ++ 58 ∷ 32 ∷ reason)) }
    {
        let reason = format!(in alloc; "{}", self.error)?;
        let end = reason.find(" (os error ").unwrap_or(reason.len());
        let mut text = Vec::from_slice(alloc, &self.path)?;
        text.extend_from_slice(b": ")?;
        text.extend_from_slice(&reason.as_bytes()[..end])?;
        Ok(text)
    }
}
