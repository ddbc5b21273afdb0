//! A new repository in memory, created and opened (`new_repository`), or why there is none.

ghost use Rattle.std.specs.Prelude.{◌≡◌, false, IfOk};
ghost use Rattle.history_model.specs.Repository.{fresh};
ghost use Rattle.history_repository.specs.Face.{has_failed};
ghost use Rattle.history_repository.specs.Stands.{Stands};
ghost use Rattle.history.specs.declared.in_memory.opened.NewError.TheVariants as why;
ghost use Rattle.history_repository.specs.declared.open_error.OpenRefusal.{OpenRefusal};

use crate::repository::Repository;
use gix_hash::Kind;
use gix_ref_file::{Files, MemoryFiles};
use history_repository::{OpenError, OpenRefusal};
use history_store::{CreateError, create};
use std::alloc::Global;
use thiserror::Error;

/// Why there is no new repository in memory.
#[derive(Debug, Drop, Error)]
pub enum NewError {
    /// Its files weren't made.
    #[error("no repository is made")]
    Create(CreateError),
    /// Its files weren't opened.
    #[error("the repository isn't opened")]
    Open(OpenError),
}

impl From<CreateError> for NewError {
    ghost from_gives = { λ error given. given ≡ why.Create error };

    fn from(error: CreateError) -> NewError {
        NewError::Create(error)
    }
}

impl From<OpenRefusal<MemoryFiles>> for NewError {
    ghost from_gives = { λ refusal given. given ≡ why.Open refusal.error };

    fn from(refusal: OpenRefusal<MemoryFiles>) -> NewError {
        NewError::Open(refusal.error)
    }
}

/// Makes a repository without names and objects in memory, and opens it. Nothing is left of it
/// after an error, which is that of [`create`] or of [`Repository::open`].
pub fn new_repository(alloc: Global, kind: Kind) -> Result<Repository<MemoryFiles>, NewError>
    ensures unfailed { IfOk result (λ made. has_failed made ≡ false) }
    ensures stands { IfOk result
        (λ made. Stands ⟦<MemoryFiles as Files>⟧.is_honest ⟦<MemoryFiles as Files>⟧.history made
        (fresh kind)) }
{
    let mut objects = MemoryFiles::new(alloc);
    let mut names = MemoryFiles::new(alloc);
    create(alloc, &mut objects, &mut names, kind)?;
    Ok(Repository::open(alloc, objects, names, kind)?)
}
