//! Existing names, with what each holds (`read_shown`), as they are listed.

ghost use Rattle.std.specs.Prelude.{◌≡◌, map};
ghost use Rattle.history_repository.specs.NamesShown.{ArePeeled, shown_name, told_name};
ghost use Rattle.history_repository.specs.Stands.{Stands};
ghost use Rattle.history_repository.specs.Reads.{GivesMeant};
ghost use Rattle.history_model.specs.Repository as plain;

use crate::held::Held;
use crate::read_objects::ReadObjects;
use crate::repository::Repository;
use crate::stopped::Stopped;
use crate::stored::peeled;
use gix_ref_file::Files;
use history_model::Fault;
use history_store::NamedId;
use std::alloc::Global;

/// The folder of all names.
pub const ALL_NAMES: &[u8] = b"refs";

/// An existing name, and what it holds.
#[derive(Drop)]
pub struct Shown {
    pub name: Vec<u8>,
    pub held: Held,
}

/// Returns the names with what they hold. An object that several names hold is read once. It is a
/// fault if a call of the files failed, or if no memory is left.
pub fn read_shown<F: Files>(
    repository: &Repository<F>,
    alloc: Global,
    names: Vec<NamedId>,
) -> Result<Vec<Shown>, Stopped>
    ensures { (r : plain.Repository) → Stands F.is_honest F.history repository.now r
        → ArePeeled r names.items → GivesMeant F.reading_may_fail
        (λ shown. map shown_name shown.items ≡ map (told_name r) names.items) result }
{
    let mut read = ReadObjects::new(alloc);
    let mut shown = Vec::new(alloc);
    for named in names {
        let id = named.id;
        let commit = peeled(repository, alloc, &mut read, id)?.ok_or(Fault::File)?;
        let held = Held { id, commit };
        shown.push(Shown {
            name: named.name,
            held,
        })?;
    }
    Ok(shown)
}
