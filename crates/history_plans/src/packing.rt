//! The plan of a `pack`: all names, as they are to be packed: each with its id, of a tag also its commit.

ghost use Rattle.std.specs.Prelude.{◌≡◌, IfNone, IfSome, IsFalse, map};
ghost use Rattle.gix_object_lines.specs.NameTest.{is_full_name};
ghost use Rattle.history_store.specs.Packed.{record_of_name, records_of};
ghost use Rattle.history_repository.specs.Reads.{GivesMeant};
ghost use Rattle.history_repository.specs.NamesShown.{ArePeeled, shown_name, told_name};
ghost use Rattle.history_repository.specs.HeldObjects.{HoldsMore};
ghost use Rattle.history_plans.specs.Packing.{AreFull, IsPacking, line_record};
ghost use Rattle.history_repository.specs.Stands.{Stands};
ghost use Rattle.history_model.specs.Repository as plain;

use gix_object_lines::ByteString;
use gix_ref_file::Files;
use gix_ref_name::FullName;
use history_model::Fault;
use history_repository::{ALL_NAMES, Held, HeldObjects, PeeledCommit, Repository, Shown, Stopped};
use history_store::{NamedId, PackedName};
use std::alloc::Global;

/// Returns the name as it is to be packed: with its id, and of a tag with the commit that it is of.
/// `None` if it isn't a full name.
fn to_pack(shown: Shown) -> Option<PackedName>
    ensures some { IfSome result
        (λ named. record_of_name named ≡ line_record (shown_name shown)) }
    ensures none { IfNone result (IsFalse (is_full_name shown.name.items)) }
{
    let id = shown.held.id;
    let peeled = shown.held.tagged();
    let name = FullName::new(ByteString::new(shown.name)).ok()?;
    Some(PackedName { name, id, peeled })
}

/// Returns the names as they are to be packed. It is a fault only if no memory is left.
fn all_to_pack(alloc: Global, shown: Vec<Shown>) -> Result<Vec<PackedName>, Stopped>
    ensures { AreFull shown.items → GivesMeant ⊥ (λ names. records_of names.items
        ≡ map line_record (map shown_name shown.items)) result }
{
    let mut names = Vec::new(alloc);
    for one in shown {
        // The names of a whole repository are full ones.
        let named = to_pack(one).ok_or(Fault::File)?;
        names.push(named)?;
    }
    Ok(names)
}

/// Returns the names with what they hold. Each object that they hold is held from then on, and so is
/// each commit that a tag among these is of: it is read, unless it is held. It is a fault if a call
/// of the files failed, or if no memory is left.
fn read_all<F: Files>(
    repository: &Repository<F>,
    alloc: Global,
    held: &mut HeldObjects,
    names: Vec<NamedId>,
) -> Result<Vec<Shown>, Stopped>
    ensures { (r : plain.Repository) → Stands F.is_honest F.history repository.now r
        → ArePeeled r names.items → HoldsMore F.reading_may_fail r held.old held.new
        (λ shown. map shown_name shown.items ≡ map (told_name r) names.items) result }
{
    let mut shown = Vec::new(alloc);
    for named in names {
        let id = named.id;
        let peeled = held.commit_of(repository, alloc, id)?;
        let commit = PeeledCommit {
            id: peeled,
            root: None,
        };
        shown.push(Shown {
            name: named.name,
            held: Held { id, commit },
        })?;
    }
    Ok(shown)
}

/// All names as they are to be packed, and the objects that were read for them.
#[derive(Drop)]
pub struct Packing {
    pub names: Vec<PackedName>,
    pub held: HeldObjects,
}

/// Returns all existing names, as they are to be packed, with the objects that they hold and the
/// commits that tags among these are of, each of which is read once. It changes nothing. It is a
/// fault if a call of the files failed, or if no memory is left.
pub fn names_to_pack<F: Files>(
    repository: &Repository<F>,
    alloc: Global,
) -> Result<Packing, Stopped>
    ensures { (r : plain.Repository) → Stands F.is_honest F.history repository.now r
        → GivesMeant F.reading_may_fail (IsPacking r) result }
{
    let listed = repository.names.list_all(alloc, ALL_NAMES)?;
    let mut held = HeldObjects::new(alloc);
    let shown = read_all(repository, alloc, &mut held, listed)?;
    let names = all_to_pack(alloc, shown)?;
    Ok(Packing { names, held })
}
