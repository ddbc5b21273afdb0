//! The plan of a `rename`: both names tested, and the move that makes the new one at what the old one holds.

ghost use Rattle.std.specs.Prelude.{◌≡◌, ◌∷◌, [], None, Some, IfOk, MatchResult};
ghost use Rattle.gix_hash.specs.Id.{id_of};
ghost use Rattle.history_model.specs.Bytes.{Bytes};
ghost use Rattle.history_model.specs.Meaning.{history_actor};
ghost use Rattle.history_model.specs.Repository.{id_at};
ghost use Rattle.history_texts.specs.Formats.{actor_of};
ghost use Rattle.history_word.specs.Commands.{IsRename};
ghost use Rattle.history_plans.specs.Moving.{names_cause};
ghost use Rattle.history_plans.specs.Renaming.{MakesName, PlansRename, TestsRename};
ghost use Rattle.history_repository.specs.Stands.{Stands};
ghost use Rattle.history_model.specs.Repository as plain;

use crate::planning::moves_to;
use gix_hash::{Kind, ObjectId};
use gix_object::lines::Time;
use gix_ref_file::Files;
use history_model::Cause;
use history_repository::{Repository, Stopped, is_private};
use history_store::{Actor, MovedName, is_name};
use history_word::Rename;
use std::alloc::{AllocError, Global};

/// Tests the two names by themselves: a repository may hold both, and they differ. Otherwise
/// returns `BadName`, `PrivateName` or `NameTwice`.
fn test_both(from: &[u8], to: &[u8]) -> Result<(), Cause>
    ensures { MatchResult result (λ _. names_cause (from.now ∷ to.now ∷ []) ≡ None)
        (λ cause. names_cause (from.now ∷ to.now ∷ []) ≡ Some cause) }
{
    if !is_name(from) || !is_name(to) {
        return Err(Cause::BadName);
    }
    if is_private(from) || is_private(to) {
        return Err(Cause::PrivateName);
    }
    if from == to {
        return Err(Cause::NameTwice);
    }
    Ok(())
}

/// Returns who renames, in the logs: `history <> 0 +0000`.
fn renamer(alloc: Global) -> Result<Actor, AllocError>
    ensures { IfOk result (λ actor. actor_of actor ≡ history_actor) }
{
    Ok(Actor {
        name: Vec::from_slice(alloc, b"history")?,
        email: Vec::new(alloc),
        time: Time {
            seconds: 0,
            offset: 0,
        },
    })
}

/// Returns how the new name is made at this id.
fn new_name(alloc: Global, kind: Kind, to: &[u8], id: ObjectId) -> Result<MovedName, AllocError>
    ensures { (r : plain.Repository) (from : Bytes) → kind ≡ r.kind
        → id_at r from ≡ Some (id_of id) → id_at r to.now ≡ None
        → IfOk result (MakesName r from to.now) }
{
    let name = Vec::from_slice(alloc, to)?;
    let actor = renamer(alloc)?;
    let message = Vec::from_slice(alloc, b"rename")?;
    Ok(moves_to(name, ObjectId::null(kind), id, actor, message))
}

/// Tests every cause, and returns what the old name holds. It changes nothing. The errors are those
/// of `plan_rename`.
fn test_rename<F: Files>(
    repository: &Repository<F>,
    alloc: Global,
    command: &Rename,
) -> Result<ObjectId, Stopped>
    ensures { (r : plain.Repository) (from to : Bytes)
        → Stands F.is_honest F.history repository.now r → IsRename command.now from to
        → TestsRename F.reading_may_fail r from to result }
{
    test_both(&command.from, &command.to)?;
    let Some(id) = repository.names.find(alloc, &command.from)? else {
        return Err(Stopped::Refused(Cause::NoSuchName));
    };
    if repository.names.find(alloc, &command.to)?.is_some() {
        return Err(Stopped::Refused(Cause::Taken));
    }
    if repository.names.collides_any(alloc, &command.to)? {
        return Err(Stopped::Refused(Cause::Collides));
    }
    Ok(id)
}

/// Tests every cause, and returns how the new name is made. It changes nothing.
///
/// It is refused for the first cause that holds: `BadName`, `PrivateName`, `NameTwice`,
/// `NoSuchName`, `Taken` or `Collides`. It is a fault if a call of the files failed, or if no
/// memory is left.
pub fn plan_rename<F: Files>(
    repository: &Repository<F>,
    alloc: Global,
    command: &Rename,
) -> Result<MovedName, Stopped>
    ensures { (r : plain.Repository) (from to : Bytes)
        → Stands F.is_honest F.history repository.now r → IsRename command.now from to
        → PlansRename F.reading_may_fail r from to result }
{
    let id = test_rename(repository, alloc, command)?;
    Ok(new_name(alloc, repository.names.kind(), &command.to, id)?)
}
