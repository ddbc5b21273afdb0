//! What a name holds (`Held`): its id, the commit that it peels to, whether it is a tag; its id before a move.

ghost use Rattle.std.specs.Prelude.{◌≡◌, not, option_map, unwrap_or};
ghost use Rattle.gix_hash.specs.Id.{id_of, null_id};
ghost use Rattle.gix_hash.specs.Order.{id_eq};
ghost use Rattle.history_repository.specs.Reads.{ReadsMore};
ghost use Rattle.history_repository.specs.Held.{IsHeld, held_commit, held_id, held_peeled, tagged_commit};
ghost use Rattle.history_repository.specs.Stands.{Stands};
ghost use Rattle.history_model.specs.Repository as plain;

use crate::read_objects::ReadObjects;
use crate::repository::Repository;
use crate::stopped::Stopped;
use crate::stored::{PeeledCommit, peeled};
use gix_hash::{Kind, ObjectId};
use gix_ref_file::Files;
use history_model::Fault;
use std::alloc::Global;

/// The id that a name holds, and the commit that it peels to: that of a tag, else the id itself.
#[derive(Clone, Copy)]
pub struct Held {
    pub id: ObjectId,
    pub commit: PeeledCommit,
}

impl Held {
    /// Returns whether the id is a tag's.
    pub fn is_tag(self) -> bool
        ensures { result ≡ not (id_eq (held_id self) (held_commit self)) }
    {
        self.id != self.commit.id
    }

    /// Returns the commit of the tag that is held; `None` if a commit is held.
    pub fn tagged(self) -> Option<ObjectId>
        ensures { option_map id_of result ≡ tagged_commit self }
    {
        if self.is_tag() {
            Some(self.commit.id)
        } else {
            None
        }
    }
}

/// Returns the commit that a name peels to, if the name exists.
pub fn commit_held(held: Option<Held>) -> Option<ObjectId>
    ensures { option_map id_of result ≡ option_map held_commit held }
{
    Some(held?.commit.id)
}

/// Returns the same commit with its root.
pub fn peeled_held(held: Option<Held>) -> Option<PeeledCommit>
    ensures { result ≡ option_map held_peeled held }
{
    Some(held?.commit)
}

/// Returns the id that a name holds, if the name exists.
pub fn id_held(held: Option<Held>) -> Option<ObjectId>
    ensures { option_map id_of result ≡ option_map held_id held }
{
    Some(held?.id)
}

/// Returns the id before a name's move: the null id, if the name doesn't exist.
pub fn id_before(held: Option<Held>, kind: Kind) -> ObjectId
    ensures { id_of result ≡ unwrap_or (option_map held_id held) (null_id kind) }
{
    match held {
        Some(held) => held.id,
        None => ObjectId::null(kind),
    }
}

/// Returns what a name holds; `None` if the name doesn't exist. The object is read only if it wasn't
/// read before. It is a fault if a call of the files failed, or if no memory is left.
pub fn read_held<F: Files>(
    repository: &Repository<F>,
    alloc: Global,
    read: &mut ReadObjects,
    name: &[u8],
) -> Result<Option<Held>, Stopped>
    ensures { (r : plain.Repository) → Stands F.is_honest F.history repository.now r
        → ReadsMore F.reading_may_fail r read.old read.new (IsHeld r name.now) result }
{
    let Some(id) = repository.names.find(alloc, name)? else {
        return Ok(None);
    };
    // In a whole repository each name peels to a commit.
    let commit = peeled(repository, alloc, read, id)?.ok_or(Fault::File)?;
    Ok(Some(Held { id, commit }))
}
